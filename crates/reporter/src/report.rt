// The report of an accepted module: its bodies' heights and calls, their needs, 47, 16, the words.
ghost use Rattle.std.specs.Prelude.{◌≡◌, ◌++◌, suc, ◌*◌, ◌≤◌, length, drop};
ghost use Rattle.rules.specs.Results.{need_answer};
ghost use Rattle.keys.specs.Keys.{Keyed};
ghost use Rattle.reporter.specs.Rows.{Asks};
ghost use Rattle.reporter.specs.Told.{FirstMarked, row_words, AnswerIs, AcceptedIs, BlankRows};

use format::Sections;
use rules::{NeedError, Refusal};

const ENTRY: u32 = 0xffff_ffff;

// The first of the n + 1 rows that loops, or n + 1.
fn first_looping(n: usize, marks: &[u8]) -> usize
    requires { (n ≤ 128) × (length marks.now ≡ 129) }
    ensures { FirstMarked marks.now n result }
{
    for b in 0..n + 1 {
        if marks[b] == 3 {
            return b;
        }
    }
    n + 1
}

// The words of n + 1 rows.
fn put_words(n: usize, need: &[u32], frames: &[u32], out: &mut [u8])
    requires { (n ≤ 128) × (length need.now ≡ 129) × (length frames.now ≡ 129) × (8 * suc n ≤ length out.old) }
    ensures { out.new ≡ row_words need.now frames.now (suc n) ++ drop (8 * suc n) out.old }
{
    for b in 0..n + 1 {
        memory::store32(out, 8 * b, need[b]);
        memory::store32(out, 8 * b + 4, frames[b]);
    }
}

// The answer by what is known of the rows.
fn answer(
    n: usize,
    marks: &[u8],
    need: &[u32],
    frames: &[u32],
    out: &mut [u8],
) -> Result<u64, NeedError>
    requires { (n ≤ 128) × (length marks.now ≡ 129) × (length need.now ≡ 129) × (length frames.now ≡ 129) }
    ensures { AnswerIs n marks.now need.now frames.now out.old (need_answer result) out.new }
{
    let b = first_looping(n, marks);
    if b == 0 {
        return Err(NeedError::Loops(ENTRY));
    }
    if b <= n {
        return Err(NeedError::Loops((b - 1) as u32));
    }
    if out.len() < 8 * (n + 1) {
        return Err(NeedError::Refused(Refusal::OutputTooShort));
    }
    put_words(n, need, frames, out);
    Ok((8 * (n + 1)) as u64)
}

// With a blank table for the calls.
fn settled(
    file: &[u8],
    c: Sections,
    code: &[u8],
    table: &[u16],
    room: &[u8],
    offsets: &mut [u16],
    out: &mut [u8],
) -> Result<u64, NeedError>
    requires { Asks file.now c table.now room.now × Keyed file.now code.now 0 × BlankRows c.functions offsets.old }
    ensures { AcceptedIs file.now room.now out.old (need_answer result) out.new }
{
    let n = c.functions;
    let mut own = [0u32; 129];
    let mut need = [0u32; 129];
    let mut frames = [0u32; 129];
    let mut marks = [0u8; 129];
    let mut waiting = [0u8; 256];
    let mut grounds = [0u16; 258];
    crate::calls::all(
        file,
        c,
        code,
        table,
        room,
        &mut own,
        offsets,
        &mut waiting,
        &mut grounds,
    );
    settle::settle(n, &own, offsets, &mut marks, &mut need, &mut frames);
    answer(n, &marks, &need, &frames, out)
}

// With a table of N words for the calls.
fn with_calls<const N: usize>(
    file: &[u8],
    c: Sections,
    code: &[u8],
    table: &[u16],
    room: &[u8],
    out: &mut [u8],
) -> Result<u64, NeedError>
    requires asks { Asks file.now c table.now room.now × Keyed file.now code.now 0 }
    requires size { (128 * suc c.functions ≤ N) × (N ≤ 16512) }
    ensures { AcceptedIs file.now room.now out.old (need_answer result) out.new }
{
    let mut offsets = [0u16; N];
    settled(file, c, code, table, room, &mut offsets, out)
}

// With a table of calls no larger than the functions ask.
pub fn accepted(
    file: &[u8],
    c: Sections,
    code: &[u8],
    table: &[u16],
    room: &[u8],
    out: &mut [u8],
) -> Result<u64, NeedError>
    requires { Asks file.now c table.now room.now × Keyed file.now code.now 0 }
    ensures { AcceptedIs file.now room.now out.old (need_answer result) out.new }
{
    if c.functions <= 6 {
        return with_calls::<896>(file, c, code, table, room, out);
    }
    with_calls::<16512>(file, c, code, table, room, out)
}
