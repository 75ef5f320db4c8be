// The checker: whether every body of a module has a consistent typing, and what it gives at the labels.
#![tactic(auto)]

pub mod bodies;
pub mod walk;

ghost use Rattle.std.specs.Prelude.{◌≡◌, ◌*◌, ◌≤◌, ◌<◌, length};
ghost use Rattle.rules.specs.ModuleFile.{edition, refusal};
ghost use Rattle.rules.specs.Results.{check_answer};
ghost use Rattle.format.specs.Layout.{Packed};
ghost use Rattle.reader.specs.Cut.{Blank};
ghost use Rattle.keys.specs.Keys.{Keyed};
ghost use Rattle.nodes.specs.Nodes.{Tabled};
ghost use Rattle.checker.specs.Work.{CheckIs, Exactly};

use format::Sections;
use rules::{CheckError, Refusal};

// With a blank table for the places, which holds the nodes afterwards, and the code in keys.
pub fn check_with(
    file: &[u8],
    c: Sections,
    code: &[u8],
    table: &mut [u16],
    room: &mut [u8],
) -> Result<(), CheckError>
    requires packed { Packed file.now c × (refusal file.now ≡ 0) × (64 * c.labels ≤ length room.old) }
    requires extent_in_bounds { (c.extent < length table.old) × Blank table.old }
    requires keyed { Keyed file.now code.now 0 }
    ensures check_is { CheckIs file.now room.old (check_answer result) room.new }
    ensures tabled { Tabled file.now table.new }
{
    nodes::table::fill(file, c, table);
    let mut marks = [0u16; 514];
    let mut st = [0u8; 64];
    let verdict = bodies::bodies(file, c, code, table, room, &mut marks, &mut st);
    match verdict {
        Ok(()) => {
            nodes::finish::finish(file, c, table, room, &marks, &mut st);
            Ok(())
        }
        Err(owner) => {
            nodes::room::zero(room, 0, 64 * c.labels);
            Err(CheckError::Untyped(owner as u32))
        }
    }
}

// With a table of N places.
fn with_table<const N: usize>(
    file: &[u8],
    c: Sections,
    code: &[u8],
    room: &mut [u8],
) -> Result<(), CheckError>
    requires packed { Packed file.now c × (refusal file.now ≡ 0) × (64 * c.labels ≤ length room.old) × (c.extent < N) }
    requires size { N ≤ 16385 }
    requires keyed { Keyed file.now code.now 0 }
    ensures { CheckIs file.now room.old (check_answer result) room.new }
{
    let mut table = [0u16; N];
    check_with(file, c, code, &mut table, room)
}

// The same where the code, of at most M bytes, is edition 1's: it is put in keys first.
fn old_with_table<const M: usize, const N: usize>(
    file: &[u8],
    c: Sections,
    room: &mut [u8],
) -> Result<(), CheckError>
    requires packed { Packed file.now c × (refusal file.now ≡ 0) × (64 * c.labels ≤ length room.old) × (c.extent ≤ M) × (c.extent < N) }
    requires sizes { (M ≤ 16384) × (N ≤ 16385) }
    requires file_value { edition file.now ≡ 1 }
    ensures { CheckIs file.now room.old (check_answer result) room.new }
{
    let mut own = [0u8; M];
    let from = c.code;
    keys::edition1::translate(&file[from..], &mut own);
    with_table::<N>(file, c, &own, room)
}

// The check of a module that can be read, with a table no larger than the code asks.
fn check_opened(file: &[u8], c: Sections, room: &mut [u8]) -> Result<(), CheckError>
    requires { Packed file.now c × (refusal file.now ≡ 0) }
    ensures { CheckIs file.now room.old (check_answer result) room.new }
{
    if room.len() < 64 * c.labels {
        return Err(CheckError::Refused(Refusal::RoomTooShort));
    }
    let edition = format::word(file, 0);
    if edition == 1 {
        if c.extent < 512 {
            return old_with_table::<512, 512>(file, c, room);
        }
        return old_with_table::<16384, 16385>(file, c, room);
    }
    let from = c.code;
    let code = &file[from..];
    if c.extent < 512 {
        return with_table::<512>(file, c, code, room);
    }
    if c.extent < 4096 {
        return with_table::<4096>(file, c, code, room);
    }
    with_table::<16385>(file, c, code, room)
}

// The check of any bytes in any room: 1 to 9 where they can't be read, 10 where the room is too short, 11 with the first body
// without typing, or 0.
pub fn check(file: &[u8], room: &mut [u8]) -> Result<(), CheckError>
    ensures check_is { CheckIs file.now room.old (check_answer result) room.new }
    ensures exactly { Exactly file.now room.old (check_answer result) }
{
    let c = reader::open(file)?;
    check_opened(file, c, room)
}
