// The heights of all bodies, and the table of their calls.
ghost use Rattle.std.specs.Prelude.{◌≡◌, ◌+◌, ◌*◌, ◌≤◌, length, get_or, take, drop};
ghost use Rattle.settle.specs.Graph.{TableOf};
ghost use Rattle.rules.specs.ModuleFile.{read};
ghost use Rattle.rules.specs.Tables.{body_of};
ghost use Rattle.keys.specs.Keys.{Keyed};
ghost use Rattle.tracks.specs.Walks.{Ready};
ghost use Rattle.tracks.specs.Visits.{Shown};
ghost use Rattle.tracks.specs.Summing.{Fresh};
ghost use Rattle.reporter.specs.Rows.{RowIs, Asks, Filled};

use format::Sections;

// Row i of the table, of this owner's body: the body's largest height.
fn row(
    file: &[u8],
    c: Sections,
    code: &[u8],
    table: &[u16],
    room: &[u8],
    owner: usize,
    i: usize,
    offsets: &mut [u16],
    marks: &mut [u8],
    grounds: &mut [u16],
) -> usize
    requires ready { Ready file.now c table.now owner × Keyed file.now code.now 0 }
    requires i_bound { (i ≤ 128) × (128 * i + 128 ≤ length offsets.old) }
    requires shown { Shown file.now room.now × Fresh file.now (body_of owner) marks.old grounds.old (take 128 (drop (128 * i) offsets.old)) }
    ensures { RowIs file.now (body_of owner) i offsets.old marks.old offsets.new marks.new grounds.new result }
{
    let from = 128 * i;
    let to = from + 128;
    climb::heights::body(
        file,
        c,
        code,
        table,
        room,
        owner,
        &mut offsets[from..to],
        marks,
        grounds,
    )
}

// All bodies: row 0 is the entry's, row 1 + k function k's. The marks, the grounds and the table are blank.
pub fn all(
    file: &[u8],
    c: Sections,
    code: &[u8],
    table: &[u16],
    room: &[u8],
    own: &mut [u32],
    offsets: &mut [u16],
    marks: &mut [u8],
    grounds: &mut [u16],
)
    requires asks { Asks file.now c table.now room.now × Keyed file.now code.now 0 }
    requires filled { Filled file.now c.functions 0 own.old offsets.old marks.old grounds.old }
    ensures { TableOf (read file.now) c.functions own.new offsets.new }
{
    // Count and owner go up together, the entry first: a `for` over either would have to make the other of it by a test.
    let n = c.functions;
    let mut owner = 0xffff_ffff;
    let mut i = 0;
    loop {
        let most = row(
            file, c, code, table, room, owner, i, offsets, marks, grounds,
        );
        own[i] = most as u32;
        if i == n {
            return;
        }
        owner = i;
        i += 1;
    }
}
