// A body: walked from its start, then from every node that waits.
ghost use Rattle.std.specs.Prelude.{◌≡◌, ℕ, ◌<◌};
ghost use Rattle.rules.specs.Tables.{body_of};
ghost use Rattle.keys.specs.Keys.{Keyed};
ghost use Rattle.tracks.specs.Walks.{mark_of, Ready, Climbing};
ghost use Rattle.tracks.specs.Visits.{Shown, Visited, Drained, Quiet};

use crate::walk::Spot;
use format::Sections;

// Walks from node k, which waits. If no more ground_level came to it meanwhile, it was walked from.
fn visit(
    file: &[u8],
    c: Sections,
    code: &[u8],
    table: &[u16],
    owner: usize,
    room: &[u8],
    k: usize,
    most: usize,
    row: &mut [u16],
    marks: &mut [u8],
    grounds: &mut [u16],
) -> usize
    requires ready { Ready file.now c table.now owner × Keyed file.now code.now 0 }
    requires climbing { Climbing file.now table.now (body_of owner) marks.old grounds.old row.old most }
    requires shown { Shown file.now room.now × (mark_of marks.old k ≡ 1) × (k < 256) }
    ensures { Visited file.now table.now (body_of owner) marks.old grounds.old row.old most marks.new grounds.new row.new result }
{
    let ground_level = usize::from(grounds[k]);
    let s = Spot {
        at: nodes::table::place_of(file, c, k),
        locals: usize::from(room[64 * k + 1]),
        ground_level,
        height: ground_level + usize::from(room[64 * k + 2]),
    };
    let r = crate::walk::walk(file, c, code, table, owner, s, most, row, marks, grounds);
    if usize::from(grounds[k]) == ground_level {
        marks[k] = 2;
        return r;
    }
    r
}

// Walks from nodes that wait until none does.
pub fn drain(
    file: &[u8],
    c: Sections,
    code: &[u8],
    table: &[u16],
    owner: usize,
    room: &[u8],
    from: usize,
    row: &mut [u16],
    marks: &mut [u8],
    grounds: &mut [u16],
) -> usize
    requires ready { Ready file.now c table.now owner × Keyed file.now code.now 0 }
    requires climbing { Climbing file.now table.now (body_of owner) marks.old grounds.old row.old from }
    requires shown { Shown file.now room.now }
    ensures drained { Drained file.now table.now (body_of owner) marks.old grounds.old row.old from marks.new grounds.new row.new result }
    ensures quiet { Quiet marks.new }
{
    let mut most = from;
    let mut last = 0;
    loop {
        let Some(k) = crate::waits::pick(room, marks, grounds, last) else {
            return most;
        };
        last = crate::waits::key(room, grounds, k);
        most = visit(
            file, c, code, table, owner, room, k, most, row, marks, grounds,
        );
    }
}
