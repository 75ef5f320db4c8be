// The heights of every body of an accepted module, and where its calls' first arguments lie.
ghost use Rattle.std.specs.Prelude.{◌≡◌};
ghost use Rattle.rules.specs.Tables.{body_of, body_start};
ghost use Rattle.rules.specs.ModuleFile.{refusal, bodies_in};
ghost use Rattle.format.specs.Layout.{Packed};
ghost use Rattle.soundness.specs.Readable.{Has};
ghost use Rattle.keys.specs.Keys.{Keyed};
ghost use Rattle.tracks.specs.Walks.{Ready};
ghost use Rattle.tracks.specs.Visits.{Shown};
ghost use Rattle.tracks.specs.Summing.{Fresh, Starts, Done};

use crate::walk::Spot;
use format::Sections;

const ENTRY: usize = 0xffff_ffff;

// The parameters of a body.
fn parameters(file: &[u8], c: Sections, owner: usize) -> usize
    requires { Packed file.now c × (refusal file.now ≡ 0) × Has (bodies_in file.now) (body_of owner) }
    ensures { Starts file.now (body_of owner) (body_start (bodies_in file.now) (body_of owner)) result }
{
    if owner == ENTRY {
        return 0;
    }
    let Some(f) = view::function(file, c, owner) else {
        return 0;
    };
    f.params
}

// One body: its largest height. Its calls are noted in the row.
pub fn body(
    file: &[u8],
    c: Sections,
    code: &[u8],
    table: &[u16],
    room: &[u8],
    owner: usize,
    row: &mut [u16],
    marks: &mut [u8],
    grounds: &mut [u16],
) -> usize
    requires ready { Ready file.now c table.now owner × Keyed file.now code.now 0 }
    requires shown { Shown file.now room.now × Fresh file.now (body_of owner) marks.old grounds.old row.old }
    ensures { Done file.now (body_of owner) marks.old marks.new grounds.new row.new result }
{
    let end = nodes::starts::end(file, c, owner);
    let start = nodes::starts::start(file, c, owner);
    let n = parameters(file, c, owner);
    if crate::walk::met(table, start, end) {
        crate::waits::arrive(nodes::table::node_at(table, start) - 1, n, marks, grounds);
        return crate::bodies::drain(file, c, code, table, owner, room, n, row, marks, grounds);
    }
    let s = Spot {
        at: start,
        locals: n,
        ground_level: n,
        height: n,
    };
    let most = crate::walk::walk(file, c, code, table, owner, s, n, row, marks, grounds);
    crate::bodies::drain(file, c, code, table, owner, room, most, row, marks, grounds)
}
