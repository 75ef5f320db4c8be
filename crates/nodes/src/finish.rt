// The last pass: every label gets the record of the first label at its place.
ghost use Rattle.std.specs.Prelude.{◌≡◌, ◌+◌, ◌*◌, ◌≤◌, ◌<◌, length, get_or};
ghost use Rattle.std.proofs.Math.Seq.{paste};
ghost use Rattle.rules.specs.ModuleFile.{labels, refusal};
ghost use Rattle.format.specs.Layout.{Packed};
ghost use Rattle.nodes.specs.Nodes.{Whole, Tabled, Fits, shown_at, Finished};

use format::Sections;

// Label i gets the record of node k, or zeros where nothing has flowed to it.
fn settle(room: &mut [u8], marks: &[u16], st: &mut [u8], i: usize, k: usize)
    requires { (64 * i + 64 ≤ length room.old) × (k ≤ i) × (k < 256) × Whole marks.now × (length st.old ≡ 64) }
    ensures { room.new ≡ paste room.old (64 * i) (shown_at room.old marks.now k) 64 }
{
    let mark = marks[k];
    if mark == 0 {
        crate::room::zero(room, 64 * i, 64);
        return;
    }
    if k == i {
        return;
    }
    crate::room::load(room, 64 * k, st);
    crate::room::save(room, 64 * i, st);
}

// Labels go from the last to the first, so that a node's own record is the last to be written of those at its place.
pub fn finish(
    file: &[u8],
    c: Sections,
    table: &[u16],
    room: &mut [u8],
    marks: &[u16],
    st: &mut [u8],
)
    requires packed { Packed file.now c × (refusal file.now ≡ 0) × Tabled file.now table.now }
    requires fits { Fits (labels file.now) room.old marks.now × (length st.old ≡ 64) }
    ensures { Finished file.now table.now marks.now 0 room.old room.new }
{
    for i in (0..c.labels).rev() {
        let p = crate::table::place_of(file, c, i);
        let v = crate::table::node_at(table, p);
        settle(room, marks, st, i, v - 1);
    }
}
