// Where walks start: the labelled places and the starts of bodies, with their records.
#![tactic(auto)]

pub mod finish;
pub mod list;
pub mod room;
pub mod starts;
pub mod table;

ghost use Rattle.std.specs.Prelude.{◌+◌, ◌*◌, ◌<◌, ◌≤◌, ◌≡◌, length};
ghost use Rattle.nodes.specs.Nodes.{Whole, mark_of, count_of, Merged};

// A record flows to node k. The first one is kept, and the node waits for a walk; a later one must be the same.
pub fn merge(k: usize, room: &mut [u8], marks: &mut [u16], st: &[u8]) -> bool
    requires k_in_bounds { (64 * k + 64 ≤ length room.old) × (k < 256) × (length st.now ≡ 64) }
    requires whole { Whole marks.old × (mark_of marks.old k ≡ 0 → count_of marks.old < 256) }
    ensures { Merged k st.now room.old marks.old room.new marks.new result }
{
    let mark = marks[k];
    if mark == 0 {
        room::save(room, 64 * k, st);
        list::append(marks, k);
        return true;
    }
    room::is_same(room, 64 * k, st)
}
