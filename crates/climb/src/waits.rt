// The nodes that flow has come to: the largest ground_level that came, and which of them wait for a walk.
// A node's mark is 0 where nothing has come, 1 where it waits, 2 where it was walked from. Words 256 and 257 of the grounds say between which nodes all lie that
// wait.
ghost use Rattle.std.specs.Prelude.{◌≡◌, ℕ, ◌+◌, ◌*◌, ◌<◌, ◌≤◌, min, max, length, set};
ghost use Rattle.tracks.specs.Walks.{mark_of, Arrived};
ghost use Rattle.climb.specs.Waits.{Sizes, spread_to, FirstIs, LastIs, Bounded, Roomy, Narrowed, PickedIs};

// Node k waits too.
fn spread(k: usize, grounds: &mut [u16])
    requires { (k < 256) × (length grounds.old ≡ 258) }
    ensures { grounds.new ≡ spread_to k grounds.old }
{
    let low = usize::from(grounds[256]).min(k);
    let high = usize::from(grounds[257]).max(k + 1);
    grounds[256] = low as u16;
    grounds[257] = high as u16;
}

// Node k waits with this ground_level.
fn wait(k: usize, ground_level: usize, marks: &mut [u8], grounds: &mut [u16])
    requires { (k < 256) × (ground_level ≤ 512) × Sizes marks.old grounds.old }
    ensures { (marks.new ≡ set marks.old k 1) × (grounds.new ≡ spread_to k (set grounds.old k ground_level)) }
{
    grounds[k] = ground_level as u16;
    marks[k] = 1;
    spread(k, grounds);
}

// Flow comes to node k with this ground_level. The largest is kept; where it is larger, the node waits.
pub fn arrive(k: usize, ground_level: usize, marks: &mut [u8], grounds: &mut [u16])
    requires { (k < 256) × (ground_level ≤ 512) × Sizes marks.old grounds.old }
    ensures { Arrived k ground_level marks.old grounds.old marks.new grounds.new }
{
    let mark = marks[k];
    if mark == 0 {
        wait(k, ground_level, marks, grounds);
        return;
    }
    if ground_level <= usize::from(grounds[k]) {
        return;
    }
    if mark == 1 {
        grounds[k] = ground_level as u16;
        return;
    }
    wait(k, ground_level, marks, grounds);
}

// The order of walks: of two nodes the one with fewer locals comes first, and where they have as many, the one with more ground_level. So no node is walked
// from twice.
pub fn key(room: &[u8], grounds: &[u16], k: usize) -> usize
    requires { (k < 256) × (64 * k + 64 ≤ length room.now) × (length grounds.now ≡ 258) }
{
    65536 * (255 - usize::from(room[64 * k + 1])) + usize::from(grounds[k])
}

// The first node from `low` on that waits, or `high`.
fn first(marks: &[u8], low: usize, high: usize) -> usize
    requires { (high ≤ 256) × (length marks.now ≡ 256) }
    ensures { FirstIs marks.now low high result }
{
    for i in low..high {
        if marks[i] == 1 {
            return i;
        }
    }
    low.max(high)
}

// One more than the last node below `high` that waits, where `low` does.
fn last(marks: &[u8], low: usize, high: usize) -> usize
    requires { (low < high) × (high ≤ 256) × (length marks.now ≡ 256) × (mark_of marks.now low ≡ 1) }
    ensures { LastIs marks.now low high result }
{
    for i in (low + 1..high).rev() {
        if marks[i] == 1 {
            return i + 1;
        }
    }
    low + 1
}

// Of node i, if it waits, and of the best before it, the first in order.
fn better(room: &[u8], marks: &[u8], grounds: &[u16], found: usize, i: usize) -> usize
    requires { (found < 256) × (i < 256) × Sizes marks.now grounds.now × Roomy room.now marks.now × (mark_of marks.now found ≡ 1) }
    ensures { (mark_of marks.now result ≡ 1) × (result < 256) }
{
    if marks[i] != 1 {
        return found;
    }
    if key(room, grounds, i) <= key(room, grounds, found) {
        return found;
    }
    i
}

// Of those that wait from `low` up to `high`, as `low` does, the first in order. None comes before the one whose key is `before`.
fn best(room: &[u8], marks: &[u8], grounds: &[u16], low: usize, high: usize, before: usize) -> usize
    requires { (low < high) × (high ≤ 256) × Sizes marks.now grounds.now × Roomy room.now marks.now × (mark_of marks.now low ≡ 1) }
    ensures { (mark_of marks.now result ≡ 1) × (result < 256) }
{
    let mut found = low;
    for i in low + 1..high {
        if key(room, grounds, found) == before {
            return found;
        }
        found = better(room, marks, grounds, found, i);
    }
    found
}

// The node to walk from next, where one waits.
pub fn pick(room: &[u8], marks: &[u8], grounds: &mut [u16], before: usize) -> Option<usize>
    requires { Sizes marks.now grounds.old × Roomy room.now marks.now × Bounded marks.now grounds.old }
    ensures narrowed { Narrowed marks.now grounds.old grounds.new }
    ensures picked_is { PickedIs marks.now result }
{
    let to = usize::from(grounds[257]);
    let low = first(marks, usize::from(grounds[256]), to);
    if to <= low {
        return None;
    }
    let high = last(marks, low, to);
    grounds[256] = low as u16;
    grounds[257] = high as u16;
    Some(best(room, marks, grounds, low, high, before))
}
