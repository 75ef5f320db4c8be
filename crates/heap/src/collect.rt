// What `gcnew` does before it does as `new`. The serials that type 8 slots hold are looked up once each, and their entries marked;
// managed blocks whose entry is not marked are freed, the last first.
ghost use Rattle.std.specs.Prelude.{◌≡◌, true, List, ℕ, ◌+◌, ◌*◌, ◌<◌, ◌≤◌, length, get_or, None};
ghost use Rattle.rules.specs.Stack.{slots_of};
ghost use Rattle.rules.specs.Heap.{having, swept};
ghost use Rattle.heap.specs.Blocks.{entry_at, size_in, heap_of, Rising, Sane};
ghost use Rattle.heap.specs.Changes.{Makes};
ghost use Rattle.heap.specs.Holds.{Noted, Holding};
ghost use Rattle.heap.specs.Rooms.{Finds};
ghost use Rattle.heap.specs.Grants.{swept_for, packed_for, Gives};

use crate::{Grant, Room, Shelf, blocks, entries, pack};

// The heap without its dead blocks, for `gcnew`; sp and st are the stack's payloads and types, h its height.
pub fn freed(
    managed: bool,
    d: &[u8],
    p: &mut [u8],
    t: &mut [u8],
    size: usize,
    k: Shelf,
    sp: &[u8],
    st: &[u8],
    h: usize,
) -> Shelf
    requires { Sane size k d.now p.old t.old × (h * 8 ≤ length sp.now) × (h ≤ length st.now) }
    ensures { Makes size result d.now p.old t.old p.new t.new (swept_for managed (slots_of sp.now st.now h) (heap_of size k d.now p.old t.old)) }
{
    if managed {
        return sweep(d, p, t, size, k, sp, st, h);
    }
    k
}

// Where there is no run: for `gcnew` the heap is packed first.
pub fn squeezed(
    managed: bool,
    d: &[u8],
    p: &mut [u8],
    t: &mut [u8],
    size: usize,
    k: Shelf,
    n: u64,
    cells: usize,
) -> Grant
    requires sane { Sane size k d.now p.old t.old × Finds size k d.now p.old t.old cells None }
    requires le_cells { (1 ≤ cells) × (cells < 256) × (cells ≡ size_in d.now n) }
    ensures { Gives size d.now p.old t.old p.new t.new (packed_for managed (heap_of size k d.now p.old t.old)) managed n result }
{
    if managed {
        let q = pack::pack(d, p, t, size, k);
        let top = q.top;
        if size < top + cells {
            return blocks::null_grant(q);
        }
        let room = Room {
            first: top,
            low: top + cells,
            top: top + cells,
        };
        return blocks::grant(t, q, room, true, n);
    }
    blocks::null_grant(k)
}

// Frees the dead, by way of marks for the entries: 64 of them where these are enough.
fn sweep(
    d: &[u8],
    p: &mut [u8],
    t: &mut [u8],
    size: usize,
    k: Shelf,
    sp: &[u8],
    st: &[u8],
    h: usize,
) -> Shelf
    requires { Sane size k d.now p.old t.old × (h * 8 ≤ length sp.now) × (h ≤ length st.now) }
    ensures { Makes size result d.now p.old t.old p.new t.new (swept_for true (slots_of sp.now st.now h) (heap_of size k d.now p.old t.old)) }
{
    if k.count <= 64 {
        return sweep_in::<64>(d, p, t, size, k, sp, st, h);
    }
    sweep_in::<4096>(d, p, t, size, k, sp, st, h)
}

// The same by way of N marks.
fn sweep_in<const N: usize>(
    d: &[u8],
    p: &mut [u8],
    t: &mut [u8],
    size: usize,
    k: Shelf,
    sp: &[u8],
    st: &[u8],
    h: usize,
) -> Shelf
    requires sane { Sane size k d.now p.old t.old × (h * 8 ≤ length sp.now) × (h ≤ length st.now) }
    requires count_in_bounds { (k.count ≤ N) × (N ≤ 4096) }
    ensures { Makes size result d.now p.old t.old p.new t.new (swept_for true (slots_of sp.now st.now h) (heap_of size k d.now p.old t.old)) }
{
    let mut u = [0u8; N];
    hold(t, k.count, k.next, sp, st, h, &mut u);
    free_dead(d, p, t, size, k, sp, st, h, &u)
}

fn hold(t: &[u8], count: usize, next: u64, sp: &[u8], st: &[u8], h: usize, u: &mut [u8])
    requires count_in_bounds { (count * 24 ≤ length t.now) × (count ≤ 4096) × Rising (entry_at t.now) count next × (h * 8 ≤ length sp.now) × (h ≤ length st.now) }
    requires count_in_bounds_2 { (count ≤ length u.old) × ((x : ℕ) → get_or u.old x 0 ≡ 0) }
    ensures { Holding u.new (entry_at t.now) count (slots_of sp.now st.now h) }
{
    for i in 0..h {
        if st[i] == 8 {
            let payload = memory::load64(sp, i * 8);
            note(t, count, next, payload / 65536, u);
        }
    }
}

// Marks the entry of serial s.
fn note(t: &[u8], count: usize, next: u64, s: u64, u: &mut [u8])
    requires { (count * 24 ≤ length t.now) × (count ≤ 4096) × Rising (entry_at t.now) count next × (count ≤ length u.old) }
    ensures { Noted u.new u.old (entry_at t.now) count s }
{
    if let Some(j) = entries::find(t, count, next, s) {
        u[j] = 1;
    }
}

// (The stack is there to say which entries u marks.)
fn free_dead(
    d: &[u8],
    p: &mut [u8],
    t: &mut [u8],
    size: usize,
    k: Shelf,
    sp: &[u8],
    st: &[u8],
    h: usize,
    u: &[u8],
) -> Shelf
    requires { Sane size k d.now p.old t.old × Holding u.now (entry_at t.old) k.count (slots_of sp.now st.now h) }
    ensures { Makes size result d.now p.old t.old p.new t.new (having (heap_of size k d.now p.old t.old) (swept (slots_of sp.now st.now h) (heap_of size k d.now p.old t.old).blocks)) }
{
    let mut q = k;
    for j in (0..k.count).rev() {
        let e = entries::entry_at(t, j);
        if 64 <= e.listed && u[j] == 0 {
            q = blocks::remove(d, p, t, size, q, j);
        }
    }
    q
}
