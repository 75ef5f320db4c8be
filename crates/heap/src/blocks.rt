// Blocks: what `delete` and `new` do.
ghost use Rattle.std.specs.Prelude.{◌≡◌, ◌⊎◌, List, ℕ, ◌+◌, ◌*◌, ◌<◌, ◌≤◌, length};
ghost use Rattle.rules.specs.Heap.{having, without, empty_heap};
ghost use Rattle.heap.specs.Blocks.{entry_at, size_in, listed_as, bare, heap_of, Sane};
ghost use Rattle.heap.specs.Changes.{EntryPut, Makes, Removed, Given};
ghost use Rattle.rules.specs.Stack.{slots_of};
ghost use Rattle.heap.specs.Grants.{GrantsAt, Gives, source};

use crate::{Entry, Grant, Room, Shelf, cells, collect, entries, rooms};

// The lent bytes show an empty heap.
pub fn start(p: &mut [u8], t: &mut [u8], size: usize)
    requires { (size ≤ 4096) × (size * 8 ≤ length p.old) × (size * 24 ≤ length t.old) }
    ensures { (d : List ℕ) → Makes size bare d p.old t.old p.new t.new (empty_heap size) }
{
    cells::clear(p, 0, size);
    cells::clear(t, 0, size * 3);
}

// The entry of the block that `delete` of an address takes. (size and d are there to say what the heap is.)
pub fn given(d: &[u8], p: &[u8], t: &[u8], size: usize, k: Shelf, a: u64) -> Option<usize>
    requires { Sane size k d.now p.now t.now }
    ensures { Given (heap_of size k d.now p.now t.now) (entry_at t.now) k.count a result }
{
    if a % 65536 != 0 {
        return None;
    }
    let i = entries::find(t, k.count, k.next, a / 65536)?;
    let e = entries::entry_at(t, i);
    if 64 <= e.listed {
        return None;
    }
    Some(i)
}

// The block of entry i is freed.
pub fn remove(d: &[u8], p: &mut [u8], t: &mut [u8], size: usize, k: Shelf, i: usize) -> Shelf
    requires { Sane size k d.now p.old t.old × (i < k.count) }
    ensures { Makes size result d.now p.old t.old p.new t.new (having (heap_of size k d.now p.old t.old) (without (heap_of size k d.now p.old t.old).blocks (entry_at t.old i).serial)) × Removed k result t.old t.new i }
{
    let e = entries::entry_at(t, i);
    let n = entries::width(d, e.listed);
    let first = e.first as usize;
    let end = first + n;
    let last = k.count - 1;
    cells::clear(p, first, end);
    entries::close(t, i, last);
    Shelf {
        count: last,
        next: k.next,
        low: k.low.min(first),
        top: lowered(k.top, first, end),
    }
}

// top, where a block from first to end is gone.
fn lowered(top: usize, first: usize, end: usize) -> usize
    ensures { (result ≡ top) ⊎ ((result ≡ first) × (end ≡ top)) }
{
    if end == top {
        return first;
    }
    top
}

// A block of type n, of so many cells, in the lowest run that fits; for `gcnew` once dead blocks are freed, and the rest packed
// where there is none. sp and st are the stack's payloads and types, h its height.
pub fn new(
    d: &[u8],
    p: &mut [u8],
    t: &mut [u8],
    size: usize,
    k: Shelf,
    managed: bool,
    n: u64,
    cells: usize,
    sp: &[u8],
    st: &[u8],
    h: usize,
) -> Grant
    requires sane { Sane size k d.now p.old t.old × (1 ≤ cells) × (cells < 256) × (cells ≡ size_in d.now n) }
    requires h_in_bounds { (h * 8 ≤ length sp.now) × (h ≤ length st.now) }
    ensures { Gives size d.now p.old t.old p.new t.new (source managed cells (slots_of sp.now st.now h) (heap_of size k d.now p.old t.old)) managed n result }
{
    let q = collect::freed(managed, d, p, t, size, k, sp, st, h);
    let Some(room) = rooms::place(d, t, size, q, cells) else {
        return collect::squeezed(managed, d, p, t, size, q, n, cells);
    };
    grant(t, q, room, managed, n)
}

// The block in this room, unless serials have run out.
pub fn grant(t: &mut [u8], k: Shelf, room: Room, managed: bool, n: u64) -> Grant
    requires { (k.count * 24 + 24 ≤ length t.old) × (n < 64) }
    ensures { GrantsAt k room t.old t.new managed n result }
{
    if 281474976710655 <= k.next {
        return null_grant(k);
    }
    let shelf = give(t, k, room, listed(managed, n));
    Grant {
        address: k.next * 65536,
        shelf,
    }
}

pub fn null_grant(k: Shelf) -> Grant
    ensures { result ≡ record { address = 18446744073709551615; shelf = k } }
{
    Grant {
        address: 18446744073709551615,
        shelf: k,
    }
}

// A type number as the table lists it.
fn listed(managed: bool, n: u64) -> u64
    requires { n < 64 }
    ensures { result ≡ listed_as managed n }
{
    if managed {
        return 64 + n;
    }
    n
}

// The entry of a block in this room.
fn give(t: &mut [u8], k: Shelf, room: Room, listed: u64) -> Shelf
    requires { (k.count * 24 + 24 ≤ length t.old) × (k.next < 281474976710655) }
    ensures { EntryPut t.new t.old k.count (record { serial = k.next; first = room.first; listed = listed }) × (result ≡ record { count = k.count + 1; next = k.next + 1; low = room.low; top = room.top }) }
{
    let at = k.count;
    let next = k.next;
    entries::put_entry(
        t,
        at,
        Entry {
            serial: next,
            first: room.first as u64,
            listed,
        },
    );
    Shelf {
        count: at + 1,
        next: next + 1,
        low: room.low,
        top: room.top,
    }
}
