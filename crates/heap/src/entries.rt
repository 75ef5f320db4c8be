// The table of blocks: an entry read and written, the cells of a type, the entry of a serial, an entry taken out.
ghost use Rattle.std.specs.Prelude.{◌≡◌, ◌+◌, ◌*◌, ◌<◌, ◌≤◌, length};
ghost use Rattle.heap.specs.Blocks.{entry_at, size_in, width_in, Rising, Finds};
ghost use Rattle.heap.specs.Changes.{EntryPut, Closed};

use crate::Entry;

pub fn entry_at(t: &[u8], i: usize) -> Entry
    requires { i * 24 + 24 ≤ length t.now }
    ensures { result ≡ entry_at t.now i }
{
    let serial = memory::load64(t, i * 24);
    let first = memory::load64(t, i * 24 + 8);
    let listed = memory::load64(t, i * 24 + 16);
    Entry {
        serial,
        first,
        listed,
    }
}

pub fn put_entry(t: &mut [u8], i: usize, e: Entry)
    requires { i * 24 + 24 ≤ length t.old }
    ensures { EntryPut t.new t.old i e }
{
    memory::store64(t, i * 24, e.serial);
    memory::store64(t, i * 24 + 8, e.first);
    memory::store64(t, i * 24 + 16, e.listed);
}

// The cells of a block of a listed type, 0 where there is no such type; d holds the module's structure records.
pub fn width(d: &[u8], listed: u64) -> usize
    ensures { (result ≡ width_in d.now listed) × (result < 256) }
{
    size_of(d, listed % 64)
}

// The same of a type number.
#[tactic(auto, unfolding(crate::specs::Blocks::size_in, crate::specs::Blocks::fields_in))]
pub fn size_of(d: &[u8], n: u64) -> usize
    ensures { (result ≡ size_in d.now n) × (result < 256) }
{
    // One by one: of these tests the compiler makes one of a bit, of a match on the three it does not.
    if n == 3 {
        return 1;
    }
    if n == 4 {
        return 1;
    }
    if n == 6 {
        return 1;
    }
    match n {
        10..=25 => usize::from(memory::load8_padded(d, 12 * (n as usize - 10))),
        _ => 0,
    }
}

// The entry of serial s. Serials are all different, so it stands below s, and fewer than next - s entries stand above it:
// where nothing was freed, one look finds it.
pub fn find(t: &[u8], count: usize, next: u64, s: u64) -> Option<usize>
    requires { (count * 24 ≤ length t.now) × Rising (entry_at t.now) count next }
    ensures { Finds (entry_at t.now) count s result }
{
    if next <= s {
        return None;
    }
    let mut lo = (count as u64).saturating_sub(next - s) as usize;
    let mut hi = (count as u64).min(s) as usize;
    // By hand: the entries lie as bytes in lent memory, and the library searches slices of values.
    while lo < hi {
        let mid = lo + (hi - lo) / 2;
        let x = memory::load64(t, mid * 24);
        if x == s {
            return Some(mid);
        }
        if x < s {
            lo = mid + 1;
        } else {
            hi = mid;
        }
    }
    None
}

// Entry i is taken out; last is the number of the last one.
pub fn close(t: &mut [u8], i: usize, last: usize)
    requires { (i ≤ last) × (last * 24 + 24 ≤ length t.old) }
    ensures { Closed t.new t.old i last }
{
    for j in i..last {
        let e = entry_at(t, j + 1);
        put_entry(t, j, e);
    }
    put_entry(
        t,
        last,
        Entry {
            serial: 0,
            first: 0,
            listed: 0,
        },
    );
}
