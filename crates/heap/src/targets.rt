// What an address of the heap is to.
ghost use Rattle.std.specs.Prelude.{List, ℕ, ◌≤◌};
ghost use Rattle.rules.specs.declared.Slot.{Slot};
ghost use Rattle.rules.specs.Tables.{Module};
ghost use Rattle.rules.specs.Heap.{target_of};
ghost use Rattle.heap.specs.Blocks.{heap_of, Sane};
ghost use Rattle.heap.specs.Targets.{Shapes, Plain, Aims};

use crate::{Shelf, Target, entries};

pub fn target(d: &[u8], t: &[u8], size: usize, k: Shelf, a: u64) -> Target
    requires { ((p : List ℕ) × Sane size k d.now p t.now) × Plain d.now × (65536 ≤ a) }
    ensures { (p : List ℕ) → Sane size k d.now p t.now → (m : Module) → Shapes m d.now → (st : List Slot) → Aims (target_of m (heap_of size k d.now p t.now) st a) d.now p t.now k.count a result }
{
    let Some(i) = entries::find(t, k.count, k.next, a / 65536) else {
        return Target::Lost;
    };
    let e = entries::entry_at(t, i);
    let n = (e.listed % 64) as usize;
    let o = (a % 65536) as usize;
    let first = e.first as usize;
    if n < 10 {
        if o == 0 {
            return Target::Cell(n as u8, first);
        }
        return Target::Lost;
    }
    let at = 12 * (n - 10);
    let count = memory::load8_padded(d, at) as usize;
    if o == 0 {
        return Target::Whole(count);
    }
    if count < o {
        return Target::Lost;
    }
    let kind = memory::load8_padded(d, at + o);
    Target::Cell(kind, first + (o - 1))
}
