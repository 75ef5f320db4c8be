// What a pointer is to: a slot of the stack, or something in the heap.
ghost use Rattle.std.specs.Prelude.{List, ℕ, ◌+◌, ◌*◌, ◌≤◌, length};
ghost use Rattle.rules.specs.Tables.{Module};
ghost use Rattle.heap.specs.Targets.{Shapes};
ghost use Rattle.rules.specs.Stack.{slots_of};
ghost use Rattle.soundness.specs.Kinds.{Kind, Kinded};
ghost use Rattle.access.specs.Access.{HeapReady};
ghost use Rattle.access.specs.Targets.{Names, Leads, TopNames, Reaches, PutAt};

use crate::shelf::shelf;
use heap::Target;
use rules::{Exception, Slot};
use state::Registers;

pub(crate) const NULL: u64 = 0xffff_ffff_ffff_ffff;

// A slot; a whole structure of so many fields, in the heap; a number of a type, in a cell.
#[derive(Clone, Copy)]
pub(crate) enum Aim {
    Slot(usize),
    Whole(usize),
    Cell(u8, usize),
}

// Where a number stands. (No Result: neither place is a failure.)
#[derive(Clone, Copy)]
pub(crate) enum Spot {
    OnStack(usize),
    InHeap(usize),
}

// What the pointer w is to, n slots being left; or the exception that it raises.
pub(crate) fn target_of(
    d: &[u8],
    size: usize,
    g: &[u64],
    cells: &[u8],
    table: &[u8],
    n: usize,
    w: Slot,
) -> Result<Aim, Exception>
    requires { HeapReady size d.now g.now cells.now table.now × (n ≤ 4096) × Kind w.kind }
    ensures { (m : Module) → Shapes m d.now → (p t : List ℕ) → Leads m size d.now g.now p t cells.now table.now n w result }
{
    if w.kind < 7 {
        return Err(Exception::PointerNotPointer);
    }
    let a = w.payload;
    if a == NULL {
        return Err(Exception::PointerNullPointer);
    }
    if a < n as u64 {
        return Ok(Aim::Slot(a as usize));
    }
    if a < 65536 {
        return Err(Exception::PointerUnknownAddress);
    }
    match heap::targets::target(d, table, size, shelf(g), a) {
        Target::Lost => Err(Exception::PointerUnknownAddress),
        Target::Whole(f) => Ok(Aim::Whole(f)),
        Target::Cell(kind, x) => Ok(Aim::Cell(kind, x)),
    }
}

// The number that the pointer w is to, n slots being left.
pub(crate) fn number_of(
    d: &[u8],
    size: usize,
    g: &[u64],
    p: &[u8],
    t: &[u8],
    cells: &[u8],
    table: &[u8],
    n: usize,
    w: Slot,
) -> Result<(Spot, Slot), Exception>
    requires heap_ready { HeapReady size d.now g.now cells.now table.now × (n ≤ 4096) × Kind w.kind }
    requires n_in_bounds { (n * 8 ≤ length p.now) × (n ≤ length t.now) }
    ensures { (m : Module) → Shapes m d.now → Names m size d.now g.now p.now t.now cells.now table.now n w result }
{
    let aim = target_of(d, size, g, cells, table, n, w)?;
    match aim {
        Aim::Slot(i) => {
            let v = state::slot_at(p, t, i);
            Ok((Spot::OnStack(i), v))
        }
        Aim::Whole(_f) => Err(Exception::PointerWholeStructure),
        Aim::Cell(kind, c) => {
            let payload = heap::cells::cell_at(cells, c);
            Ok((Spot::InHeap(c), Slot { kind, payload }))
        }
    }
}

// The number that the pointer on top is to.
pub(crate) fn top_number(
    d: &[u8],
    size: usize,
    r: Registers,
    g: &[u64],
    p: &[u8],
    t: &[u8],
    cells: &[u8],
    table: &[u8],
) -> Result<(Spot, Slot), Exception>
    requires heap_ready { HeapReady size d.now g.now cells.now table.now × (r.height ≤ 4096) × Kinded (slots_of p.now t.now r.height) }
    requires height_in_bounds { (r.height * 8 ≤ length p.now) × (r.height ≤ length t.now) × (r.floor ≤ r.height) }
    ensures { (m : Module) → Shapes m d.now → TopNames m size d.now g.now p.now t.now cells.now table.now r.floor r.height result }
{
    let h = r.height;
    if h < r.floor + 1 {
        return Err(Exception::StackEmpty);
    }
    let w = state::slot_at(p, t, h - 1);
    number_of(d, size, g, p, t, cells, table, h - 1, w)
}

// A payload put there; the type stays.
pub(crate) fn put(x: Spot, v: u64, p: &mut [u8], cells: &mut [u8])
    requires { Reaches x p.old cells.old }
    ensures { PutAt x v p.old cells.old p.new cells.new }
{
    match x {
        Spot::OnStack(i) => memory::store64(p, i * 8, v),
        Spot::InHeap(c) => heap::cells::put_cell(cells, c, v),
    }
}
