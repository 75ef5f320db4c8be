// `null`, `new`, `delete`, `flea`, `gcnull`, `gcnew`.
ghost use Rattle.std.specs.Prelude.{◌≡◌, ◌+◌, ◌<◌, ◌≤◌, length};
ghost use Rattle.rules.specs.Bytes.{word};
ghost use Rattle.rules.specs.Instructions.{ptr_kind};
ghost use Rattle.rules.specs.Tables.{Module};
ghost use Rattle.rules.specs.Stack.{slots_of};
ghost use Rattle.rules.specs.Machine.{exec_in};
ghost use Rattle.rules.specs.declared.Instruction.TheVariants.{Null, New, Delete, Flea};
ghost use Rattle.soundness.specs.Kinds.{Kinded};
ghost use Rattle.state.specs.State.{ReadyOn};
ghost use Rattle.heap.specs.Targets.{Shapes};
ghost use Rattle.access.specs.Access.{HeapReady, AccessIs, ActsOver};

use crate::shelf::{keep, shelf};
use crate::targets::{Aim, NULL, target_of};
use rules::{Exception, Slot};
use state::{Progress, Registers};

// The type number of a pointer.
fn kind_of(managed: bool) -> u8
    ensures { result ≡ ptr_kind managed }
{
    if managed {
        return 8;
    }
    7
}

// `null`, or `gcnull`.
pub fn null(managed: bool, cap: usize, r: Registers, p: &mut [u8], t: &mut [u8]) -> Progress
    requires { ReadyOn cap r p.old t.old × (r.place < r.stop) }
    ensures { (m : Module) → ActsOver cap r result p.old t.old p.new t.new (exec_in m cap (Null managed)) }
{
    let h = r.height;
    if cap <= h {
        return Progress::Stops(Exception::StackOverflow);
    }
    let v = Slot {
        kind: kind_of(managed),
        payload: NULL,
    };
    state::put_slot(p, t, h, v);
    Progress::Goes(state::moved(r, r.place + 1, h + 1))
}

// `new`, or `gcnew`. An unknown type, or a full stack, leaves the heap as it was.
pub fn new(
    managed: bool,
    d: &[u8],
    code: &[u8],
    cap: usize,
    size: usize,
    r: Registers,
    g: &mut [u64],
    p: &mut [u8],
    t: &mut [u8],
    cells: &mut [u8],
    table: &mut [u8],
) -> Progress
    requires heap_ready { HeapReady size d.now g.old cells.old table.old }
    requires ready_on { ReadyOn cap r p.old t.old × (r.place < r.stop) × (r.place + 5 ≤ length code.now) }
    ensures { (m : Module) → Shapes m d.now → AccessIs m (New managed (word 4 code.now (r.place + 1))) cap size r result d.now p.old t.old g.old cells.old table.old p.new t.new g.new cells.new table.new }
{
    let h = r.height;
    let n = keys::operand(code, r.place) as u64;
    let width = heap::entries::size_of(d, n);
    if width == 0 {
        return Progress::Stops(Exception::TypeOutOfRange);
    }
    if cap <= h {
        return Progress::Stops(Exception::StackOverflow);
    }
    let grant = heap::blocks::new(d, cells, table, size, shelf(g), managed, n, width, p, t, h);
    keep(g, grant.shelf);
    let v = Slot {
        kind: kind_of(managed),
        payload: grant.address,
    };
    state::put_slot(p, t, h, v);
    Progress::Goes(state::moved(r, r.place + 5, h + 1))
}

// `delete`.
pub fn delete(
    d: &[u8],
    cap: usize,
    size: usize,
    r: Registers,
    g: &mut [u64],
    p: &[u8],
    t: &[u8],
    cells: &mut [u8],
    table: &mut [u8],
) -> Progress
    requires heap_ready { HeapReady size d.now g.old cells.old table.old }
    requires ready_on { ReadyOn cap r p.now t.now × (r.place < r.stop) }
    ensures { (m : Module) → AccessIs m Delete cap size r result d.now p.now t.now g.old cells.old table.old p.now t.now g.new cells.new table.new }
{
    let h = r.height;
    if h < r.floor + 1 {
        return Progress::Stops(Exception::StackEmpty);
    }
    let w = state::slot_at(p, t, h - 1);
    if w.kind != 7 {
        return Progress::Stops(Exception::PointerNotPointer);
    }
    let gone = state::moved(r, r.place + 1, h - 1);
    if w.payload == NULL {
        return Progress::Goes(gone);
    }
    let k = shelf(g);
    let Some(i) = heap::blocks::given(d, cells, table, size, k, w.payload) else {
        return Progress::Stops(Exception::PointerUnknownAddress);
    };
    let left = heap::blocks::remove(d, cells, table, size, k, i);
    keep(g, left);
    Progress::Goes(gone)
}

// `flea`: the pointer to a field in place of that to its structure.
pub fn flea(
    d: &[u8],
    code: &[u8],
    cap: usize,
    size: usize,
    r: Registers,
    g: &[u64],
    p: &mut [u8],
    t: &[u8],
    cells: &[u8],
    table: &[u8],
) -> Progress
    requires heap_ready { HeapReady size d.now g.now cells.now table.now }
    requires ready_on { ReadyOn cap r p.old t.now × (r.place < r.stop) × (r.place + 5 ≤ length code.now) × Kinded (slots_of p.old t.now r.height) }
    ensures { (m : Module) → Shapes m d.now → AccessIs m (Flea (word 4 code.now (r.place + 1))) cap size r result d.now p.old t.now g.now cells.now table.now p.new t.now g.now cells.now table.now }
{
    let n = keys::operand(code, r.place) as usize;
    let h = r.height;
    if h < r.floor + 1 {
        return Progress::Stops(Exception::StackEmpty);
    }
    let w = state::slot_at(p, t, h - 1);
    match target_of(d, size, g, cells, table, h - 1, w) {
        Ok(Aim::Slot(_i)) => Progress::Stops(Exception::PointerNotStructure),
        Ok(Aim::Cell(_kind, _x)) => Progress::Stops(Exception::PointerNotStructure),
        Ok(Aim::Whole(f)) => {
            if f <= n {
                return Progress::Stops(Exception::FieldOutOfRange);
            }
            memory::store64(p, (h - 1) * 8, w.payload + 1 + n as u64);
            Progress::Goes(state::moved(r, r.place + 5, h))
        }
        Err(e) => Progress::Stops(e),
    }
}
