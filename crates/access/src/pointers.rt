// `tload`, `tstore`, `inc`, `dec`: on the number that a pointer is to.
ghost use Rattle.std.specs.Prelude.{◌<◌};
ghost use Rattle.rules.specs.Tables.{Module};
ghost use Rattle.rules.specs.Stack.{slots_of};
ghost use Rattle.rules.specs.declared.Instruction.TheVariants.{Tload, Tstore, Bump};
ghost use Rattle.soundness.specs.Kinds.{Kinded};
ghost use Rattle.state.specs.State.{ReadyOn};
ghost use Rattle.heap.specs.Targets.{Shapes};
ghost use Rattle.access.specs.Access.{HeapReady, AccessIs};
ghost use Rattle.access.specs.Targets.{Reaches, PutsAt};

use crate::targets::{Spot, number_of, put, top_number};
use rules::Exception;
use state::{Progress, Registers};
use values::Value;
use values::single::Count;

// `tload`.
pub fn tload(
    d: &[u8],
    cap: usize,
    size: usize,
    r: Registers,
    g: &[u64],
    p: &mut [u8],
    t: &mut [u8],
    cells: &[u8],
    table: &[u8],
) -> Progress
    requires heap_ready { HeapReady size d.now g.now cells.now table.now }
    requires ready_on { ReadyOn cap r p.old t.old × (r.place < r.stop) × Kinded (slots_of p.old t.old r.height) }
    ensures { (m : Module) → Shapes m d.now → AccessIs m Tload cap size r result d.now p.old t.old g.now cells.now table.now p.new t.new g.now cells.now table.now }
{
    match top_number(d, size, r, g, p, t, cells, table) {
        Ok((_at, v)) => {
            state::put_slot(p, t, r.height - 1, v);
            Progress::Goes(state::moved(r, r.place + 1, r.height))
        }
        Err(e) => Progress::Stops(e),
    }
}

// `tstore`: the pointer is under the value.
pub fn tstore(
    d: &[u8],
    cap: usize,
    size: usize,
    r: Registers,
    g: &[u64],
    p: &mut [u8],
    t: &[u8],
    cells: &mut [u8],
    table: &[u8],
) -> Progress
    requires heap_ready { HeapReady size d.now g.now cells.old table.now }
    requires ready_on { ReadyOn cap r p.old t.now × (r.place < r.stop) × Kinded (slots_of p.old t.now r.height) }
    ensures { (m : Module) → Shapes m d.now → AccessIs m Tstore cap size r result d.now p.old t.now g.now cells.old table.now p.new t.now g.now cells.new table.now }
{
    let h = r.height;
    if h < r.floor + 2 {
        return Progress::Stops(Exception::StackEmpty);
    }
    let w = state::slot_at(p, t, h - 2);
    let v = state::slot_at(p, t, h - 1);
    match number_of(d, size, g, p, t, cells, table, h - 2, w) {
        Ok((at, old)) => {
            if v.kind != old.kind {
                return Progress::Stops(Exception::StackDifferentType);
            }
            put(at, v.payload, p, cells);
            Progress::Goes(state::moved(r, r.place + 1, h - 2))
        }
        Err(e) => Progress::Stops(e),
    }
}

// The number back where it stands, of its own type, and the pointer gone.
fn put_back(
    r: Registers,
    at: Spot,
    x: Result<Value, Exception>,
    p: &mut [u8],
    cells: &mut [u8],
) -> Progress
    requires { (r.place < r.stop) × (0 < r.height) × Reaches at p.old cells.old }
    ensures { PutsAt r at x result p.old cells.old p.new cells.new }
{
    match x {
        Ok(v) => {
            put(at, values::payload_of(v), p, cells);
            Progress::Goes(state::moved(r, r.place + 1, r.height - 1))
        }
        Err(e) => Progress::Stops(e),
    }
}

// `inc` where UP, else `dec`.
pub fn bump<const UP: bool>(
    d: &[u8],
    cap: usize,
    size: usize,
    r: Registers,
    g: &[u64],
    p: &mut [u8],
    t: &[u8],
    cells: &mut [u8],
    table: &[u8],
) -> Progress
    requires heap_ready { HeapReady size d.now g.now cells.old table.now }
    requires ready_on { ReadyOn cap r p.old t.now × (r.place < r.stop) × Kinded (slots_of p.old t.now r.height) }
    ensures { (m : Module) → Shapes m d.now → AccessIs m (Bump UP) cap size r result d.now p.old t.now g.now cells.old table.now p.new t.now g.now cells.new table.now }
{
    match top_number(d, size, r, g, p, t, cells, table) {
        Ok((at, v)) => {
            let x = values::single::apply::<Count<UP>>(values::value_of(v));
            put_back(r, at, x, p, cells)
        }
        Err(e) => Progress::Stops(e),
    }
}
