// Moves through a pointer: type 7 or 8, its payload the number of the slot that it names. Where that is no slot, who has the heap
// does it.
ghost use Rattle.std.specs.Prelude.{◌<◌};
ghost use Rattle.rules.specs.Tables.{Module};
ghost use Rattle.rules.specs.Machine.{exec_in};
ghost use Rattle.rules.specs.Stack.{slots_of};
ghost use Rattle.rules.specs.declared.Instruction.TheVariants.{Tload, Tstore};
ghost use Rattle.soundness.specs.Kinds.{Kinded};
ghost use Rattle.state.specs.State.{ReadyOn, ActsOrDefers};

use rules::Exception;
use state::{Progress, Registers};

// `tload`.
pub fn tload(cap: usize, r: Registers, p: &mut [u8], t: &mut [u8]) -> Progress
    requires ready_on { ReadyOn cap r p.old t.old }
    requires place_lt_stop { (r.place < r.stop) × Kinded (slots_of p.old t.old r.height) }
    ensures { (m : Module) → ActsOrDefers cap r result p.old t.old p.new t.new (exec_in m cap Tload) }
{
    let h = r.height;
    if h < r.floor + 1 {
        return Progress::Stops(Exception::StackEmpty);
    }
    let from = state::slot_at(p, t, h - 1);
    if from.kind < 7 {
        return Progress::Stops(Exception::PointerNotPointer);
    }
    if (h - 1) as u64 <= from.payload {
        return Progress::Stops(Exception::PointerUnknownAddress);
    }
    let v = state::slot_at(p, t, from.payload as usize);
    state::put_slot(p, t, h - 1, v);
    Progress::Goes(state::moved(r, r.place + 1, h))
}

// `tstore`: the pointer is under the value. The slot that it names keeps its type byte.
pub fn tstore(cap: usize, r: Registers, p: &mut [u8], t: &[u8]) -> Progress
    requires ready_on { ReadyOn cap r p.old t.now }
    requires place_lt_stop { (r.place < r.stop) × Kinded (slots_of p.old t.now r.height) }
    ensures { (m : Module) → ActsOrDefers cap r result p.old t.now p.new t.now (exec_in m cap Tstore) }
{
    let h = r.height;
    if h < r.floor + 2 {
        return Progress::Stops(Exception::StackEmpty);
    }
    let to = state::slot_at(p, t, h - 2);
    if to.kind < 7 {
        return Progress::Stops(Exception::PointerNotPointer);
    }
    if (h - 2) as u64 <= to.payload {
        return Progress::Stops(Exception::PointerUnknownAddress);
    }
    let s = to.payload as usize;
    let v = state::slot_at(p, t, h - 1);
    let old = state::slot_at(p, t, s);
    if v.kind != old.kind {
        return Progress::Stops(Exception::StackDifferentType);
    }
    memory::store64(p, s * 8, v.payload);
    Progress::Goes(state::moved(r, r.place + 1, h - 2))
}
