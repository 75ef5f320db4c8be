// Instructions on the top one or two slots.
ghost use Rattle.std.specs.Prelude.{List, ℕ, ◌<◌};
ghost use Rattle.rules.specs.Tables.{Module};
ghost use Rattle.rules.specs.Machine.{exec_in};
ghost use Rattle.rules.specs.declared.Binary.TheVariants.{Swap};
ghost use Rattle.rules.specs.declared.Unary.TheVariants.{Pop, Copy};
ghost use Rattle.rules.specs.declared.Instruction.TheVariants.{One, Two};
ghost use Rattle.state.specs.State.{ReadyOn, Acts};
ghost use Rattle.moves.specs.Moves.{pushed_at};

use rules::{Exception, Slot};
use state::{Progress, Registers};

// Puts a slot on the stack.
pub(crate) fn pushed(
    cap: usize,
    r: Registers,
    place: usize,
    v: Slot,
    p: &mut [u8],
    t: &mut [u8],
) -> Progress
    requires { ReadyOn cap r p.old t.old }
    ensures { Acts cap r result p.old t.old p.new t.new (pushed_at cap place v) }
{
    let h = r.height;
    if cap <= h {
        return Progress::Stops(Exception::StackOverflow);
    }
    state::put_slot(p, t, h, v);
    Progress::Goes(state::moved(r, place, h + 1))
}

// `pop`.
pub fn pop(r: Registers) -> Progress
    requires { r.place < r.stop }
    ensures { (m : Module) (cap : ℕ) (p t : List ℕ) → Acts cap r result p t p t (exec_in m cap (One Pop)) }
{
    let h = r.height;
    if h <= r.floor {
        return Progress::Stops(Exception::StackEmpty);
    }
    Progress::Goes(state::moved(r, r.place + 1, h - 1))
}

// `copy`.
pub fn copy(cap: usize, r: Registers, p: &mut [u8], t: &mut [u8]) -> Progress
    requires ready_on { ReadyOn cap r p.old t.old }
    requires place_lt_stop { r.place < r.stop }
    ensures { (m : Module) → Acts cap r result p.old t.old p.new t.new (exec_in m cap (One Copy)) }
{
    let h = r.height;
    if h < r.floor + 1 {
        return Progress::Stops(Exception::StackEmpty);
    }
    let v = state::slot_at(p, t, h - 1);
    pushed(cap, r, r.place + 1, v, p, t)
}

// `swap`. The type bytes are alike and stay.
pub fn swap(cap: usize, r: Registers, p: &mut [u8], t: &[u8]) -> Progress
    requires ready_on { ReadyOn cap r p.old t.now }
    requires place_lt_stop { r.place < r.stop }
    ensures { (m : Module) → Acts cap r result p.old t.now p.new t.now (exec_in m cap (Two Swap)) }
{
    let h = r.height;
    if h < r.floor + 2 {
        return Progress::Stops(Exception::StackEmpty);
    }
    let a = state::slot_at(p, t, h - 2);
    let b = state::slot_at(p, t, h - 1);
    if a.kind != b.kind {
        return Progress::Stops(Exception::StackDifferentType);
    }
    memory::store64(p, (h - 2) * 8, b.payload);
    memory::store64(p, (h - 1) * 8, a.payload);
    Progress::Goes(state::moved(r, r.place + 1, h))
}
