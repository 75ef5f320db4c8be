// The machine's state as the code keeps it: registers, frames as words, slots in lent bytes.
#![tactic(auto)]

ghost use Rattle.std.specs.Prelude.{◌≡◌, ◌+◌, ◌*◌, ◌<◌, ◌≤◌, length};
ghost use Rattle.rules.specs.Stack.{slot_at};
ghost use Rattle.state.specs.Slots.{payloads_with, types_with};
ghost use Rattle.state.specs.State.{moved_to, bound_to};

use rules::{Exception, Slot};

// The running frame, and the slots in use. stop is its body's end, floor where its operands begin, frame where its words begin.
// The words have its body, first slot, count of locals and locals.
#[derive(Clone, Copy)]
pub struct Registers {
    pub place: usize,
    pub stop: usize,
    pub floor: usize,
    pub frame: usize,
    pub height: usize,
}

// What an instruction does: the run goes on, the host's own call has returned, or the run stops with an exception.
#[derive(Clone, Copy)]
pub enum Progress {
    Goes(Registers),
    Finishes(Registers),
    Stops(Exception),
}

pub fn slot_at(p: &[u8], t: &[u8], i: usize) -> Slot
    requires { (i * 8 + 8 ≤ length p.now) × (i < length t.now) }
    ensures { result ≡ slot_at p.now t.now i }
{
    let payload = memory::load64(p, i * 8);
    Slot {
        kind: t[i],
        payload,
    }
}

pub fn put_slot(p: &mut [u8], t: &mut [u8], i: usize, v: Slot)
    requires { (i * 8 + 8 ≤ length p.old) × (i < length t.old) }
    ensures { (p.new ≡ payloads_with p.old i v) × (t.new ≡ types_with t.old i v) }
{
    memory::store64(p, i * 8, v.payload);
    t[i] = v.kind;
}

// The registers at another place, with another height.
pub fn moved(r: Registers, place: usize, height: usize) -> Registers
    ensures { result ≡ moved_to r place height }
{
    Registers { place, height, ..r }
}

// The registers past a binding store.
pub fn bound(r: Registers, place: usize) -> Registers
    ensures { result ≡ bound_to r place }
{
    Registers {
        place,
        floor: r.height,
        ..r
    }
}
