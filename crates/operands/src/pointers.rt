// `inc` and `dec`: of the number that the pointer on top names, where that is a slot.
ghost use Rattle.std.specs.Prelude.{◌+◌, ◌-◌, ◌*◌, ◌<◌, ◌≤◌, length};
ghost use Rattle.rules.specs.declared.Instruction.TheVariants.{Bump};
ghost use Rattle.operands.specs.Operands.{Computable, ExecutesOrDefers, Puts, Finds};

use rules::Exception;
use state::{Progress, Registers};
use values::Value;
use values::single::Count;

// The slot that the pointer on top names and the value in it, or the exception that it raises.
fn find(r: Registers, p: &[u8], t: &[u8]) -> Result<(usize, Value), Exception>
    requires { Computable r p.now t.now }
    ensures { Finds r p.now t.now result }
{
    let h = r.height;
    if h < r.floor + 1 {
        return Err(Exception::StackEmpty);
    }
    let w = state::slot_at(p, t, h - 1);
    if w.kind < 7 {
        return Err(Exception::PointerNotPointer);
    }
    if (h - 1) as u64 <= w.payload {
        return Err(Exception::PointerUnknownAddress);
    }
    let i = w.payload as usize;
    let a = values::value_of(state::slot_at(p, t, i));
    Ok((i, a))
}

// The number back in slot i, of its own type, and the pointer gone.
fn put_back(r: Registers, i: usize, x: Result<Value, Exception>, p: &mut [u8]) -> Progress
    requires { (r.place < r.stop) × (0 < r.height) × (i * 8 + 8 ≤ length p.old) }
    ensures { Puts r i (r.height - 1) x result p.old p.new }
{
    match x {
        Ok(v) => {
            memory::store64(p, i * 8, values::payload_of(v));
            Progress::Goes(state::moved(r, r.place + 1, r.height - 1))
        }
        Err(e) => Progress::Stops(e),
    }
}

// `inc`, or `dec` where not UP.
pub fn bump<const UP: bool>(r: Registers, p: &mut [u8], t: &[u8]) -> Progress
    requires { Computable r p.old t.now }
    ensures { ExecutesOrDefers (Bump UP) r result p.old t.now p.new t.now }
{
    match find(r, p, t) {
        Ok((i, a)) => put_back(r, i, values::single::apply::<Count<UP>>(a), p),
        Err(e) => Progress::Stops(e),
    }
}
