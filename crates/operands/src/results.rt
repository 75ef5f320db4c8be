// What was computed, put where the operands were.
ghost use Rattle.std.specs.Prelude.{◌+◌, ◌*◌, ◌<◌, ◌≤◌, length};
ghost use Rattle.operands.specs.Operands.{Puts, Types};

use rules::Exception;
use state::{Progress, Registers};
use values::Value;

// The value in slot i, the new top.
pub(crate) fn replaced(
    r: Registers,
    i: usize,
    x: Result<Value, Exception>,
    p: &mut [u8],
    t: &mut [u8],
) -> Progress
    requires { (r.place < r.stop) × (i * 8 + 8 ≤ length p.old) × (i < length t.old) }
    ensures { Puts r i (i + 1) x result p.old p.new × Types i x t.old t.new }
{
    match x {
        Ok(v) => {
            state::put_slot(p, t, i, values::slot_of(v));
            Progress::Goes(state::moved(r, r.place + 1, i + 1))
        }
        Err(e) => Progress::Stops(e),
    }
}

// The same where slot i has the value's type: its type byte stays.
pub(crate) fn replaced_like(
    r: Registers,
    i: usize,
    x: Result<Value, Exception>,
    p: &mut [u8],
) -> Progress
    requires { (r.place < r.stop) × (i * 8 + 8 ≤ length p.old) }
    ensures { Puts r i (i + 1) x result p.old p.new }
{
    match x {
        Ok(v) => {
            memory::store64(p, i * 8, values::payload_of(v));
            Progress::Goes(state::moved(r, r.place + 1, i + 1))
        }
        Err(e) => Progress::Stops(e),
    }
}
