// The run from any state.
#![tactic(auto)]

ghost use Rattle.std.specs.Prelude.{◌≡◌, ◌<◌, length};
ghost use Rattle.rules.specs.ModuleFile.{read, refusal};
ghost use Rattle.format.specs.Layout.{Packed};
ghost use Rattle.keys.specs.Keys.{Keyed};
ghost use Rattle.state.specs.State.{state_of};
ghost use Rattle.machine.specs.Ends.{left, number_of, end_at_stop, Fits, RunsTo};

use format::Sections;
use rules::Exception;
use state::{Progress, Registers};

mod steps;

// Whether a run stopped with this before an instruction that it left to who has the heap: an unknown address where a pointer names no
// slot, and the two exceptions of `steps`.
pub fn left(stop: Option<Exception>) -> bool
    ensures { result ≡ left (number_of stop) }
{
    match stop {
        Some(Exception::PointerUnknownAddress) => true,
        Some(Exception::PointerNullPointer) => true,
        Some(Exception::TypeOutOfRange) => true,
        _ => false,
    }
}

// How a run ended: what stopped it, where it did not finish; the steps left of the allowance; and the registers then.
#[derive(Clone, Copy)]
pub struct Ended {
    pub stop: Option<Exception>,
    pub rest: u64,
    pub last: Registers,
}

// The entry finishes at its end; a function stops there.
fn at_end(r: Registers, rest: u64, f: &[u16]) -> Ended
    requires { r.frame < length f.now }
    ensures { result ≡ end_at_stop f.now r rest }
{
    let stop = if f[r.frame] == 65535 {
        None
    } else {
        Some(Exception::FunctionNoRetInstruction)
    };
    Ended {
        stop,
        rest,
        last: r,
    }
}

// The run from a state: moment after moment, until it ends, the allowance is used up, or an instruction needs the heap. The code is lent
// in keys.
pub fn run_from(
    file: &[u8],
    c: Sections,
    cap: usize,
    first: Registers,
    allowance: u64,
    p: &mut [u8],
    t: &mut [u8],
    f: &mut [u16],
    source: &[u8],
    from: usize,
) -> Ended
    requires packed { Packed file.now c × (refusal file.now ≡ 0) }
    requires keyed { Keyed file.now source.now from × Fits (read file.now) cap first p.old t.old f.old }
    ensures { RunsTo (read file.now) cap allowance (state_of first p.old t.old f.old) result p.old t.old f.old p.new t.new f.new }
{
    let code = &source[from..];
    let constants = c.pool;
    let pool = &file[constants..];
    // What counts down is the allowance, and no index: the run itself says where it ends.
    let mut r = first;
    let mut rest = allowance;
    loop {
        let Some(key) = keys::decode(code, r.place, r.stop) else {
            return at_end(r, rest, f);
        };
        if rest == 0 {
            return Ended {
                stop: Some(Exception::AllowanceUsedUp),
                rest,
                last: r,
            };
        }
        match steps::step(file, c, pool, code, cap, r, key, p, t, f) {
            Progress::Goes(q) => {
                r = q;
                rest -= 1;
            }
            Progress::Finishes(q) => {
                return Ended {
                    stop: None,
                    rest: rest - 1,
                    last: q,
                };
            }
            Progress::Stops(e) => {
                return Ended {
                    stop: Some(e),
                    rest,
                    last: r,
                };
            }
        }
    }
}
