// `cmp` and `icmp`.
ghost use Rattle.rules.specs.declared.Binary.TheVariants.{Cmp};
ghost use Rattle.rules.specs.declared.Instruction.TheVariants.{Two};
ghost use Rattle.operands.specs.Operands.{Computable, Executes};

use crate::results::replaced;
use rules::Exception;
use state::{Progress, Registers};

// `icmp`, or `cmp` where not SIGNED.
pub fn compare<const SIGNED: bool>(r: Registers, p: &mut [u8], t: &mut [u8]) -> Progress
    requires { Computable r p.old t.old }
    ensures { Executes (Two (Cmp SIGNED)) r result p.old t.old p.new t.new }
{
    let h = r.height;
    if h < r.floor + 2 {
        return Progress::Stops(Exception::StackEmpty);
    }
    let s = state::slot_at(p, t, h - 2);
    let u = state::slot_at(p, t, h - 1);
    if s.kind != u.kind {
        return Progress::Stops(Exception::StackDifferentType);
    }
    let a = values::value_of(s);
    let b = values::value_of(u);
    let x = values::comparison::compare::<SIGNED>(a, b);
    replaced(r, h - 2, x, p, t)
}
