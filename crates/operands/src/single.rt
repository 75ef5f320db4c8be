// Instructions on the top operand. A conversion to its own type keeps the payload as it is, a NaN's bits too.
ghost use Rattle.std.specs.Prelude.{false};
ghost use Rattle.rules.specs.declared.Instruction.TheVariants.{One};
ghost use Rattle.rules.specs.declared.Num.TheVariants.{Int as int, Long as long, Double as double};
ghost use Rattle.rules.specs.declared.Unary.TheVariants.{Convert};
ghost use Rattle.operands.specs.Operands.{Computable, Executes};

use crate::results::{replaced, replaced_like};
use rules::Exception;
use state::{Progress, Registers};
use values::single::Change;

// `neg`, `not`, and edition 1's `inc` and `dec`.
pub fn change<C: Change>(r: Registers, p: &mut [u8], t: &[u8]) -> Progress
    requires { Computable r p.old t.now }
    ensures { Executes (One C.unary) r result p.old t.now p.new t.now }
{
    let h = r.height;
    if h < r.floor + 1 {
        return Progress::Stops(Exception::StackEmpty);
    }
    let a = values::value_of(state::slot_at(p, t, h - 1));
    replaced_like(r, h - 1, values::single::apply::<C>(a), p)
}

// The three conversions stay apart: one body for all was no plainer, since `tol` has no own type to skip and each has its own value.
// `toi`. Where it does not raise 44, it is edition 1's.
pub fn toi(raises: bool, r: Registers, p: &mut [u8], t: &mut [u8]) -> Progress
    requires { Computable r p.old t.old }
    ensures { Executes (One (Convert raises int)) r result p.old t.old p.new t.new }
{
    let h = r.height;
    if h < r.floor + 1 {
        return Progress::Stops(Exception::StackEmpty);
    }
    let s = state::slot_at(p, t, h - 1);
    if s.kind == 3 {
        return Progress::Goes(state::moved(r, r.place + 1, h));
    }
    let a = values::value_of(s);
    replaced(r, h - 1, values::single::toi_value(raises, a), p, t)
}

// `tol`, in the same way.
pub fn tol(raises: bool, r: Registers, p: &mut [u8], t: &mut [u8]) -> Progress
    requires { Computable r p.old t.old }
    ensures { Executes (One (Convert raises long)) r result p.old t.old p.new t.new }
{
    let h = r.height;
    if h < r.floor + 1 {
        return Progress::Stops(Exception::StackEmpty);
    }
    let s = state::slot_at(p, t, h - 1);
    let a = values::value_of(s);
    replaced(r, h - 1, values::single::tol_value(raises, a), p, t)
}

// `tod`.
pub fn tod(r: Registers, p: &mut [u8], t: &mut [u8]) -> Progress
    requires { Computable r p.old t.old }
    ensures { Executes (One (Convert false double)) r result p.old t.old p.new t.new }
{
    let h = r.height;
    if h < r.floor + 1 {
        return Progress::Stops(Exception::StackEmpty);
    }
    let s = state::slot_at(p, t, h - 1);
    if s.kind == 6 {
        return Progress::Goes(state::moved(r, r.place + 1, h));
    }
    let a = values::value_of(s);
    replaced(r, h - 1, values::single::tod_value(a), p, t)
}
