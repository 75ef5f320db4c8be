// `neg`, `not`, a number one up or down, and conversions.
ghost use Rattle.std.specs.Prelude.{◌≡◌, ℕ, false};
ghost use Rattle.rules.specs.Doubles.{decode_of};
ghost use Rattle.rules.specs.declared.Num.TheVariants.{Int as int, Long as long, Double as double};
ghost use Rattle.rules.specs.declared.Unary.{Unary};
ghost use Rattle.rules.specs.declared.Unary.TheVariants as Unary;
ghost use Rattle.values.specs.Values.{Turns, Converts};
ghost use Rattle.values.specs.Changes.{Keeping, negs, nots, counts, changed, double_changed, double_result, Cuts};

use crate::Value;
use rules::Exception;
use words::Word;

// An instruction that changes a number within its type.
pub trait Change {
    ghost unary: { Unary };

    fn on_word<W: Word>(x: W) -> W
        ensures { W.value result ≡ changed W.width unary (W.value x) };

    fn on_double(x: f64) -> Result<f64, Exception>
        ensures { (p : ℕ) → x ≡ decode_of p → double_result result ≡ double_changed unary p };

    ghost keeps: { Keeping unary };
}

// `neg`: wraps, or flips a double's sign.
pub struct Neg;

impl Change for Neg {
    ghost unary = { Unary.Neg };

    ghost keeps = { negs };

    fn on_word<W: Word>(x: W) -> W {
        words::neg(x)
    }

    fn on_double(x: f64) -> Result<f64, Exception> {
        Ok(-x)
    }
}

// `not`, of ints and longs.
pub struct Not;

impl Change for Not {
    ghost unary = { Unary.Not };

    ghost keeps = { nots };

    fn on_word<W: Word>(x: W) -> W {
        words::complement(x)
    }

    fn on_double(_x: f64) -> Result<f64, Exception> {
        Err(Exception::DoubleInvalidForDouble)
    }
}

// `inc`, or `dec` where not UP, of the top value or of the number that a pointer names.
pub struct Count<const UP: bool>;

impl<const UP: bool> Change for Count<UP> {
    ghost unary = { Unary.Count UP };

    ghost keeps = { counts UP };

    fn on_word<W: Word>(x: W) -> W {
        let one = W::cut(1);
        if UP {
            words::add(x, one)
        } else {
            words::sub(x, one)
        }
    }

    fn on_double(x: f64) -> Result<f64, Exception> {
        if UP { Ok(x + 1.0) } else { Ok(x - 1.0) }
    }
}

pub fn apply<C: Change>(a: Value) -> Result<Value, Exception>
    ensures { Turns C.unary a result }
{
    match a {
        Value::Int(x) => Ok(Value::Int(C::on_word(x))),
        Value::Long(x) => Ok(Value::Long(C::on_word(x))),
        Value::Double(x) => Ok(Value::Double(C::on_double(x)?)),
        Value::Pointer(_, _) => Err(Exception::PointerInvalidForPointer),
    }
}

// A double cut to a word. Where what does not fit raises nothing, it gives the pattern with only the top bit set.
fn cut<W: Word>(raises: bool, x: f64) -> Result<W, Exception>
    ensures { Cuts W.value W.width raises x result }
{
    let Some(w) = doubles::truncate::<W>(x) else {
        if raises {
            return Err(Exception::ConvertOutOfRange);
        }
        return Ok(W::cut(W::top()));
    };
    Ok(w)
}

// `toi`, of what is no int. Where it does not raise 44, it is edition 1's.
pub fn toi_value(raises: bool, a: Value) -> Result<Value, Exception>
    ensures { Converts raises int a result }
{
    match a {
        Value::Int(x) => Ok(Value::Int(x)),
        Value::Long(x) => Ok(Value::Int(words::low(x))),
        Value::Double(x) => Ok(Value::Int(cut(raises, x)?)),
        Value::Pointer(_, _) => Err(Exception::PointerInvalidForPointer),
    }
}

// `tol`, in the same way.
pub fn tol_value(raises: bool, a: Value) -> Result<Value, Exception>
    ensures { Turns (Unary.Convert raises long) a result }
{
    match a {
        Value::Int(x) => Ok(Value::Long(u64::from(x))),
        Value::Long(x) => Ok(Value::Long(x)),
        Value::Double(x) => Ok(Value::Long(cut(raises, x)?)),
        Value::Pointer(_, _) => Err(Exception::PointerInvalidForPointer),
    }
}

// `tod`, of what is no double.
pub fn tod_value(a: Value) -> Result<Value, Exception>
    ensures { Converts false double a result }
{
    match a {
        Value::Int(x) => Ok(Value::Double(doubles::tod_int(x))),
        Value::Long(x) => Ok(Value::Double(doubles::tod_long(x))),
        Value::Double(x) => Ok(Value::Double(x)),
        Value::Pointer(_, _) => Err(Exception::PointerInvalidForPointer),
    }
}
