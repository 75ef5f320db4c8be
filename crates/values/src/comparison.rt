// `cmp` and `icmp` on two values; a is the deeper operand. Doubles and pointers have one order; a NaN has none.
ghost use Rattle.std.specs.Prelude.{◌≡◌, cond};
ghost use Rattle.rules.specs.Words.{cmp_of, icmp_of};
ghost use Rattle.rules.specs.declared.Binary.TheVariants.{Cmp};
ghost use Rattle.values.specs.Values.{Computes};

use crate::Value;
use rules::Exception;
use words::Word;

fn order<W: Word, const SIGNED: bool>(x: W, y: W) -> u32
    ensures { result ≡ cond SIGNED (icmp_of W.width (W.value x) (W.value y)) (cmp_of (W.value x) (W.value y)) }
{
    if SIGNED {
        words::icmp(x, y)
    } else {
        words::cmp(x, y)
    }
}

// `icmp`, or `cmp` where not SIGNED.
pub fn compare<const SIGNED: bool>(a: Value, b: Value) -> Result<Value, Exception>
    ensures { Computes (Cmp SIGNED) a b result }
{
    match a {
        Value::Int(x) => {
            let Value::Int(y) = b else {
                return Err(Exception::StackDifferentType);
            };
            Ok(Value::Int(order::<u32, SIGNED>(x, y)))
        }
        Value::Long(x) => {
            let Value::Long(y) = b else {
                return Err(Exception::StackDifferentType);
            };
            Ok(Value::Int(order::<u64, SIGNED>(x, y)))
        }
        Value::Double(x) => {
            let Value::Double(y) = b else {
                return Err(Exception::StackDifferentType);
            };
            let unordered = doubles::unordered(x, y);
            if unordered {
                return Err(Exception::DoubleUnordered);
            }
            Ok(Value::Int(doubles::compare(x, y)))
        }
        Value::Pointer(g, x) => {
            let Value::Pointer(h, y) = b else {
                return Err(Exception::StackDifferentType);
            };
            if g != h {
                return Err(Exception::StackDifferentType);
            }
            Ok(Value::Int(words::cmp(x, y)))
        }
    }
}
