// `add` to `sar` on two values; a is the deeper operand.
#![tactic(auto)]

ghost use Rattle.std.specs.Prelude.{◌≡◌};
ghost use Rattle.rules.specs.declared.Binary.TheVariants.{Arith};
ghost use Rattle.values.specs.Values.{kind_of_value, result_of, Computes};
ghost use Rattle.arithmetic.specs.Arithmetic.{unlike_of};

pub mod operators;

use operators::Arithmetic;
use rules::Exception;
use values::Value;

// Operands of two types: the first is no pointer, b is the second.
fn unlike(b: Value) -> Result<Value, Exception>
    ensures { result_of result ≡ unlike_of (kind_of_value b) }
{
    let Value::Pointer(_, _) = b else {
        return Err(Exception::StackDifferentType);
    };
    Err(Exception::PointerInvalidForPointer)
}

pub fn compute<O: Arithmetic>(a: Value, b: Value) -> Result<Value, Exception>
    ensures { Computes (Arith O.operator) a b result }
{
    match a {
        Value::Int(x) => {
            let Value::Int(y) = b else {
                return unlike(b);
            };
            Ok(Value::Int(O::on_words(x, y)?))
        }
        Value::Long(x) => {
            let Value::Long(y) = b else {
                return unlike(b);
            };
            Ok(Value::Long(O::on_words(x, y)?))
        }
        Value::Double(x) => {
            let Value::Double(y) = b else {
                return unlike(b);
            };
            Ok(Value::Double(O::on_doubles(x, y)?))
        }
        Value::Pointer(_, _) => Err(Exception::PointerInvalidForPointer),
    }
}
