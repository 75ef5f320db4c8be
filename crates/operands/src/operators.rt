// `add` to `sar`. Slots of two types are refused first; after that the two values are of one case.
ghost use Rattle.std.specs.Prelude.{◌≡◌};
ghost use Rattle.std.proofs.Math.Option.{some};
ghost use Rattle.rules.specs.Operations.{refuse, class_of};
ghost use Rattle.rules.specs.Results.{exception_number};
ghost use Rattle.rules.specs.declared.Binary.TheVariants.{Arith};
ghost use Rattle.rules.specs.declared.Instruction.TheVariants.{Two};
ghost use Rattle.rules.specs.declared.Operator.{Operator};
ghost use Rattle.operands.specs.Operands.{Computable, Executes, Paired};

use crate::results::replaced_like;
use arithmetic::operators::Arithmetic;
use rules::Exception;
use state::{Progress, Registers};
use values::Value;

// Operands of two types, by their type numbers.
fn unlike(a: u8, b: u8) -> Exception
    ensures { (o : Operator) → (a ≡ b → ⊥) → refuse (class_of o) a b ≡ some (exception_number result) }
{
    if (a == 7) | (a == 8) {
        return Exception::PointerInvalidForPointer;
    }
    if (b == 7) | (b == 8) {
        return Exception::PointerInvalidForPointer;
    }
    Exception::StackDifferentType
}

// The two top operands as values of one type, or the exception that they raise.
fn pair(r: Registers, p: &[u8], t: &[u8]) -> Result<(Value, Value), Exception>
    requires { Computable r p.now t.now }
    ensures { Paired r p.now t.now result }
{
    let h = r.height;
    if h < r.floor + 2 {
        return Err(Exception::StackEmpty);
    }
    let s = state::slot_at(p, t, h - 2);
    let u = state::slot_at(p, t, h - 1);
    if s.kind != u.kind {
        return Err(unlike(s.kind, u.kind));
    }
    let a = values::value_of(s);
    let b = values::value_of(u);
    Ok((a, b))
}

pub fn operate<O: Arithmetic>(r: Registers, p: &mut [u8], t: &[u8]) -> Progress
    requires { Computable r p.old t.now }
    ensures { Executes (Two (Arith O.operator)) r result p.old t.now p.new t.now }
{
    match pair(r, p, t) {
        Ok((a, b)) => replaced_like(r, r.height - 2, arithmetic::compute::<O>(a, b), p),
        Err(e) => Progress::Stops(e),
    }
}
