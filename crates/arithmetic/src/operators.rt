// `add` to `sar`: what each gives for two words and for two doubles. x is the deeper operand.
#![tactic(auto, unfolding(crate::specs::Arithmetic::words_of, crate::specs::Arithmetic::doubles_of, rules::specs::Operations::on_words, rules::specs::Operations::on_doubles))]

ghost use Rattle.std.specs.Prelude.{◌≡◌, ℕ};
ghost use Rattle.rules.specs.Doubles.{decode_of};
ghost use Rattle.rules.specs.declared.Operator.{Operator};
ghost use Rattle.rules.specs.declared.Operator.TheVariants as Operator;
ghost use Rattle.values.specs.Changes.{double_result};
ghost use Rattle.arithmetic.specs.Arithmetic.{words_of, doubles_of, word_result};

use rules::Exception;
use words::Word;

pub trait Arithmetic {
    ghost operator: { Operator };

    fn on_words<W: Word>(x: W, y: W) -> Result<W, Exception>
        ensures { (k : ℕ) → word_result W.value k result ≡ words_of W.width k operator (W.value x) (W.value y) };

    fn on_doubles(x: f64, y: f64) -> Result<f64, Exception>
        ensures { (p q : ℕ) → x ≡ decode_of p → y ≡ decode_of q → double_result result ≡ doubles_of operator p q };
}

// `add`.
pub struct Add;

impl Arithmetic for Add {
    ghost operator = { Operator.Add };

    fn on_words<W: Word>(x: W, y: W) -> Result<W, Exception> {
        Ok(words::add(x, y))
    }

    fn on_doubles(x: f64, y: f64) -> Result<f64, Exception> {
        Ok(x + y)
    }
}

// `sub`.
pub struct Sub;

impl Arithmetic for Sub {
    ghost operator = { Operator.Sub };

    fn on_words<W: Word>(x: W, y: W) -> Result<W, Exception> {
        Ok(words::sub(x, y))
    }

    fn on_doubles(x: f64, y: f64) -> Result<f64, Exception> {
        Ok(x - y)
    }
}

// `mul`.
pub struct Mul;

impl Arithmetic for Mul {
    ghost operator = { Operator.Mul };

    fn on_words<W: Word>(x: W, y: W) -> Result<W, Exception> {
        Ok(words::mul(x, y))
    }

    fn on_doubles(x: f64, y: f64) -> Result<f64, Exception> {
        Ok(x * y)
    }
}

// `imul`.
pub struct Imul;

impl Arithmetic for Imul {
    ghost operator = { Operator.Imul };

    fn on_words<W: Word>(x: W, y: W) -> Result<W, Exception> {
        Ok(words::mul(x, y))
    }

    fn on_doubles(x: f64, y: f64) -> Result<f64, Exception> {
        Ok(x * y)
    }
}

// `div`.
pub struct Div;

impl Arithmetic for Div {
    ghost operator = { Operator.Div };

    fn on_words<W: Word>(x: W, y: W) -> Result<W, Exception> {
        if y.wide() == 0 {
            return Err(Exception::ArithmeticDivideByZero);
        }
        Ok(words::div(x, y))
    }

    fn on_doubles(x: f64, y: f64) -> Result<f64, Exception> {
        Ok(x / y)
    }
}

// `idiv`.
pub struct Idiv;

impl Arithmetic for Idiv {
    ghost operator = { Operator.Idiv };

    fn on_words<W: Word>(x: W, y: W) -> Result<W, Exception> {
        if y.wide() == 0 {
            return Err(Exception::ArithmeticDivideByZero);
        }
        Ok(words::idiv(x, y))
    }

    fn on_doubles(x: f64, y: f64) -> Result<f64, Exception> {
        Ok(x / y)
    }
}

// `mod`.
pub struct Mod;

impl Arithmetic for Mod {
    ghost operator = { Operator.Mod };

    fn on_words<W: Word>(x: W, y: W) -> Result<W, Exception> {
        if y.wide() == 0 {
            return Err(Exception::ArithmeticDivideByZero);
        }
        Ok(words::modulo(x, y))
    }

    fn on_doubles(_x: f64, _y: f64) -> Result<f64, Exception> {
        Err(Exception::DoubleInvalidForDouble)
    }
}

// `imod`.
pub struct Imod;

impl Arithmetic for Imod {
    ghost operator = { Operator.Imod };

    fn on_words<W: Word>(x: W, y: W) -> Result<W, Exception> {
        if y.wide() == 0 {
            return Err(Exception::ArithmeticDivideByZero);
        }
        Ok(words::imod(x, y))
    }

    fn on_doubles(_x: f64, _y: f64) -> Result<f64, Exception> {
        Err(Exception::DoubleInvalidForDouble)
    }
}

// `and`.
pub struct And;

impl Arithmetic for And {
    ghost operator = { Operator.And };

    fn on_words<W: Word>(x: W, y: W) -> Result<W, Exception> {
        Ok(words::and(x, y))
    }

    fn on_doubles(_x: f64, _y: f64) -> Result<f64, Exception> {
        Err(Exception::DoubleInvalidForDouble)
    }
}

// `or`.
pub struct Or;

impl Arithmetic for Or {
    ghost operator = { Operator.Or };

    fn on_words<W: Word>(x: W, y: W) -> Result<W, Exception> {
        Ok(words::or(x, y))
    }

    fn on_doubles(_x: f64, _y: f64) -> Result<f64, Exception> {
        Err(Exception::DoubleInvalidForDouble)
    }
}

// `xor`.
pub struct Xor;

impl Arithmetic for Xor {
    ghost operator = { Operator.Xor };

    fn on_words<W: Word>(x: W, y: W) -> Result<W, Exception> {
        Ok(words::xor(x, y))
    }

    fn on_doubles(_x: f64, _y: f64) -> Result<f64, Exception> {
        Err(Exception::DoubleInvalidForDouble)
    }
}

// `shl`.
pub struct Shl;

impl Arithmetic for Shl {
    ghost operator = { Operator.Shl };

    fn on_words<W: Word>(x: W, y: W) -> Result<W, Exception> {
        Ok(words::shl(x, y))
    }

    fn on_doubles(_x: f64, _y: f64) -> Result<f64, Exception> {
        Err(Exception::DoubleInvalidForDouble)
    }
}

// `sal`.
pub struct Sal;

impl Arithmetic for Sal {
    ghost operator = { Operator.Sal };

    fn on_words<W: Word>(x: W, y: W) -> Result<W, Exception> {
        Ok(words::shl(x, y))
    }

    fn on_doubles(_x: f64, _y: f64) -> Result<f64, Exception> {
        Err(Exception::DoubleInvalidForDouble)
    }
}

// `shr`.
pub struct Shr;

impl Arithmetic for Shr {
    ghost operator = { Operator.Shr };

    fn on_words<W: Word>(x: W, y: W) -> Result<W, Exception> {
        Ok(words::shr(x, y))
    }

    fn on_doubles(_x: f64, _y: f64) -> Result<f64, Exception> {
        Err(Exception::DoubleInvalidForDouble)
    }
}

// `sar`.
pub struct Sar;

impl Arithmetic for Sar {
    ghost operator = { Operator.Sar };

    fn on_words<W: Word>(x: W, y: W) -> Result<W, Exception> {
        Ok(words::sar(x, y))
    }

    fn on_doubles(_x: f64, _y: f64) -> Result<f64, Exception> {
        Err(Exception::DoubleInvalidForDouble)
    }
}
