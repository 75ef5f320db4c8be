// Doubles: from patterns and back, their order, and conversions from and to whole numbers.
#![tactic(auto)]

ghost use Rattle.std.specs.Prelude.{◌≡◌, not, ◌||◌};
ghost use Rattle.std.specs.Float.Ieee as Ieee;
ghost use Rattle.rules.specs.Words.{order_of};
ghost use Rattle.rules.specs.Doubles.{decode_of, encode_of, tod_of};
ghost use Rattle.doubles.specs.Truncated.{Truncates};

use words::Word;

// Whether a pattern is a number's, and no NaN's. Doubling drops the sign.
fn number(p: u64) -> bool
    ensures { result ≡ not (Ieee.nan_bits Ieee.binary64 p) }
{
    let d = std::num::wrapping_add_u64(p, p);
    d <= 0xffe0_0000_0000_0000
}

// The double of a pattern. Every NaN's pattern gives a NaN.
pub fn decode(p: u64) -> f64
    ensures { result ≡ decode_of p }
{
    if number(p) {
        return f64::from_bits(p);
    }
    0.0 / 0.0
}

// The pattern of a double, 7FF8000000000000 for a NaN.
pub fn encode(x: f64) -> u64
    ensures { result ≡ encode_of x }
{
    if x != x {
        0x7ff8_0000_0000_0000
    } else {
        f64::to_bits(x)
    }
}

// Whether one of two doubles is a NaN.
pub fn unordered(x: f64, y: f64) -> bool
    ensures { result ≡ (Ieee.is_nan x || Ieee.is_nan y) }
{
    (x != x) | (y != y)
}

// 1 for more, 0 for equal, -1 for anything else, as an int. A NaN is neither more nor equal.
pub fn compare(x: f64, y: f64) -> u32
    ensures { result ≡ order_of (Ieee.lt y x) (Ieee.eq x y) }
{
    if x > y {
        return 1;
    }
    if x == y {
        return 0;
    }
    0xffff_ffff
}

// `tod` of an int: exact.
pub fn tod_int(a: u32) -> f64
    ensures { encode_of result ≡ tod_of a }
{
    a as f64
}

// `tod` of a long: the upper half times 2^32 plus the lower half. Both are exact, and only the sum rounds.
pub fn tod_long(a: u64) -> f64
    ensures { encode_of result ≡ tod_of a }
{
    let upper = (a / 0x1_0000_0000) as u32;
    let lower = (a % 0x1_0000_0000) as u32;
    (upper as f64) * 4294967296.0 + (lower as f64)
}

// A double cut toward zero, the word of the whole number where it is in range, for `toi` and `tol`. The range is tested on the whole
// number. A NaN fails every test.
pub fn truncate<W: Word>(x: f64) -> Option<W>
    ensures { Truncates W.value W.width x result }
{
    if x > -1.0 {
        if x < 18446744073709551616.0 {
            let t = std::num::truncating_f64_to_u64(x);
            if t / 2 < W::top() {
                return Some(W::cut(t));
            }
        }
        return None;
    }
    let y = -x;
    if y < 18446744073709551616.0 {
        let t = std::num::truncating_f64_to_u64(y);
        if t <= W::top() {
            return Some(words::neg(W::cut(t)));
        }
    }
    None
}
