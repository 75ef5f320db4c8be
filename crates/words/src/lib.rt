// Arithmetic on words of 32 bits (int) and 64 bits (long), as patterns.
#![tactic(auto)]

ghost use Rattle.std.specs.Prelude.{◌≡◌, ℕ, ◌-◌, ◌*◌, ◌/◌, ◌%◌, ◌^◌, ◌<◌, ◌≤◌, not, bit_and, bit_or, bit_xor, unsigned_abs};
ghost use Rattle.std.specs.Bool.{xor};
ghost use Rattle.std.proofs.Common.{rules};
ghost use Rattle.std.specs.Int.Signed.{non_neg};
ghost use Rattle.rules.specs.Words.{add_of, sub_of, mul_of, neg_of, signed_of, idiv_of, imod_of, not_of, shl_of, shr_of, sar_of, cmp_of, icmp_of};

// A type of words: its width, the number that a word is, and the words of the least and from the widest. What is computed below is
// computed on 64 bits and cut to the width.
pub trait Word: Copy {
    ghost width: { ℕ };

    ghost value: { Self → ℕ };

    // The pattern with only the top bit set: what is below is not negative.
    fn top() -> u64
        ensures { result ≡ 2 ^ (width - 1) };

    fn wide(self) -> u64
        ensures { (result ≡ value self) × (value self < 2 ^ width) };

    fn cut(n: u64) -> Self
        ensures { value result ≡ n % 2 ^ width };

    ghost bits: { (0 < width) × (width ≤ 64) };
}

impl Word for u32 {
    ghost width = { 32 };

    ghost value = { λ n. n };

    ghost bits = { Prim.search rules };

    fn top() -> u64 {
        0x8000_0000
    }

    fn wide(self) -> u64 {
        u64::from(self)
    }

    fn cut(n: u64) -> u32 {
        (n % 0x1_0000_0000) as u32
    }
}

impl Word for u64 {
    ghost width = { 64 };

    ghost value = { λ n. n };

    ghost bits = { Prim.search rules };

    fn top() -> u64 {
        0x8000_0000_0000_0000
    }

    fn wide(self) -> u64 {
        self
    }

    fn cut(n: u64) -> u64 {
        n
    }
}

pub fn add<W: Word>(a: W, b: W) -> W
    ensures { W.value result ≡ add_of W.width (W.value a) (W.value b) }
{
    W::cut(a.wide().wrapping_add(b.wide()))
}

pub fn sub<W: Word>(a: W, b: W) -> W
    ensures { W.value result ≡ sub_of W.width (W.value a) (W.value b) }
{
    W::cut(a.wide().wrapping_sub(b.wide()))
}

pub fn neg<W: Word>(a: W) -> W
    ensures { W.value result ≡ neg_of W.width (W.value a) }
{
    W::cut(0u64.wrapping_sub(a.wide()))
}

pub fn mul<W: Word>(a: W, b: W) -> W
    ensures { W.value result ≡ mul_of W.width (W.value a) (W.value b) }
{
    W::cut(a.wide().wrapping_mul(b.wide()))
}

// The low 32 bits of a long.
pub fn low(a: u64) -> u32
    ensures { result ≡ a % 2 ^ 32 }
{
    u32::cut(a)
}

// By 0 the quotient is 0 and the remainder the dividend, as in the rules; the machine raises 24 before.
pub fn div<W: Word>(a: W, b: W) -> W
    ensures { W.value result ≡ W.value a / W.value b }
{
    let d = b.wide();
    if d == 0 {
        W::cut(0)
    } else {
        W::cut(a.wide() / d)
    }
}

pub fn modulo<W: Word>(a: W, b: W) -> W
    ensures { W.value result ≡ W.value a % W.value b }
{
    let d = b.wide();
    if d == 0 { a } else { W::cut(a.wide() % d) }
}

fn negative<W: Word>(a: W) -> bool
    ensures { (result ≡ not (non_neg (signed_of W.width (W.value a)))) × (W.value a < 2 ^ W.width) }
{
    let n = a.wide();
    let top = W::top();
    !(n < top)
}

// The absolute value, unsigned: that of the lowest number is its own pattern.
fn magnitude<W: Word>(a: W) -> W
    ensures { W.value result ≡ unsigned_abs (signed_of W.width (W.value a)) }
{
    if negative(a) { neg(a) } else { a }
}

fn signs_differ<W: Word>(a: W, b: W) -> bool
    ensures { (result ≡ xor (non_neg (signed_of W.width (W.value a))) (non_neg (signed_of W.width (W.value b)))) × (W.value a < 2 ^ W.width) }
{
    negative(a) != negative(b)
}

// Signed quotients and remainders: by magnitudes, then the sign.
pub fn idiv<W: Word>(a: W, b: W) -> W
    ensures { W.value result ≡ idiv_of W.width (W.value a) (W.value b) }
{
    let q = div(magnitude(a), magnitude(b));
    if signs_differ(a, b) { neg(q) } else { q }
}

pub fn imod<W: Word>(a: W, b: W) -> W
    ensures { W.value result ≡ imod_of W.width (W.value a) (W.value b) }
{
    let m = modulo(magnitude(a), magnitude(b));
    if negative(a) { neg(m) } else { m }
}

pub fn and<W: Word>(a: W, b: W) -> W
    ensures { W.value result ≡ bit_and (W.value a) (W.value b) }
{
    W::cut(a.wide() & b.wide())
}

pub fn or<W: Word>(a: W, b: W) -> W
    ensures { W.value result ≡ bit_or (W.value a) (W.value b) }
{
    W::cut(a.wide() | b.wide())
}

pub fn xor<W: Word>(a: W, b: W) -> W
    ensures { W.value result ≡ bit_xor (W.value a) (W.value b) }
{
    W::cut(a.wide() ^ b.wide())
}

pub fn complement<W: Word>(a: W) -> W
    ensures { W.value result ≡ not_of W.width (W.value a) }
{
    W::cut(!a.wide())
}

// A count is the whole second word. What is shifted by 64 or more is gone, and what by the width or more is cut.
pub fn shl<W: Word>(a: W, k: W) -> W
    ensures { W.value result ≡ shl_of W.width (W.value a) (W.value k) }
{
    let x = a.wide();
    let n = k.wide();
    if n < 64 { W::cut(x << n) } else { W::cut(0) }
}

pub fn shr<W: Word>(a: W, k: W) -> W
    ensures { W.value result ≡ shr_of W.width (W.value a) (W.value k) }
{
    let x = a.wide();
    let n = k.wide();
    if n < 64 { W::cut(x >> n) } else { W::cut(0) }
}

// Of a negative number the complement is shifted, so that ones come in from the top.
pub fn sar<W: Word>(a: W, k: W) -> W
    ensures { W.value result ≡ sar_of W.width (W.value a) (W.value k) }
{
    if negative(a) {
        complement(shr(complement(a), k))
    } else {
        shr(a, k)
    }
}

// 1 for more, 0 for equal, -1 for less, as an int.
pub fn cmp<W: Word>(a: W, b: W) -> u32
    ensures { result ≡ cmp_of (W.value a) (W.value b) }
{
    let x = a.wide();
    let y = b.wide();
    if y < x {
        return 1;
    }
    if x == y {
        return 0;
    }
    0xffff_ffff
}

// The sign bit turned over.
fn turned<W: Word>(a: W) -> W
    ensures { (W.value result ≡ add_of W.width (W.value a) (2 ^ (W.width - 1))) × (W.value a < 2 ^ W.width) }
{
    W::cut(a.wide().wrapping_add(W::top()))
}

// The sign bit turned over makes the signed order the unsigned one.
pub fn icmp<W: Word>(a: W, b: W) -> u32
    ensures { result ≡ icmp_of W.width (W.value a) (W.value b) }
{
    cmp(turned(a), turned(b))
}
