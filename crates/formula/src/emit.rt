// Code and constants, put behind what was written before.
ghost use Rattle.std.specs.Prelude.{◌≡◌, [], ◌∷◌, ◌++◌, ◌+◌, ◌*◌, ◌<◌, ◌≤◌, length, take, replicate};
ghost use Rattle.rules.specs.Bytes.{bytes};

use memory::{store32, store64};

// An instruction of one byte.
pub fn put_bare(code: &mut [u8], at: usize, op: u8)
    requires { at < length code.old }
    ensures { take (at + 1) code.new ≡ take at code.old ++ (op ∷ []) }
{
    code[at] = op;
}

// n times `neg`.
pub fn put_negations(code: &mut [u8], at: usize, n: usize)
    requires { at + n ≤ length code.old }
    ensures { take (at + n) code.new ≡ take at code.old ++ replicate n 19 }
{
    for i in 0..n {
        code[at + i] = 19;
    }
}

// An instruction with a word behind it.
pub fn put_wide(code: &mut [u8], at: usize, op: u8, w: u32)
    requires { at + 5 ≤ length code.old }
    ensures { take (at + 5) code.new ≡ take at code.old ++ (op ∷ bytes 4 w) }
{
    code[at] = op;
    store32(code, at + 1, w);
}

// Constant k, an int.
pub fn put_constant(pool: &mut [u8], k: usize, v: u64)
    requires { 12 * k + 12 ≤ length pool.old }
    ensures { take (12 * k + 12) pool.new ≡ take (12 * k) pool.old ++ (bytes 4 3 ++ bytes 8 v) }
{
    store32(pool, 12 * k, 3);
    store64(pool, 12 * k + 4, v);
}
