// The readers of sums, products and factors. They call each other in a cycle, at most 16 brackets deep; each writes postfix code and
// constants as it reads.
ghost use Rattle.std.specs.Prelude.{◌≡◌, ◌+◌, ◌<◌, ◌≤◌, length};
ghost use Rattle.rules.specs.Grammar.{number, name};
ghost use Rattle.formula.specs.Tokens.{Plain};
ghost use Rattle.formula.specs.Readers.{Ready, AfterSign, Wrote, FactorIs, ProductIs, SumIs, BracketedIs, Signed, Completed, Negated};

use crate::{emit, tokens};

// The place in the line, the bytes of code and the constants written so far, and the most operands so far.
#[derive(Clone, Copy)]
pub struct Cursor {
    pub at: usize,
    pub code: usize,
    pub numbers: usize,
    pub most: usize,
}

// The number v, read up to `next`.
fn number_read(
    s: &[u8],
    code: &mut [u8],
    pool: &mut [u8],
    c: Cursor,
    depth: usize,
    held: usize,
    v: u64,
    next: usize,
) -> Cursor
    requires { Ready 0 s.now code.old pool.old c depth held × AfterSign s.now c next × (v < 4294967296) }
    ensures { Wrote (number v) s.now code.old pool.old c depth held code.new pool.new result × (result.at ≡ next) }
{
    let k = c.numbers;
    let at = c.code;
    emit::put_constant(pool, k, v);
    emit::put_wide(code, at, 1, k as u32);
    Cursor {
        at: next,
        code: at + 5,
        numbers: k + 1,
        most: c.most.max(held + 1),
    }
}

// Parameter i, read up to `next`.
fn name_read(
    s: &[u8],
    code: &mut [u8],
    pool: &[u8],
    c: Cursor,
    depth: usize,
    held: usize,
    i: u32,
    next: usize,
) -> Cursor
    requires { Ready 0 s.now code.old pool.now c depth held × AfterSign s.now c next }
    ensures { Wrote (name i) s.now code.old pool.now c depth held code.new pool.now result × (result.at ≡ next) }
{
    let at = c.code;
    emit::put_wide(code, at, 3, i);
    Cursor {
        at: next,
        code: at + 5,
        most: c.most.max(held + 1),
        ..c
    }
}

// An instruction of one byte behind what was read.
pub(crate) fn operated(code: &mut [u8], c: Cursor, op: u8) -> Cursor
    requires { c.code < length code.old }
    ensures { Signed code.old c op code.new result }
{
    let at = c.code;
    emit::put_bare(code, at, op);
    Cursor { code: at + 1, ..c }
}

// n times `neg` behind what was read.
fn negated(code: &mut [u8], c: Cursor, n: usize) -> Cursor
    requires { c.code + n ≤ length code.old }
    ensures { Negated code.old c n code.new result }
{
    let at = c.code;
    emit::put_negations(code, at, n);
    Cursor { code: at + n, ..c }
}

// The instruction that waited for its right operand, behind what was read; 0 where none did.
fn completed(code: &mut [u8], c: Cursor, op: u8) -> Cursor
    requires { c.code < length code.old }
    ensures { Completed code.old c op code.new result }
{
    if op == 0 {
        return c;
    }
    operated(code, c, op)
}

// The readers answer how far they read; none where no part of the grammar within 16 brackets stands. Minuses, then a number, a name or a
// bracketed sum.
#[cycle(bracketed_factor_plain_product_sum)]
fn factor(
    s: &[u8],
    code: &mut [u8],
    pool: &mut [u8],
    c: Cursor,
    depth: usize,
    held: usize,
) -> Option<Cursor>
    requires { Ready 0 s.now code.old pool.old c depth held }
    ensures { FactorIs s.now code.old pool.old c depth held code.new pool.new result }
{
    let at = c.at;
    let m = tokens::skip_minuses(s, at);
    let r = plain(s, code, pool, Cursor { at: m.at, ..c }, depth, held)?;
    Some(negated(code, r, m.count))
}

// A number, a name or a bracketed sum.
#[cycle(bracketed_factor_plain_product_sum)]
fn plain(
    s: &[u8],
    code: &mut [u8],
    pool: &mut [u8],
    c: Cursor,
    depth: usize,
    held: usize,
) -> Option<Cursor>
    requires { Ready 0 s.now code.old pool.old c depth held × Plain s.now c.at }
    ensures { FactorIs s.now code.old pool.old c depth held code.new pool.new result }
{
    let at = c.at;
    if s.len() <= at {
        return None;
    }
    let b = s[at];
    if b == 40 {
        let next = tokens::skip(s, at + 1);
        return bracketed(s, code, pool, c, next, depth, held);
    }
    if tokens::is_digit(b) {
        let d = tokens::digits(s, at + 1, u64::from(b - 48));
        let v = d.value;
        if 4294967295 < v {
            return None;
        }
        let next = tokens::skip(s, d.at);
        return Some(number_read(s, code, pool, c, depth, held, v, next));
    }
    let i = tokens::name_of(b)?;
    let next = tokens::skip(s, at + 1);
    Some(name_read(s, code, pool, c, depth, held, i, next))
}

// What follows an opening bracket: a sum, one deeper, and the closing bracket. None is read where 16 are open.
#[cycle(bracketed_factor_plain_product_sum)]
fn bracketed(
    s: &[u8],
    code: &mut [u8],
    pool: &mut [u8],
    c: Cursor,
    next: usize,
    depth: usize,
    held: usize,
) -> Option<Cursor>
    requires { Ready 0 s.now code.old pool.old c depth held × AfterSign s.now c next }
    ensures { BracketedIs s.now code.old pool.old c next depth held code.new pool.new result }
{
    if 16 <= depth {
        return None;
    }
    let r = sum(s, code, pool, Cursor { at: next, ..c }, depth + 1, held)?;
    let end = tokens::close_sign(s, r.at)?;
    Some(Cursor { at: end, ..r })
}

// A factor, and signs and factors after it. `op` is the sign that waits for its right operand, 0 before the first.
#[cycle(bracketed_factor_plain_product_sum)]
fn product(
    s: &[u8],
    code: &mut [u8],
    pool: &mut [u8],
    c: Cursor,
    depth: usize,
    held: usize,
) -> Option<Cursor>
    requires { Ready 0 s.now code.old pool.old c depth held }
    ensures { ProductIs s.now code.old pool.old c depth held code.new pool.new result }
{
    let mut done = c;
    let mut op = 0u8;
    let mut under = held;
    loop {
        let r = factor(s, code, pool, done, depth, under)?;
        let q = completed(code, r, op);
        let Some(sign) = tokens::product_sign(s, q.at) else {
            return Some(q);
        };
        op = sign.opcode;
        under = held + 1;
        done = Cursor { at: sign.at, ..q };
    }
}

// A product, and signs and products after it. `op` is the sign that waits for its right operand, 0 before the first.
#[cycle(bracketed_factor_plain_product_sum)]
pub(crate) fn sum(
    s: &[u8],
    code: &mut [u8],
    pool: &mut [u8],
    c: Cursor,
    depth: usize,
    held: usize,
) -> Option<Cursor>
    requires { Ready 0 s.now code.old pool.old c depth held }
    ensures { SumIs s.now code.old pool.old c depth held code.new pool.new result }
{
    let mut done = c;
    let mut op = 0u8;
    let mut under = held;
    loop {
        let r = product(s, code, pool, done, depth, under)?;
        let q = completed(code, r, op);
        let Some(sign) = tokens::sum_sign(s, q.at) else {
            return Some(q);
        };
        op = sign.opcode;
        under = held + 1;
        done = Cursor { at: sign.at, ..q };
    }
}
