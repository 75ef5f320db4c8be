// One instruction judged by types alone, on the lists of a record: the checker's transfer function.
#![tactic(auto)]

ghost use Rattle.std.specs.Prelude.{◌≡◌, Bool, List, ℕ, ◌+◌, ◌^◌, ◌<◌, ◌≤◌, eqb};
ghost use Rattle.rules.specs.declared.Condition.{Condition};
ghost use Rattle.rules.specs.declared.Instruction.TheVariants.{Push, Jmp, Branch, Call, Ret, New, Flea};
ghost use Rattle.rules.specs.Bytes.{byte, word};
ghost use Rattle.rules.specs.Instructions.{pointer_byte};
ghost use Rattle.rules.specs.Tables.{Body, Module, body_of, function_at, params_from};
ghost use Rattle.rules.specs.ModuleFile.{edition, structures, read, refusal, functions_in};
ghost use Rattle.rules.specs.Machine.{owned};
ghost use Rattle.format.specs.Layout.{Packed};
ghost use Rattle.records.specs.Record.{Holds, IsType};
ghost use Rattle.keys.specs.Keys.{Known, Outside};
ghost use Rattle.transfer.specs.Transfers.{Judges, Pushes, place_of, Stripped, KeyAt, Moves, made, Numbered, field_type, firsts, seconds};

use format::Sections;
use records::Transfer;

// ---- constants

// Puts the type t on top of the operands, where there are not 32 yet.
fn push_type(t: u8, q: usize, st: &mut [u8]) -> Transfer
    requires { Holds st.old × IsType t }
    ensures { Pushes t q st.old result st.new }
{
    if 32 <= st[2] {
        return Transfer::Breaks;
    }
    records::push(st, t);
    Transfer::Falls(q)
}

// `push`, of constant k.
fn push_constant(file: &[u8], c: Sections, k: u32, q: usize, st: &mut [u8]) -> Transfer
    requires packed { Packed file.now c × (refusal file.now ≡ 0) }
    requires holds { Holds st.old }
    ensures { (b : Body) → Judges (read file.now) b (Push k) q st.old result st.new }
{
    let Some(v) = view::constant(file, c, k as usize) else {
        return Transfer::Breaks;
    };
    push_type(v.kind, q, st)
}

// ---- labels

// The place of label k, where it is one of this body's.
fn target(file: &[u8], c: Sections, owner: usize, k: u32) -> Option<usize>
    requires { Packed file.now c }
    ensures { place_of result ≡ owned (body_of owner) ((read file.now).label k) }
{
    let l = view::label(file, c, k as usize)?;
    if l.owner != owner {
        return None;
    }
    Some(l.place)
}

// `jmp`.
fn jmp(file: &[u8], c: Sections, owner: usize, k: u32) -> Transfer
    requires { Packed file.now c }
    ensures { (q : ℕ) (r : List ℕ) → Holds r → Judges (read file.now) (body_of owner) (Jmp k) q r result r }
{
    let Some(place) = target(file, c, owner, k) else {
        return Transfer::Breaks;
    };
    Transfer::Jumps(place)
}

// A conditional branch. Both ways are open, and the int leaves the operands on both.
fn branch(file: &[u8], c: Sections, owner: usize, k: u32, q: usize, st: &mut [u8]) -> Transfer
    requires packed { Packed file.now c }
    requires holds { Holds st.old }
    ensures { (o : Condition) → Judges (read file.now) (body_of owner) (Branch o k) q st.old result st.new }
{
    let Some(place) = target(file, c, owner, k) else {
        return Transfer::Breaks;
    };
    let n = usize::from(st[2]);
    if n == 0 {
        return Transfer::Breaks;
    }
    if st[31 + n] != 3 {
        return Transfer::Breaks;
    }
    records::pop(st);
    Transfer::Forks(place, q)
}

// ---- functions

// Takes the arguments of function k, which has n parameters, from the operands. Answers whether they have its types.
fn take_arguments(file: &[u8], c: Sections, k: usize, n: usize, st: &mut [u8]) -> bool
    requires packed { Packed file.now c × (k < c.functions) × (n ≤ 8) }
    requires by_index { (j : ℕ) → j < n → IsType (byte (functions_in file.now) (function_at (edition file.now) k + 10 + j)) }
    requires holds { Holds st.old }
    ensures { Stripped (params_from (functions_in file.now) (function_at (edition file.now) k + 10) n) st.old result st.new }
{
    for j in (0..n).rev() {
        let m = usize::from(st[2]);
        if m == 0 {
            return false;
        }
        let wanted = reader::entries::param(file, c, k, j);
        if st[31 + m] != wanted {
            return false;
        }
        records::pop(st);
    }
    true
}

// `call`. It goes past itself, the result in place of the arguments.
fn call(file: &[u8], c: Sections, k: u32, q: usize, st: &mut [u8]) -> Transfer
    requires packed { Packed file.now c × (refusal file.now ≡ 0) }
    requires holds { Holds st.old }
    ensures { (b : Body) → Judges (read file.now) b (Call k) q st.old result st.new }
{
    let number = k as usize;
    let Some(f) = view::function(file, c, number) else {
        return Transfer::Breaks;
    };
    let alike = take_arguments(file, c, number, f.params, st);
    if !alike {
        return Transfer::Breaks;
    }
    if f.result == 0 {
        return Transfer::Falls(q);
    }
    push_type(f.result, q, st)
}

// `ret`. The entry's number is no function's.
fn ret(file: &[u8], c: Sections, owner: usize, st: &[u8]) -> Transfer
    requires packed { Packed file.now c × (refusal file.now ≡ 0) }
    requires holds { Holds st.now }
    ensures { (q : ℕ) → Judges (read file.now) (body_of owner) Ret q st.now result st.now }
{
    let Some(f) = view::function(file, c, owner) else {
        return Transfer::Breaks;
    };
    if f.result == 0 {
        return Transfer::Stops;
    }
    let n = usize::from(st[2]);
    if n == 0 {
        return Transfer::Breaks;
    }
    if st[31 + n] != f.result {
        return Transfer::Breaks;
    }
    Transfer::Stops
}

// ---- structures

// Whether the module is of edition 4. What edition 4 alone has is read from the header where it is met: a walk keeps its
// registers for what it always needs.
fn fourth(file: &[u8]) -> bool
    requires { refusal file.now ≡ 0 }
    ensures { result ≡ eqb (edition file.now) 4 }
{
    format::word(file, 0) == 4
}

// How many structures are declared.
fn declared(file: &[u8]) -> usize
    requires { refusal file.now ≡ 0 }
    ensures { result ≡ structures file.now }
{
    let some = fourth(file);
    if !some {
        return 0;
    }
    format::word(file, 48)
}

// Whether `new` takes the type number k where there are so many structures, which are numbered from 10 on.
fn makes(structures: usize, k: usize) -> bool
    requires { structures ≤ 16 }
    ensures { result ≡ made structures k }
{
    (k == 3) | (k == 4) | (k == 6) | ((10 <= k) & (k < 10 + structures))
}

// `new` and `gcnew`, of the type number n. The type byte of `null` or `gcnull` says which of the two.
fn new(null: u8, structures: usize, n: u32, q: usize, st: &mut [u8]) -> Transfer
    requires { Holds st.old × (structures ≤ 16) × (128 ≤ null) × (null ≤ 192) }
    ensures { (g : Bool) → null ≡ pointer_byte g → (m : Module) (b : Body) → Numbered m structures → Judges m b (New g n) q st.old result st.new }
{
    let k = n as usize;
    let there = makes(structures, k);
    if !there {
        return Transfer::Breaks;
    }
    push_type(null + (k as u8), q, st)
}

// The type of field n of structure i, counted from 0; 0 where there is none.
fn field(file: &[u8], i: usize, n: usize) -> u8
    requires { refusal file.now ≡ 0 }
    ensures { result ≡ field_type (read file.now) (10 + i) n }
{
    let count = declared(file);
    if count <= i {
        return 0;
    }
    let at = format::word(file, 52) + 12 * i;
    if usize::from(file[at]) <= n {
        return 0;
    }
    file[at + 1 + n]
}

// `flea`. A pointer to structure i, counted from 0, has the type byte 138 + i, a managed one 202 + i: what it points to are its low
// six bits, the rest stays.
fn flea(file: &[u8], n: u32, q: usize, st: &mut [u8]) -> Transfer
    requires file_value { refusal file.now ≡ 0 }
    requires holds { Holds st.old }
    ensures { (b : Body) → Judges (read file.now) b (Flea n) q st.old result st.new }
{
    let h = usize::from(st[2]);
    if h < 1 {
        return Transfer::Breaks;
    }
    let t = st[31 + h];
    if t < 128 {
        return Transfer::Breaks;
    }
    let k = usize::from(t) % 64;
    if k < 10 {
        return Transfer::Breaks;
    }
    let to = field(file, k - 10, n as usize);
    if to == 0 {
        return Transfer::Breaks;
    }
    records::retype(st, t - t % 64 + to);
    Transfer::Falls(q)
}

// ---- by the key of an instruction, in three matches that the compiler makes one. Every number below 64 is a key of theirs, so
// that the jump has no default. Those of the last two arms are no instruction's, and are never met; as no two neighbours stand
// in one arm, they stay in the jump's table.

// The last of those that need neither word nor file.
fn other(b: u8, p: usize, st: &mut [u8]) -> Transfer
    requires known { Known b × Outside b seconds × (p < 2 ^ 32) }
    requires holds { Holds st.old }
    ensures { (m : Module) (d : Body) (w : ℕ) → Moves m d b w p st.old result st.new }
{
    match b {
        0x13 => records::operands::keep(6, p + 1, st),
        0x14 => records::pointers::bump(p + 1, st),
        0x15 => records::pointers::bump(p + 1, st),
        0x16 => records::operands::arith(4, p + 1, st),
        0x17 => records::operands::arith(4, p + 1, st),
        0x18 => records::operands::arith(4, p + 1, st),
        0x19 => records::operands::keep(4, p + 1, st),
        0x1a => records::operands::arith(4, p + 1, st),
        0x1b => records::operands::arith(4, p + 1, st),
        0x1c => records::operands::arith(4, p + 1, st),
        0x1d => records::operands::arith(4, p + 1, st),
        0x29 => records::operands::keep(6, p + 1, st),
        0x2a => records::operands::keep(6, p + 1, st),
        0x2b => records::operands::convert(3, p + 1, st),
        0x2c => records::operands::convert(4, p + 1, st),
        0x2d => records::operands::convert(4, p + 1, st),
        0x2e => records::operands::convert(6, p + 1, st),
        0x2f => records::operands::convert(3, p + 1, st),
        0x30 => push_type(128, p + 1, st),
        0x32 => records::pointers::delete(p + 1, st),
        0x33 => push_type(192, p + 1, st),
        0x00 | 0x36 | 0x38 | 0x3a | 0x3c | 0x3e => Transfer::Breaks,
        0x35 | 0x37 | 0x39 | 0x3b | 0x3d | 0x3f => Transfer::Stops,
        _ => Transfer::Jumps(0),
    }
}

// Those that need neither word nor file.
fn single(b: u8, p: usize, st: &mut [u8]) -> Transfer
    requires known { Known b × Outside b firsts × (p < 2 ^ 32) }
    requires holds { Holds st.old }
    ensures { (m : Module) (d : Body) (w : ℕ) → Moves m d b w p st.old result st.new }
{
    match b {
        0x02 => records::operands::pop(p + 1, st),
        0x07 => records::pointers::tload(p + 1, st),
        0x08 => records::pointers::tstore(p + 1, st),
        0x09 => records::operands::copy(p + 1, st),
        0x0a => records::operands::swap(p + 1, st),
        0x0b => records::operands::arith(6, p + 1, st),
        0x0c => records::operands::arith(6, p + 1, st),
        0x0d => records::operands::arith(6, p + 1, st),
        0x0e => records::operands::arith(6, p + 1, st),
        0x0f => records::operands::arith(6, p + 1, st),
        0x10 => records::operands::arith(6, p + 1, st),
        0x11 => records::operands::arith(4, p + 1, st),
        0x12 => records::operands::arith(4, p + 1, st),
        _ => other(b, p, st),
    }
}

// What follows from the place p, where the key b stands.
pub fn transfer(
    file: &[u8],
    c: Sections,
    code: &[u8],
    owner: usize,
    p: usize,
    b: u8,
    st: &mut [u8],
) -> Transfer
    requires packed { Packed file.now c × (refusal file.now ≡ 0) }
    requires holds { Holds st.old × KeyAt code.now p b }
    ensures { Moves (read file.now) (body_of owner) b (word 4 code.now (p + 1)) p st.old result st.new }
{
    match b {
        0x01 => push_constant(file, c, keys::operand(code, p), p + 5, st),
        0x03 => records::locals::load(keys::operand(code, p), p + 5, st),
        0x04 => records::locals::store(keys::operand(code, p), p + 5, st),
        0x05 => records::locals::lea(keys::operand(code, p), p + 5, st),
        0x06 => flea(file, keys::operand(code, p), p + 5, st),
        0x1e => records::operands::compare(fourth(file), p + 1, st),
        0x1f => records::operands::compare(fourth(file), p + 1, st),
        0x20 => jmp(file, c, owner, keys::operand(code, p)),
        0x21 => branch(file, c, owner, keys::operand(code, p), p + 5, st),
        0x22 => branch(file, c, owner, keys::operand(code, p), p + 5, st),
        0x23 => branch(file, c, owner, keys::operand(code, p), p + 5, st),
        0x24 => branch(file, c, owner, keys::operand(code, p), p + 5, st),
        0x25 => branch(file, c, owner, keys::operand(code, p), p + 5, st),
        0x26 => branch(file, c, owner, keys::operand(code, p), p + 5, st),
        0x27 => call(file, c, keys::operand(code, p), p + 5, st),
        0x28 => ret(file, c, owner, st),
        0x31 => new(128, declared(file), keys::operand(code, p), p + 5, st),
        0x34 => new(192, declared(file), keys::operand(code, p), p + 5, st),
        _ => single(b, p, st),
    }
}
