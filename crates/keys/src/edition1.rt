// Code of edition 1 in keys, so that one machine and one checker serve all editions.
ghost use Rattle.std.specs.Prelude.{◌≡◌, ◌+◌, ◌≤◌, cond, length, eqb};
ghost use Rattle.rules.specs.Instructions.{edition1, opcode_of};
ghost use Rattle.rules.specs.Tables.{due_after};
ghost use Rattle.soundness.specs.Numbering.{key_of};
ghost use Rattle.soundness.specs.Translated.{InKeys};
ghost use Rattle.keys.specs.Keys.{with_word};

// A bit for each opcode of edition 1 that a word follows: 01, 03, 04, 1A to 21 hex.
const WIDE: u64 = 0x0003_fc00_001a;

// The key of an opcode; 0 for no opcode.
fn key(b: u8) -> u8
    ensures { result ≡ key_of 1 b }
{
    if b < 0x05 {
        return b;
    }
    if b < 0x0e {
        return b + 0x06;
    }
    if b < 0x10 {
        return b + 0x1b;
    }
    if b < 0x23 {
        return b + 0x06;
    }
    if b < 0x24 {
        return b + 0x0c;
    }
    if b < 0x26 {
        return b + 0x09;
    }
    0
}

// The operand bytes due behind a byte, where `due` were due before it.
fn due_after(due: u32, b: u8) -> u32
    ensures { result ≡ due_after due (opcode_of edition1 b) }
{
    if 0 < due {
        return due - 1;
    }
    if 0x25 < b {
        return 0;
    }
    let k = u64::from(b);
    if (WIDE >> k) % 2 == 1 {
        return 4;
    }
    0
}

// An opcode's key, an operand byte as it is.
fn in_keys(due: u32, b: u8) -> u8
    ensures { result ≡ cond (eqb due 0) (key_of 1 b) b }
{
    if due == 0 {
        return key(b);
    }
    b
}

// Four bytes from p on, as they are. All are read before one is written: so the compiler copies them at once, as it does not with the
// library's copy.
fn copy_word(code: &[u8], own: &mut [u8], p: usize)
    requires { (p + 4 ≤ length code.now) × (p + 4 ≤ length own.old) }
    ensures { own.new ≡ with_word code.now own.old p }
{
    let w = code[p];
    let x = code[p + 1];
    let y = code[p + 2];
    let z = code[p + 3];
    own[p] = w;
    own[p + 1] = x;
    own[p + 2] = y;
    own[p + 3] = z;
}

// Puts the code in keys into lent bytes: by instruction where a whole one is left for certain, then byte by byte.
pub fn translate(code: &[u8], own: &mut [u8])
    requires { length code.now ≤ length own.old }
    ensures { InKeys 1 code.now own.new }
{
    // An instruction is one or five bytes, so no `for` steps as this place does.
    let mut p = 0;
    while p + 5 <= code.len() {
        let b = code[p];
        let k = key(b);
        own[p] = k;
        let operands = due_after(0, b);
        p += 1;
        if operands == 4 {
            copy_word(code, own, p);
            p += 4;
        }
    }
    let mut due = 0;
    for q in p..code.len() {
        let b = code[q];
        own[q] = in_keys(due, b);
        due = due_after(due, b);
    }
}
