// Row 8: one pass over the code, by instruction and body by body.
ghost use Rattle.std.specs.Prelude.{◌≡◌, false, [], ◌≤◌, length, set};
ghost use Rattle.rules.specs.Instructions.{opcodes, opcode_of};
ghost use Rattle.rules.specs.Tables.{bodies, unknown_edition, bad_code};
ghost use Rattle.reader.specs.Cut.{size_in, is_bare, is_wide, bits_of, earlier, Filled, Blank, Cut, Walked, StartsExactly};

use crate::blocks;

// A bit for each opcode of edition 3 that a word follows: 01, 03 to 05, 20 to 27 hex.
const WIDE: u64 = 0x00ff_0000_003a;

// A bit for each that stands alone: 02, 07 to 1F, 28, 2B, 2C, 2E hex.
const BARE: u64 = 0x5900_ffff_ff84;

// The same of edition 1: 01, 03, 04, 1A to 21 hex.
const OLD_WIDE: u64 = 0x0003_fc00_001a;

// 02, 05 to 19, 22 to 25 hex.
const OLD_BARE: u64 = 0x003c_03ff_ffe4;

fn wide_opcodes(edition: usize) -> u64
    ensures { result ≡ bits_of is_wide (earlier edition) }
{
    if edition == 1 {
        return OLD_WIDE;
    }
    WIDE
}

fn bare_opcodes(edition: usize) -> u64
    ensures { result ≡ bits_of is_bare (earlier edition) }
{
    if edition == 1 {
        return OLD_BARE;
    }
    BARE
}

// The bytes of an opcode's instruction; 0 for no opcode. What edition 4 adds to edition 3, 06, 31 and 34, 30, 32 and 33 hex, is looked
// for last: edition 3 pays no test for it.
fn opcode_size(edition: usize, b: u8) -> usize
    requires { unknown_edition edition ≡ false }
    ensures { (result ≡ size_in (opcode_of (opcodes edition) b)) × (result ≤ 5) }
{
    let wide = wide_opcodes(edition);
    let bare = bare_opcodes(edition);
    if 63 < b {
        return 0;
    }
    let k = u64::from(b);
    if (wide >> k) % 2 == 1 {
        return 5;
    }
    if (bare >> k) % 2 == 1 {
        return 1;
    }
    if (edition == 4) & ((b == 6) | (b == 49) | (b == 52)) {
        return 5;
    }
    if (edition == 4) & ((b == 48) | (b == 50) | (b == 51)) {
        return 1;
    }
    0
}

// Marks a place, where the table has it.
fn mark(starts: &mut [u8], p: usize)
    ensures { starts.new ≡ set starts.old p 1 }
{
    if p < starts.len() {
        starts[p] = 1;
        return;
    }
}

// Walks a body; false where an instruction is unknown or crosses the body's end. A place is marked before its byte is
// looked at: no one reads a table of code that fails. After eight one-byte instructions in a row it goes on by blocks.
fn walk_body(edition: usize, code: &[u8], from: usize, to: usize, starts: &mut [u8]) -> bool
    requires from_le_to { (from ≤ to) × (to ≤ length code.now) × (length code.now ≤ 16384) × (unknown_edition edition ≡ false) }
    requires cut { Cut edition code.now from starts.old }
    ensures starts_len_unchanged { length starts.new ≡ length starts.old }
    ensures walked { Walked result edition code.now to starts.new }
{
    // An instruction is one or five bytes, and a block sixteen, so no `for` steps as this place does.
    let mut p = from;
    let mut wait: u32 = 8;
    while p < to {
        mark(starts, p);
        let size = opcode_size(edition, code[p]);
        if size == 0 {
            break;
        }
        p += size;
        if size == 1 {
            wait -= 1;
        } else {
            wait = 8;
        }
        if wait == 0 {
            p = blocks::skip(edition, code, p, to, starts);
            wait = 8;
        }
    }
    p == to
}

// Row 8, of n functions. A blank table gets a mark at each place that begins an instruction, and at no other.
pub(crate) fn bad_code(
    edition: usize,
    n: usize,
    functions: &[u8],
    code: &[u8],
    entry: usize,
    starts: &mut [u8],
) -> bool
    requires filled { Filled edition n functions.now code.now entry × (unknown_edition edition ≡ false) }
    requires blank { Blank starts.old }
    ensures starts_len_unchanged { length starts.new ≡ length starts.old }
    ensures value { result ≡ bad_code (bodies edition functions.now [] code.now entry) }
    ensures starts_exactly { result ≡ false → StartsExactly edition code.now starts.new }
{
    let size = format::function_size(edition);
    let mut from = 0;
    let mut end = entry;
    let mut i = 0;
    // One call walks the entry and the functions: the compiler inlines it only where it has one caller, and a `for` would ask two.
    loop {
        let whole = walk_body(edition, code, from, end, starts);
        if !whole {
            return true;
        }
        if i == n {
            return false;
        }
        let at = size * i;
        from = end;
        end += format::word(functions, at + 4);
        i += 1;
    }
}
