// One-byte instructions in blocks of sixteen.
ghost use Rattle.std.specs.Prelude.{◌≡◌, true, false, ◌+◌, ◌≤◌, length};
ghost use Rattle.rules.specs.Instructions.{opcodes, opcode_of};
ghost use Rattle.rules.specs.Tables.{unknown_edition};
ghost use Rattle.reader.specs.Cut.{Cut, is_bare, all_bare, marks};

// Whether an opcode stands alone: 02, 05 to 19, 22 to 25 hex in edition 1; 02, 07 to 1F, 28, 2B, 2C, 2E hex in edition 3; 30,
// 32 and 33 hex too in edition 4.
fn bare(edition: usize, b: u8) -> bool
    requires { unknown_edition edition ≡ false }
    ensures { result ≡ is_bare (opcode_of (opcodes edition) b) }
{
    if edition == 1 {
        return (b == 2) | ((5 <= b) & (b <= 25)) | ((34 <= b) & (b <= 37));
    }
    let third = (b == 2) | ((7 <= b) & (b <= 31)) | (b == 40) | (b == 43) | (b == 44) | (b == 46);
    if edition == 4 {
        return third | (b == 48) | (b == 50) | (b == 51);
    }
    third
}

// Whether sixteen bytes are opcodes that stand alone.
fn all_bare(edition: usize, code: &[u8], p: usize) -> bool
    requires { (p + 16 ≤ length code.now) × (unknown_edition edition ≡ false) }
    ensures { result ≡ all_bare edition code.now p 16 }
{
    let mut good = true;
    for i in 0..16 {
        let g = bare(edition, code[p + i]);
        good = good & g;
    }
    good
}

// Marks a block's places in a table that has them all, and none in one that has none. A table that has some stays: false.
fn mark_block(starts: &mut [u8], p: usize) -> bool
    requires { p ≤ 16384 }
    ensures starts_after { result ≡ true → starts.new ≡ marks starts.old p 16 }
    ensures starts_unchanged { result ≡ false → starts.new ≡ starts.old }
{
    if starts.len() <= p {
        return true;
    }
    if starts.len() < p + 16 {
        return false;
    }
    for i in 0..16 {
        starts[p + i] = 1;
    }
    true
}

// Passes blocks of one-byte instructions and marks them, as many as follow one another; the place where it stops.
// (A `while`: the place that it counts up is its answer, which a `for` would have to count beside.)
pub(crate) fn skip(edition: usize, code: &[u8], from: usize, to: usize, starts: &mut [u8]) -> usize
    requires from_le_to { (from ≤ to) × (to ≤ length code.now) × (length code.now ≤ 16384) × (unknown_edition edition ≡ false) }
    requires cut { Cut edition code.now from starts.old }
    ensures lower_bound { (from ≤ result) × (result ≤ to) }
    ensures starts_len_unchanged { length starts.new ≡ length starts.old }
    ensures cut_2 { Cut edition code.now result starts.new }
{
    let mut p = from;
    while p + 16 <= to {
        let good = all_bare(edition, code, p);
        if !good {
            return p;
        }
        let marked = mark_block(starts, p);
        if !marked {
            return p;
        }
        p += 16;
    }
    p
}
