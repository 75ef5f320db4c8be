// Records in the lent room: written, read, compared, zeroed.
ghost use Rattle.std.specs.Prelude.{◌≡◌, true, false, ◌+◌, ◌≤◌, length, take, drop, replicate};
ghost use Rattle.std.proofs.Math.Seq.{paste};

// Writes a record at a byte of the room.
pub(crate) fn save(room: &mut [u8], at: usize, st: &[u8])
    requires { (at + 64 ≤ length room.old) × (length st.now ≡ 64) }
    ensures { room.new ≡ paste room.old at st.now 64 }
{
    room[at..at + 64].copy_from_slice(st);
}

// Reads the record at a byte of the room.
pub fn load(room: &[u8], at: usize, st: &mut [u8])
    requires { (at + 64 ≤ length room.now) × (length st.old ≡ 64) }
    ensures { st.new ≡ take 64 (drop at room.now) }
{
    st.copy_from_slice(&room[at..at + 64]);
}

// Whether the record at a byte of the room is this one. (Byte by byte without a branch, which the compiler does sixteen at a time: the
// library's `==` of slices was a call and took 49 machine instructions more for each.)
pub(crate) fn is_same(room: &[u8], at: usize, st: &[u8]) -> bool
    requires { (at + 64 ≤ length room.now) × (length st.now ≡ 64) }
    ensures room_value { result ≡ true → take 64 (drop at room.now) ≡ st.now }
    ensures fact { result ≡ false → take 64 (drop at room.now) ≡ st.now → ⊥ }
{
    let mut same = true;
    for i in 0..64 {
        same = same & (room[at + i] == st[i]);
    }
    same
}

// Zeroes n bytes.
pub fn zero(room: &mut [u8], at: usize, n: usize)
    requires { at + n ≤ length room.old }
    ensures { room.new ≡ paste room.old at (replicate n 0) n }
{
    room[at..at + n].fill(0);
}
