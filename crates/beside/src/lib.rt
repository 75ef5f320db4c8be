// The record beside a module: count and offset, then a byte for each body, the entry first.
#![tactic(auto)]

ghost use Rattle.std.specs.Prelude.{◌≡◌, ◌+◌, ◌-◌, ◌^◌, ◌≤◌, ◌<◌, length, set, ltb, replicate};
ghost use Rattle.std.proofs.Math.Seq.{paste};
ghost use Rattle.rules.specs.Bytes.{byte, some_below};
ghost use Rattle.rules.specs.Tables.{body_of, body_number};
ghost use Rattle.rules.specs.Check as Check;
ghost use Rattle.rules.specs.Results.{check_answer};
ghost use Rattle.rules.specs.Recording.{index_of, record_differs, first_zero, answer_from};
ghost use Rattle.beside.specs.Bodies.{body_at, headed};
ghost use Rattle.beside.specs.Bodies as promises;

use rules::CheckError;

// The number of the entry.
const ENTRY: usize = 0xffff_ffff;

// The number of the i-th body: the entry, then the functions.
pub fn owner_of(i: usize) -> usize
    requires { i ≤ 128 }
    ensures { (result ≡ body_number (body_at i)) × (body_of result ≡ body_at i) × (result < 2 ^ 32) }
{
    if i == 0 {
        return ENTRY;
    }
    i - 1
}

// Which body it is, the entry the first.
pub fn index_of(owner: usize) -> usize
    requires { owner < 2 ^ 32 }
    ensures { result ≡ index_of (body_of owner) }
{
    if owner == ENTRY {
        return 0;
    }
    owner + 1
}

// Sets the byte of the i-th body.
pub fn set_flag(beside: &mut [u8], i: usize, typed: bool)
    requires { (8 + i < length beside.old) × (i ≤ 128) }
    ensures { beside.new ≡ set beside.old (8 + i) (promises.bit typed) }
{
    beside[8 + i] = u8::from(typed);
}

// Count and offset.
pub fn put_head(beside: &mut [u8], bodies: usize)
    requires { (8 ≤ length beside.old) × (bodies < 2 ^ 32) }
    ensures { beside.new ≡ headed beside.old bodies }
{
    memory::store32(beside, 0, bodies as u32);
    memory::store32(beside, 4, 8);
}

// The bytes of so many bodies that have a typing.
pub fn put_ones(beside: &mut [u8], bodies: usize)
    requires { 8 + bodies ≤ length beside.old }
    ensures { beside.new ≡ paste beside.old 8 (replicate bodies 1) bodies }
{
    beside[8..8 + bodies].fill(1);
}

// Whether some byte of a record of so many bodies is over 1.
fn high_byte(beside: &[u8], bodies: usize) -> bool
    requires { 8 + bodies ≤ length beside.now }
    ensures { result ≡ some_below bodies (λ i. ltb 1 (byte beside.now (8 + i))) }
{
    let mut high = false;
    for i in 0..bodies {
        high |= 1 < beside[8 + i];
    }
    high
}

// Whether count, offset or length are others than those of a record of so many bodies, or a byte is over 1.
pub fn differs(beside: &[u8], bodies: usize) -> bool
    requires { (0 < bodies) × (bodies < 2 ^ 32) }
    ensures { result ≡ record_differs (bodies - 1) beside.now }
{
    if beside.len() != 8 + bodies {
        return true;
    }
    let count = memory::load32(beside, 0);
    let offset = memory::load32(beside, 4);
    if (count as usize) != bodies {
        return true;
    }
    if offset != 8 {
        return true;
    }
    high_byte(beside, bodies)
}

// The first body whose byte is 0, by its number.
pub fn first_zero(beside: &[u8], bodies: usize) -> Result<(), CheckError>
    requires { (0 < bodies) × (bodies ≤ 129) × (8 + bodies ≤ length beside.now) }
    ensures { check_answer result ≡ answer_from (first_zero beside.now (Check.bodies (bodies - 1))) }
{
    for i in 0..bodies {
        if beside[8 + i] == 0 {
            return Err(CheckError::Untyped(owner_of(i) as u32));
        }
    }
    Ok(())
}
