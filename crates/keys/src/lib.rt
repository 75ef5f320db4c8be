// Decoding: the key of the instruction at a place of the code, and the word behind it.
#![tactic(auto)]

pub mod edition1;

ghost use Rattle.std.specs.Prelude.{◌≡◌, ◌+◌, ◌≤◌, length};
ghost use Rattle.rules.specs.Bytes.{word};
ghost use Rattle.keys.specs.Keys.{decoded};

// The key of the instruction at a place of a body that ends at the place `stop`; none at its end. A key has six bits, so that a match on all of them has no default.
pub fn decode(code: &[u8], place: usize, stop: usize) -> Option<u8>
    requires { stop ≤ length code.now }
    ensures { result ≡ decoded code.now place stop }
{
    if stop <= place {
        return None;
    }
    Some(code[place] % 64)
}

// The word behind the key.
pub fn operand(code: &[u8], place: usize) -> u32
    requires { place + 5 ≤ length code.now }
    ensures { result ≡ word 4 code.now (place + 1) }
{
    memory::load32(code, place + 1)
}
