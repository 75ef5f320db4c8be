// What an instruction does to the height, by its key.
ghost use Rattle.std.specs.Prelude.{◌≡◌, ◌<◌};
ghost use Rattle.tracks.specs.Plans.{effect_at};

pub const STORE: usize = 16;

pub const JMP: usize = 17;

pub const CALL: usize = 19;

pub const RET: usize = 20;

// Below 8: one byte, and the height changes by this less 2. From 8 to 15: five bytes, and the height changes by this less 10. Then those that do
// more: `store`, `jmp`, a branch, `call`, `ret`. Numbers that are no key count as `ret`. Even and odd keys stand apart: neighbours in one arm would be
// compared and not looked up.
pub fn effect(b: u8) -> usize
    requires { b < 64 }
    ensures { result ≡ effect_at b }
{
    match b {
        0x08 => 0,
        0x02 | 0x0c | 0x0e | 0x10 | 0x12 | 0x14 | 0x16 | 0x18 | 0x1a | 0x1c | 0x1e | 0x32 => 1,
        0x0b | 0x0d | 0x0f | 0x11 | 0x15 | 0x17 | 0x1b | 0x1d | 0x1f => 1,
        0x0a | 0x2a | 0x2c | 0x2e => 2,
        0x07 | 0x13 | 0x19 | 0x29 | 0x2b | 0x2d | 0x2f => 2,
        0x30 => 3,
        0x09 | 0x33 => 3,
        0x06 => 10,
        0x01 | 0x03 | 0x05 | 0x31 | 0x34 => 11,
        0x04 => 16,
        0x20 => 17,
        0x22 | 0x24 | 0x26 => 18,
        0x21 | 0x23 | 0x25 => 18,
        0x27 => 19,
        0x00 | 0x28 | 0x36 | 0x38 | 0x3a | 0x3c | 0x3e => 20,
        0x35 | 0x37 | 0x39 | 0x3b | 0x3d | 0x3f => 20,
        _ => 21,
    }
}
