// The starts of bodies: their places, their ends, and the record of a start.
ghost use Rattle.std.specs.Prelude.{◌≡◌, ◌+◌, ◌≤◌, length};
ghost use Rattle.rules.specs.Tables.{body_of, body_start, body_end};
ghost use Rattle.rules.specs.ModuleFile.{refusal, bodies_in};
ghost use Rattle.format.specs.Layout.{Packed};
ghost use Rattle.soundness.specs.Readable.{Has};
ghost use Rattle.nodes.specs.Nodes.{Copied, Seeded};

use format::Sections;

// Eight parameter types, from a byte of the file on, become the types of the locals.
fn copy_params(file: &[u8], at: usize, st: &mut [u8])
    requires { (at + 8 ≤ length file.now) × (length st.old ≡ 64) }
    ensures { Copied file.now at 8 st.old st.new }
{
    st[16..24].copy_from_slice(&file[at..at + 8]);
}

// The record of a body's start: its parameters and no operands.
pub fn seed(file: &[u8], c: Sections, owner: usize, st: &mut [u8])
    requires packed { Packed file.now c × (refusal file.now ≡ 0) × Has (bodies_in file.now) (body_of owner) }
    requires st_len { length st.old ≡ 64 }
    ensures { Seeded file.now (body_of owner) st.new }
{
    crate::room::zero(st, 0, 64);
    st[0] = 1;
    if owner == 0xffff_ffff {
        return;
    }
    let at = c.records + c.stride * owner;
    st[1] = file[at + 8];
    copy_params(file, at + 10, st);
}

// Where a body starts.
pub fn start(file: &[u8], c: Sections, owner: usize) -> usize
    requires { Packed file.now c × Has (bodies_in file.now) (body_of owner) }
    ensures { result ≡ body_start (bodies_in file.now) (body_of owner) }
{
    if owner == 0xffff_ffff {
        return 0;
    }
    let at = c.records + c.stride * owner;
    format::word(file, at)
}

// Where a body ends.
pub fn end(file: &[u8], c: Sections, owner: usize) -> usize
    requires { Packed file.now c × Has (bodies_in file.now) (body_of owner) }
    ensures { result ≡ body_end (bodies_in file.now) (body_of owner) }
{
    if owner == 0xffff_ffff {
        return c.entry;
    }
    let at = c.records + c.stride * owner;
    let start = format::word(file, at);
    let length = format::word(file, at + 4);
    start + length
}
