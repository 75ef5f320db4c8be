// `jmp` and the conditional branches.
ghost use Rattle.std.specs.Prelude.{◌≡◌, Bool, cond, List, ℕ, ◌+◌, ◌-◌, ◌*◌, ◌<◌, ◌≤◌, length};
ghost use Rattle.rules.specs.declared.Instruction.TheVariants.{Jmp, Branch};
ghost use Rattle.rules.specs.declared.Condition.{Condition};
ghost use Rattle.rules.specs.declared.Condition.TheVariants as conditions;
ghost use Rattle.rules.specs.Operations.{holds};
ghost use Rattle.rules.specs.Bytes.{word};
ghost use Rattle.rules.specs.Machine.{exec_in, owned};
ghost use Rattle.rules.specs.ModuleFile.{read, refusal};
ghost use Rattle.format.specs.Layout.{Packed};
ghost use Rattle.state.specs.State.{top_of, moved_to};
ghost use Rattle.state.specs.declared.Progress.TheVariants.{Goes};
ghost use Rattle.control.specs.Control.{place_of, ActsOn, Prepared, PoppedIs, Branches};

use format::Sections;
use rules::Exception;
use state::{Progress, Registers};
use values::Value;

// ---- places

// The place of the label that the instruction names, where it is one of this frame's body. An owner is below 128 or ffffffff,
// so its lower half tells it.
fn target(file: &[u8], c: Sections, code: &[u8], r: Registers, f: &[u16]) -> Option<usize>
    requires packed { Packed file.now c × (refusal file.now ≡ 0) }
    requires place_in_bounds { (r.place + 5 ≤ length code.now) × (r.frame < length f.now) }
    ensures { place_of result ≡ owned (top_of r f.now).body ((read file.now).label (word 4 code.now (r.place + 1))) }
{
    let n = keys::operand(code, r.place);
    let l = view::label(file, c, n as usize)?;
    if l.owner % 65536 != usize::from(f[r.frame]) {
        return None;
    }
    Some(l.place)
}

// `jmp`.
pub fn jmp(file: &[u8], c: Sections, code: &[u8], r: Registers, f: &[u16]) -> Progress
    requires packed { Packed file.now c × (refusal file.now ≡ 0) }
    requires place_in_bounds { (r.place + 5 ≤ length code.now) × (r.frame < length f.now) }
    ensures { (cap : ℕ) (p t : List ℕ) → ActsOn cap r result p t f.now p t f.now (exec_in (read file.now) cap (Jmp (word 4 code.now (r.place + 1)))) }
{
    let Some(place) = target(file, c, code, r, f) else {
        return Progress::Stops(Exception::LabelOutOfRange);
    };
    Progress::Goes(state::moved(r, place, r.height))
}

// ---- branches: the int that is tested leaves the stack, whether the branch is taken or not

// The int on top and the place of the label, or the exception.
fn tested(
    file: &[u8],
    c: Sections,
    code: &[u8],
    r: Registers,
    p: &[u8],
    t: &[u8],
    f: &[u16],
) -> Result<(u32, usize), Exception>
    requires packed { Packed file.now c × (refusal file.now ≡ 0) }
    requires place_in_bounds { (r.place + 5 ≤ length code.now) × Prepared r p.now t.now f.now }
    ensures { PoppedIs result r p.now t.now f.now (read file.now) (word 4 code.now (r.place + 1)) }
{
    let Some(place) = target(file, c, code, r, f) else {
        return Err(Exception::LabelOutOfRange);
    };
    let h = r.height;
    if h < r.floor + 1 {
        return Err(Exception::StackEmpty);
    }
    let Value::Int(v) = values::value_of(state::slot_at(p, t, h - 1)) else {
        return Err(Exception::StackDifferentType);
    };
    Ok((v, place))
}

// Goes on at the label's place where the branch is taken, else behind it.
fn branched(r: Registers, taken: bool, place: usize) -> Progress
    requires { (0 < r.height) × (r.place + 5 < 65536) }
    ensures { result ≡ Goes (moved_to r (cond taken place (r.place + 5)) (r.height - 1)) }
{
    let h = r.height;
    if taken {
        return Progress::Goes(state::moved(r, place, h - 1));
    }
    Progress::Goes(state::moved(r, r.place + 5, h - 1))
}

// What a conditional branch tests of the int that it pops.
pub trait Test {
    ghost condition: { Condition };

    fn taken(v: u32) -> bool
        ensures { result ≡ holds condition v };
}

pub struct Je;

impl Test for Je {
    ghost condition = { conditions.Je };

    fn taken(v: u32) -> bool {
        v == 0
    }
}

pub struct Jne;

impl Test for Jne {
    ghost condition = { conditions.Jne };

    fn taken(v: u32) -> bool {
        v != 0
    }
}

pub struct Ja;

impl Test for Ja {
    ghost condition = { conditions.Ja };

    fn taken(v: u32) -> bool {
        v == 1
    }
}

pub struct Jae;

impl Test for Jae {
    ghost condition = { conditions.Jae };

    fn taken(v: u32) -> bool {
        v != 0xffff_ffff
    }
}

pub struct Jb;

impl Test for Jb {
    ghost condition = { conditions.Jb };

    fn taken(v: u32) -> bool {
        v == 0xffff_ffff
    }
}

pub struct Jbe;

impl Test for Jbe {
    ghost condition = { conditions.Jbe };

    fn taken(v: u32) -> bool {
        v != 1
    }
}

// The branch on this test.
pub fn branch<T: Test>(
    file: &[u8],
    c: Sections,
    code: &[u8],
    r: Registers,
    p: &[u8],
    t: &[u8],
    f: &[u16],
) -> Progress
    requires packed { Packed file.now c × (refusal file.now ≡ 0) }
    requires place_in_bounds { (r.place + 5 ≤ length code.now) × Prepared r p.now t.now f.now × (r.place < r.stop) }
    ensures { Branches T.condition result r p.now t.now f.now (read file.now) (word 4 code.now (r.place + 1)) }
{
    match tested(file, c, code, r, p, t, f) {
        Ok((v, place)) => branched(r, T::taken(v), place),
        Err(e) => Progress::Stops(e),
    }
}
