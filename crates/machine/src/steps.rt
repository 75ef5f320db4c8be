// One step, by the key of the instruction. The three matches are one table of jumps over all 64 keys, and each instruction
// stands in it once.
ghost use Rattle.std.specs.Prelude.{◌≡◌, ℕ, ◌<◌, drop};
ghost use Rattle.rules.specs.ModuleFile.{read, refusal};
ghost use Rattle.format.specs.Layout.{Packed};
ghost use Rattle.keys.specs.Keys.{Known, Outside};
ghost use Rattle.operands.specs.Operands.{Computable};
ghost use Rattle.state.specs.State.{Ready, ReadyOn};
ghost use Rattle.machine.specs.Matches.{wides, numerics, Performs, Stands, Steps};

use arithmetic::operators::{
    Add, And, Div, Idiv, Imod, Imul, Mod, Mul, Or, Sal, Sar, Shl, Shr, Sub, Xor,
};
use control::jumps::{Ja, Jae, Jb, Jbe, Je, Jne};
use format::Sections;
use rules::Exception;
use state::{Progress, Registers};
use values::single::{Count, Neg, Not};

// The instruction is left to who has the heap. Keys that are neighbours have no arm in common, and these exceptions are no other
// exit's, since with no heap at hand neither is raised, so that the table needs no test of ranges.
const LEFT: Exception = Exception::PointerNullPointer;

const LEFT_ODD: Exception = Exception::TypeOutOfRange;

// No run ends with these: a key that is no instruction's is never met.
const NEVER: Exception = Exception::FieldOutOfRange;

const NEVER_EVEN: Exception = Exception::PointerNotStructure;

const NEVER_ODD: Exception = Exception::PointerWholeStructure;

// On the top operand, on bits, comparisons, conversions; `flea`, `null`, `new`, `delete`, `gcnull`, `gcnew` are left.
fn single(r: Registers, b: u8, p: &mut [u8], t: &mut [u8]) -> Progress
    requires known { Known b × Outside b wides × Outside b numerics }
    requires computable { Computable r p.old t.old }
    ensures { (cap : ℕ) → Performs b cap r result p.old t.old p.new t.new }
{
    match b {
        0x02 => moves::stack::pop(r),
        0x13 => operands::single::change::<Neg>(r, p, t),
        0x16 => operands::operators::operate::<And>(r, p, t),
        0x17 => operands::operators::operate::<Or>(r, p, t),
        0x18 => operands::operators::operate::<Xor>(r, p, t),
        0x19 => operands::single::change::<Not>(r, p, t),
        0x1a => operands::operators::operate::<Shl>(r, p, t),
        0x1b => operands::operators::operate::<Sal>(r, p, t),
        0x1c => operands::operators::operate::<Shr>(r, p, t),
        0x1d => operands::operators::operate::<Sar>(r, p, t),
        0x1e => operands::comparison::compare::<false>(r, p, t),
        0x1f => operands::comparison::compare::<true>(r, p, t),
        0x2b => operands::single::toi(true, r, p, t),
        0x2c => operands::single::tol(true, r, p, t),
        0x2e => operands::single::tod(r, p, t),
        0x29 => operands::single::change::<Count<true>>(r, p, t),
        0x2a => operands::single::change::<Count<false>>(r, p, t),
        0x2d => operands::single::tol(false, r, p, t),
        0x2f => operands::single::toi(false, r, p, t),
        0x06 | 0x30 | 0x32 | 0x34 => Progress::Stops(LEFT),
        0x31 | 0x33 => Progress::Stops(LEFT_ODD),
        0x00 | 0x36 | 0x38 | 0x3a | 0x3c | 0x3e => Progress::Stops(NEVER_EVEN),
        0x35 | 0x37 | 0x39 | 0x3b | 0x3d | 0x3f => Progress::Stops(NEVER_ODD),
        _ => Progress::Stops(NEVER),
    }
}

// Through pointers, copies, arithmetic.
fn numeric(cap: usize, r: Registers, b: u8, p: &mut [u8], t: &mut [u8]) -> Progress
    requires known { Known b × Outside b wides }
    requires ready_on { ReadyOn cap r p.old t.old × Computable r p.old t.old }
    ensures { Performs b cap r result p.old t.old p.new t.new }
{
    match b {
        0x07 => moves::pointers::tload(cap, r, p, t),
        0x08 => moves::pointers::tstore(cap, r, p, t),
        0x09 => moves::stack::copy(cap, r, p, t),
        0x0a => moves::stack::swap(cap, r, p, t),
        0x0b => operands::operators::operate::<Add>(r, p, t),
        0x0c => operands::operators::operate::<Sub>(r, p, t),
        0x0d => operands::operators::operate::<Mul>(r, p, t),
        0x0e => operands::operators::operate::<Imul>(r, p, t),
        0x0f => operands::operators::operate::<Div>(r, p, t),
        0x10 => operands::operators::operate::<Idiv>(r, p, t),
        0x11 => operands::operators::operate::<Mod>(r, p, t),
        0x12 => operands::operators::operate::<Imod>(r, p, t),
        0x14 => operands::pointers::bump::<true>(r, p, t),
        0x15 => operands::pointers::bump::<false>(r, p, t),
        _ => single(r, b, p, t),
    }
}

// The instruction with key b at the place, done. Here those with a word, and `ret`.
pub(crate) fn step(
    file: &[u8],
    c: Sections,
    pool: &[u8],
    code: &[u8],
    cap: usize,
    r: Registers,
    b: u8,
    p: &mut [u8],
    t: &mut [u8],
    f: &mut [u16],
) -> Progress
    requires packed { Packed file.now c × (refusal file.now ≡ 0) × (pool.now ≡ drop c.pool file.now) }
    requires place_lt_stop { (r.place < r.stop) × Stands code.now r.place b }
    requires ready { Ready cap r p.old t.old f.old × Computable r p.old t.old }
    ensures { Steps (read file.now) cap code.now r result p.old t.old f.old p.new t.new f.new }
{
    match b {
        0x01 => moves::locals::push(file, c, pool, code, cap, r, p, t),
        0x03 => moves::locals::load(code, cap, r, f, p, t),
        0x04 => moves::locals::store(code, cap, r, f, p, t),
        0x05 => moves::locals::lea(code, cap, r, f, p, t),
        0x20 => control::jumps::jmp(file, c, code, r, f),
        0x21 => control::jumps::branch::<Je>(file, c, code, r, p, t, f),
        0x22 => control::jumps::branch::<Jne>(file, c, code, r, p, t, f),
        0x23 => control::jumps::branch::<Ja>(file, c, code, r, p, t, f),
        0x24 => control::jumps::branch::<Jae>(file, c, code, r, p, t, f),
        0x25 => control::jumps::branch::<Jb>(file, c, code, r, p, t, f),
        0x26 => control::jumps::branch::<Jbe>(file, c, code, r, p, t, f),
        0x27 => control::calls::call(file, c, code, r, t, f),
        0x28 => control::calls::ret(file, c, r, p, t, f),
        _ => numeric(cap, r, b, p, t),
    }
}
