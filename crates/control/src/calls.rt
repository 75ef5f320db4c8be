// `call`, `ret`, and the first frame.
ghost use Rattle.std.specs.Prelude.{◌≡◌, List, ℕ, ◌+◌, ◌*◌, ◌<◌, ◌≤◌, length};
ghost use Rattle.rules.specs.declared.Instruction.TheVariants.{Call, Ret};
ghost use Rattle.rules.specs.Bytes.{byte, word};
ghost use Rattle.rules.specs.Instructions.{type_byte, ty_of, kind_of};
ghost use Rattle.rules.specs.Machine.{exec_in, kinds_match};
ghost use Rattle.rules.specs.Tables.{function_at, function_of, params_from};
ghost use Rattle.rules.specs.ModuleFile.{edition, read, refusal, functions_in};
ghost use Rattle.rules.specs.Stack.{slots_of};
ghost use Rattle.soundness.specs.Kinds.{Kinded};
ghost use Rattle.format.specs.Layout.{Packed};
ghost use Rattle.state.specs.State.{depth_of, state_of, Ready, DoesOrLacks};
ghost use Rattle.control.specs.Control.{ActsOn, Prepared, saved_in, arguments_in, opened_in, first_at, entered_at, restored_at, past_frame};

use format::Sections;
use rules::Exception;
use state::{Progress, Registers};

// ---- call

// The type number of a type byte. Every pointer is 7, every managed one 8.
fn kind_of(b: u8) -> u8
    requires { type_byte (ty_of b) ≡ b }
    ensures { result ≡ kind_of (ty_of b) }
{
    if 192 <= b {
        return 8;
    }
    if 128 <= b {
        return 7;
    }
    b
}

// Whether the n slots from base on have the type numbers of the n parameters of function k, topmost first.
fn alike(file: &[u8], c: Sections, k: usize, n: usize, base: usize, t: &[u8]) -> bool
    requires packed { Packed file.now c × (refusal file.now ≡ 0) }
    requires k_lt_functions { (k < c.functions) × (n ≡ byte (functions_in file.now) (function_at (edition file.now) k + 8)) × (base + n ≤ length t.now) }
    ensures { (p : List ℕ) → result ≡ kinds_match (params_from (functions_in file.now) (function_at (edition file.now) k + 10) n) (slots_of p t.now (base + n)) }
{
    for j in (0..n).rev() {
        let wanted = kind_of(reader::entries::param(file, c, k, j));
        if t[base + j] != wanted {
            return false;
        }
    }
    true
}

// Writes to the frame's words what only the registers have. It goes on behind the call.
fn save(r: Registers, f: &mut [u16])
    requires { (r.frame + 24 ≤ length f.old) × (r.place + 5 < 65536) × (r.stop < 65536) × (r.floor < 65536) }
    ensures { f.new ≡ saved_in f.old r }
{
    let a = r.frame;
    f[a + 1] = (r.place + 5) as u16;
    f[a + 20] = r.stop as u16;
    f[a + 21] = r.floor as u16;
}

// The n slots from base on become the locals of the frame whose words begin at a.
fn bind_arguments(a: usize, base: usize, n: usize, f: &mut [u16])
    requires { (a + 24 ≤ length f.old) × (n ≤ 8) × (base + n ≤ 4096) }
    ensures { f.new ≡ arguments_in f.old a base n }
{
    let at = a + 4;
    for j in 0..n {
        f[at + j] = (base + j) as u16;
    }
}

// Writes the words of a new frame at a, on n arguments from base on.
fn open_frame(a: usize, body: usize, base: usize, n: usize, f: &mut [u16])
    requires { (a + 24 ≤ length f.old) × (body < 65536) × (n ≤ 8) × (base + n ≤ 4096) }
    ensures { f.new ≡ opened_in f.old a body base n }
{
    f[a] = body as u16;
    f[a + 2] = base as u16;
    f[a + 3] = n as u16;
    bind_arguments(a, base, n, f);
}

// Opens the first frame, on n arguments from slot 0 on.
pub fn first_frame(body: usize, start: usize, end: usize, n: usize, f: &mut [u16]) -> Registers
    requires { (24 ≤ length f.old) × (body < 65536) × (n ≤ 8) }
    ensures { (result ≡ first_at start end n) × (f.new ≡ opened_in f.old 0 body 0 n) }
{
    open_frame(0, body, 0, n, f);
    Registers {
        place: start,
        stop: end,
        floor: n,
        frame: 0,
        height: n,
    }
}

// The registers at the start of function k.
fn entered(file: &[u8], c: Sections, k: usize, frame: usize, height: usize) -> Registers
    requires { Packed file.now c × (k < c.functions) }
    ensures { result ≡ entered_at (function_of (edition file.now) (functions_in file.now) (function_at (edition file.now) k)) frame height }
{
    let at = c.records + c.stride * k;
    let start = format::word(file, at);
    Registers {
        place: start,
        stop: start + format::word(file, at + 4),
        floor: height,
        frame,
        height,
    }
}

// `call`. The arguments become the new frame's locals where they are. Words for fewer than 64 frames may be lent: a call that
// finds none for its frame answers 20 too.
pub fn call(
    file: &[u8],
    c: Sections,
    code: &[u8],
    r: Registers,
    t: &[u8],
    f: &mut [u16],
) -> Progress
    requires packed { Packed file.now c × (refusal file.now ≡ 0) }
    requires place_in_bounds { (r.place + 5 ≤ length code.now) × (r.place < r.stop) × ((p : List ℕ) × Prepared r p t.now f.old) }
    ensures { (cap : ℕ) (p : List ℕ) → Ready cap r p t.now f.old → DoesOrLacks cap r result p t.now f.old p t.now f.new (exec_in (read file.now) cap (Call (word 4 code.now (r.place + 1))) (state_of r p t.now f.old)) }
{
    let k = keys::operand(code, r.place) as usize;
    let Some(g) = view::function(file, c, k) else {
        return Progress::Stops(Exception::FunctionOutOfRange);
    };
    let h = r.height;
    let n = g.params;
    if h < n + r.floor {
        return Progress::Stops(Exception::StackEmpty);
    }
    let base = h - n;
    if !alike(file, c, k, n, base, t) {
        return Progress::Stops(Exception::StackDifferentType);
    }
    let frame = r.frame;
    if f.len() < frame + 48 {
        return Progress::Stops(Exception::StackOverflow);
    }
    save(r, f);
    open_frame(frame + 24, k, base, n, f);
    Progress::Goes(entered(file, c, k, frame + 24, h))
}

// ---- ret

// The registers of the frame whose words begin at a.
fn restored(a: usize, height: usize, f: &[u16]) -> Registers
    requires { a + 24 ≤ length f.now }
    ensures { result ≡ restored_at f.now a height }
{
    Registers {
        place: usize::from(f[a + 1]),
        stop: usize::from(f[a + 20]),
        floor: usize::from(f[a + 21]),
        frame: a,
        height,
    }
}

// Drops the running frame, with so many slots left. In the first frame the run is over.
fn leave(r: Registers, height: usize, f: &[u16]) -> Progress
    requires { (r.frame ≤ length f.now) × (r.frame ≡ depth_of r * 24) }
    ensures { result ≡ past_frame (depth_of r) r f.now height }
{
    let frame = r.frame;
    if frame == 0 {
        return Progress::Finishes(state::moved(r, r.place, height));
    }
    Progress::Goes(restored(frame - 24, height, f))
}

// `ret`. The value goes to the frame's first slot. The entry's number, 65535, is no function's.
pub fn ret(
    file: &[u8],
    c: Sections,
    r: Registers,
    p: &mut [u8],
    t: &mut [u8],
    f: &[u16],
) -> Progress
    requires packed { Packed file.now c × (refusal file.now ≡ 0) }
    requires prepared { Prepared r p.old t.old f.now × Kinded (slots_of p.old t.old r.height) }
    ensures { (cap : ℕ) → ActsOn cap r result p.old t.old f.now p.new t.new f.now (exec_in (read file.now) cap Ret) }
{
    let frame = r.frame;
    let Some(g) = view::function(file, c, usize::from(f[frame])) else {
        return Progress::Stops(Exception::FunctionTopOfCallStack);
    };
    let base = usize::from(f[frame + 2]);
    if g.result == 0 {
        return leave(r, base, f);
    }
    let h = r.height;
    if h < r.floor + 1 {
        return Progress::Stops(Exception::StackEmpty);
    }
    let v = state::slot_at(p, t, h - 1);
    if v.kind != g.result && v.kind != kind_of(g.result) {
        return Progress::Stops(Exception::StackDifferentType);
    }
    state::put_slot(p, t, base, v);
    leave(r, base + 1, f)
}
