// `push`, and the instructions on locals. A local's slot is the word at frame + 4 + n.
// Words are read `as usize`: with `usize::from`, tried, `load`, `lea` and `store` did not prove in the forms that they have.
ghost use Rattle.std.specs.Prelude.{◌≡◌, ◌+◌, ◌<◌, ◌≤◌, length, drop};
ghost use Rattle.rules.specs.Bytes.{word};
ghost use Rattle.rules.specs.Tables.{Module};
ghost use Rattle.rules.specs.ModuleFile.{read};
ghost use Rattle.rules.specs.Machine.{exec_in};
ghost use Rattle.rules.specs.declared.Instruction.TheVariants.{Push, Load, Store, Lea};
ghost use Rattle.format.specs.Layout.{Packed};
ghost use Rattle.state.specs.State.{state_of, Ready, ReadyOn, Does, Acts};
ghost use Rattle.moves.specs.Moves.{assigned_to};

use crate::stack::pushed;
use format::Sections;
use rules::{Exception, Slot};
use state::{Progress, Registers};

// `push`, of a constant of the lent pool.
pub fn push(
    file: &[u8],
    c: Sections,
    pool: &[u8],
    code: &[u8],
    cap: usize,
    r: Registers,
    p: &mut [u8],
    t: &mut [u8],
) -> Progress
    requires packed { Packed file.now c × (pool.now ≡ drop c.pool file.now) }
    requires ready_on { ReadyOn cap r p.old t.old }
    requires place_lt_stop { (r.place < r.stop) × (r.place + 5 ≤ length code.now) }
    ensures { Acts cap r result p.old t.old p.new t.new (exec_in (read file.now) cap (Push (word 4 code.now (r.place + 1)))) }
{
    let n = keys::operand(code, r.place);
    let found = reader::entries::pooled(pool, c.constants, n as usize);
    let Some(v) = found else {
        return Progress::Stops(Exception::ConstantPoolOutOfRange);
    };
    pushed(cap, r, r.place + 5, v, p, t)
}

// `load`.
pub fn load(
    code: &[u8],
    cap: usize,
    r: Registers,
    f: &[u16],
    p: &mut [u8],
    t: &mut [u8],
) -> Progress
    requires ready { Ready cap r p.old t.old f.now }
    requires place_lt_stop { (r.place < r.stop) × (r.place + 5 ≤ length code.now) }
    ensures { (m : Module) → Does cap r result p.old t.old f.now p.new t.new f.now (exec_in m cap (Load (word 4 code.now (r.place + 1))) (state_of r p.old t.old f.now)) }
{
    let n = keys::operand(code, r.place) as usize;
    let a = r.frame;
    if f[a + 3] as usize <= n {
        return Progress::Stops(Exception::LocalVariableOutOfRange);
    }
    let s = f[a + 4 + n] as usize;
    if r.height <= s {
        return Progress::Stops(Exception::LocalVariableOutOfRange);
    }
    let v = state::slot_at(p, t, s);
    pushed(cap, r, r.place + 5, v, p, t)
}

// `lea`.
pub fn lea(code: &[u8], cap: usize, r: Registers, f: &[u16], p: &mut [u8], t: &mut [u8]) -> Progress
    requires ready { Ready cap r p.old t.old f.now }
    requires place_lt_stop { (r.place < r.stop) × (r.place + 5 ≤ length code.now) }
    ensures { (m : Module) → Does cap r result p.old t.old f.now p.new t.new f.now (exec_in m cap (Lea (word 4 code.now (r.place + 1))) (state_of r p.old t.old f.now)) }
{
    let n = keys::operand(code, r.place) as usize;
    let a = r.frame;
    if f[a + 3] as usize <= n {
        return Progress::Stops(Exception::LocalVariableOutOfRange);
    }
    let s = f[a + 4 + n] as u64;
    let v = Slot {
        kind: 7,
        payload: s,
    };
    pushed(cap, r, r.place + 5, v, p, t)
}

// Moves the top to slot s, which has its type and keeps its type byte.
fn assigned(cap: usize, r: Registers, s: usize, p: &mut [u8], t: &[u8]) -> Progress
    requires ready_on { ReadyOn cap r p.old t.now }
    requires place_lt_stop { r.place < r.stop }
    ensures { Acts cap r result p.old t.now p.new t.now (assigned_to s) }
{
    let h = r.height;
    if h < r.floor + 1 {
        return Progress::Stops(Exception::StackEmpty);
    }
    if h - 1 <= s {
        return Progress::Stops(Exception::LocalVariableInvalidIndex);
    }
    let v = state::slot_at(p, t, h - 1);
    let old = state::slot_at(p, t, s);
    if v.kind != old.kind {
        return Progress::Stops(Exception::StackDifferentType);
    }
    memory::store64(p, s * 8, v.payload);
    Progress::Goes(state::moved(r, r.place + 5, h - 1))
}

// `store`: to a local that is there, or binding the top as the next one.
pub fn store(
    code: &[u8],
    cap: usize,
    r: Registers,
    f: &mut [u16],
    p: &mut [u8],
    t: &[u8],
) -> Progress
    requires ready { Ready cap r p.old t.now f.old }
    requires place_lt_stop { (r.place < r.stop) × (r.place + 5 ≤ length code.now) }
    ensures { (m : Module) → Does cap r result p.old t.now f.old p.new t.now f.new (exec_in m cap (Store (word 4 code.now (r.place + 1))) (state_of r p.old t.now f.old)) }
{
    let n = keys::operand(code, r.place) as usize;
    let a = r.frame;
    let locals = f[a + 3] as usize;
    if n < locals {
        let s = f[a + 4 + n] as usize;
        return assigned(cap, r, s, p, t);
    }
    if n != locals {
        return Progress::Stops(Exception::LocalVariableInvalidIndex);
    }
    if 16 <= n {
        return Progress::Stops(Exception::LocalVariableInvalidIndex);
    }
    let h = r.height;
    if h < r.floor + 1 {
        return Progress::Stops(Exception::StackEmpty);
    }
    f[a + 4 + n] = (h - 1) as u16;
    f[a + 3] = (n + 1) as u16;
    Progress::Goes(state::bound(r, r.place + 5))
}
