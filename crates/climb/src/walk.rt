// A walk: from a place straight on, up to the next nodes, by heights alone.
ghost use Rattle.std.specs.Prelude.{◌≡◌, true, false, ℕ, suc, ◌+◌, ◌-◌, ◌<◌, ◌≤◌, length, get_or};
ghost use Rattle.std.proofs.Math.Option.{some};
ghost use Rattle.rules.specs.Bytes.{word};
ghost use Rattle.rules.specs.Tables.{Body, body_of, body_end, Function};
ghost use Rattle.rules.specs.ModuleFile.{refusal, read, bodies_in};
ghost use Rattle.format.specs.Layout.{Packed};
ghost use Rattle.keys.specs.Keys.{Keyed};
ghost use Rattle.nodes.specs.Nodes.{Tabled};
ghost use Rattle.tracks.specs.Plans.{result_slots};
ghost use Rattle.tracks.specs.Walks.{Ready, Climbing, Standing};
ghost use Rattle.tracks.specs.Leads.{noted};
ghost use Rattle.tracks.specs.Loop.{Finished};
ghost use Rattle.climb.specs.Waits.{Sizes};
ghost use Rattle.climb.specs.Turns.{spot, Callable, JumpIs, CallIs, OtherAsks, OtherIs};

use format::Sections;

// A place, how many locals there are, where the operands begin, and the height; both counted from the frame's first slot.
#[derive(Clone, Copy)]
pub struct Spot {
    pub at: usize,
    pub locals: usize,
    pub ground_level: usize,
    pub height: usize,
}

// How many slots a function takes and gives.
#[derive(Clone, Copy)]
pub struct Signature {
    pub params: usize,
    pub results: usize,
}

// `store`: to a local, or the top slot becomes one and all operands lie under the ground_level.
fn store(n: usize, s: Spot) -> Spot
    requires { (s.at ≤ 16384) × (s.locals ≤ 16) × (n < s.locals → 1 ≤ s.height) }
    ensures { (n < s.locals → result ≡ spot (s.at + 5) s.locals s.ground_level (s.height - 1)) × (s.locals ≤ n → result ≡ spot (s.at + 5) (s.locals + 1) s.height s.height) }
{
    if n < s.locals {
        return Spot {
            at: s.at + 5,
            locals: s.locals,
            ground_level: s.ground_level,
            height: s.height - 1,
        };
    }
    Spot {
        at: s.at + 5,
        locals: s.locals + 1,
        ground_level: s.height,
        height: s.height,
    }
}

fn slots(file: &[u8], c: Sections, k: usize) -> Signature
    requires { Packed file.now c }
    ensures { (F : Function) → (read file.now).function k ≡ some F → (result.params ≡ length F.params) × (result.results ≡ result_slots F.result) }
{
    let Some(f) = view::function(file, c, k) else {
        return Signature {
            params: 0,
            results: 0,
        };
    };
    if f.result == 0 {
        return Signature {
            params: f.params,
            results: 0,
        };
    }
    Signature {
        params: f.params,
        results: 1,
    }
}

// Where the first argument of function k lies, and one more, is noted if it is larger.
fn note(k: usize, x: usize, row: &mut [u16])
    requires { (k < 128) × (x < 65536) × (length row.old ≡ 128) }
    ensures { row.new ≡ noted row.old k x }
{
    if usize::from(row[k]) < x {
        row[k] = x as u16;
    }
}

// `call`.
fn call(file: &[u8], c: Sections, k: usize, s: Spot, row: &mut [u16]) -> Spot
    requires { Packed file.now c × (s.at ≤ 16384) × (s.height ≤ 544) × (length row.old ≡ 128) × Callable file.now k s.height }
    ensures { CallIs file.now k s row.old result row.new }
{
    let g = slots(file, c, k);
    let under = s.height - g.params;
    note(k, under + 1, row);
    Spot {
        at: s.at + 5,
        locals: s.locals,
        ground_level: s.ground_level,
        height: under + g.results,
    }
}

// Flow to label k.
fn jump(
    file: &[u8],
    c: Sections,
    table: &[u16],
    k: usize,
    ground_level: usize,
    marks: &mut [u8],
    grounds: &mut [u16],
)
    requires packed { Packed file.now c × (refusal file.now ≡ 0) × Tabled file.now table.now }
    requires ground_bound { (ground_level ≤ 512) × Sizes marks.old grounds.old × ((b : Body) × (p : ℕ) × ((read file.now).label k ≡ some (b, p))) }
    ensures { JumpIs file.now table.now k ground_level marks.old grounds.old marks.new grounds.new }
{
    let Some(l) = view::label(file, c, k) else {
        return;
    };
    let place = l.place;
    let v = nodes::table::node_at(table, place);
    crate::waits::arrive(v - 1, ground_level, marks, grounds);
}

// An instruction that does more than change the height.
fn other(
    file: &[u8],
    c: Sections,
    code: &[u8],
    table: &[u16],
    x: usize,
    s: Spot,
    row: &mut [u16],
    marks: &mut [u8],
    grounds: &mut [u16],
) -> Option<Spot>
    requires packed { Packed file.now c × (refusal file.now ≡ 0) × Tabled file.now table.now }
    requires other_asks { OtherAsks file.now code.now x s row.old marks.old grounds.old }
    ensures { OtherIs file.now table.now (word 4 code.now (s.at + 1)) x s row.old marks.old grounds.old result row.new marks.new grounds.new }
{
    if x == crate::effects::RET {
        return None;
    }
    let n = keys::operand(code, s.at) as usize;
    if x == crate::effects::STORE {
        return Some(store(n, s));
    }
    if x == crate::effects::CALL {
        return Some(call(file, c, n, s, row));
    }
    jump(file, c, table, n, s.ground_level, marks, grounds);
    if x == crate::effects::JMP {
        return None;
    }
    Some(Spot {
        at: s.at + 5,
        locals: s.locals,
        ground_level: s.ground_level,
        height: s.height - 1,
    })
}

// Whether there is a node of the body at a place; at its end a node is the next body's.
pub fn met(table: &[u16], q: usize, end: usize) -> bool
    requires { q < length table.now }
    ensures { result ≡ true → (0 < get_or table.now q 0) × (q ≡ end → ⊥) }
{
    if end <= q {
        return false;
    }
    nodes::table::node_at(table, q) != 0
}

// From a spot on, up to the next nodes. The largest height so far, and on the way.
pub fn walk(
    file: &[u8],
    c: Sections,
    code: &[u8],
    table: &[u16],
    owner: usize,
    from: Spot,
    known: usize,
    row: &mut [u16],
    marks: &mut [u8],
    grounds: &mut [u16],
) -> usize
    requires ready { Ready file.now c table.now owner × Keyed file.now code.now 0 }
    requires climbing { Climbing file.now table.now (body_of owner) marks.old grounds.old row.old known }
    requires standing { Standing file.now table.now (body_of owner) from.at from.locals from.ground_level from.height }
    ensures { Finished file.now table.now (body_of owner) from.at from.ground_level marks.old grounds.old row.old known marks.new grounds.new row.new result }
{
    let end = nodes::starts::end(file, c, owner);
    let mut at = from.at;
    let mut locals = from.locals;
    let mut ground_level = from.ground_level;
    let mut height = from.height;
    let mut most = known.max(height);
    loop {
        let Some(b) = keys::decode(code, at, end) else {
            return most;
        };
        let x = crate::effects::effect(b);
        if x < 16 {
            at = at + 1 + 4 * (x / 8);
            height = height + x % 8 - 2;
            most = most.max(height);
            if met(table, at, end) {
                crate::waits::arrive(
                    nodes::table::node_at(table, at) - 1,
                    ground_level,
                    marks,
                    grounds,
                );
                return most;
            }
            continue;
        }
        let turned = other(
            file,
            c,
            code,
            table,
            x,
            Spot {
                at,
                locals,
                ground_level,
                height,
            },
            row,
            marks,
            grounds,
        );
        let Some(t) = turned else {
            return most;
        };
        at = t.at;
        locals = t.locals;
        ground_level = t.ground_level;
        height = t.height;
        most = most.max(height);
        if met(table, at, end) {
            crate::waits::arrive(
                nodes::table::node_at(table, at) - 1,
                ground_level,
                marks,
                grounds,
            );
            return most;
        }
    }
}
