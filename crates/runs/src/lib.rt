// The run of a body by number on lent arguments: refusals, the arguments in their slots, the first frame, the heap, the answer.
#![tactic(auto)]

ghost use Rattle.std.specs.Prelude.{ℕ, ◌≡◌, ◌+◌, ◌-◌, ◌*◌, ◌<◌, ◌≤◌, length};
ghost use Rattle.rules.specs.Answers as Answers;
ghost use Rattle.rules.specs.Results.{run_answer};
ghost use Rattle.rules.specs.Instructions.{ty_of};
ghost use Rattle.rules.specs.Machine.{outcome};
ghost use Rattle.rules.specs.Tables.{body_of, function_at, params_from};
ghost use Rattle.rules.specs.ModuleFile.{edition, read, refusal, functions_in};
ghost use Rattle.format.specs.Layout.{Packed};
ghost use Rattle.keys.specs.Keys.{Keyed};
ghost use Rattle.state.specs.State.{memory_of};
ghost use Rattle.machine.specs.Ends.{number_of, Fits};
ghost use Rattle.runs.specs.Runs.{lent_of, slots_in, cells_in, cleared_to, ClosedAs, RunIs, Empty, Emptied, Standing, RestIs, RunsOver, is_over, suits, Copied, FoundIs, Named, Begins};

use format::Sections;
use machine::Ended;
use rules::{Exception, Refusal, RunError, Slot, Tally};
use state::Progress;

const ENTRY: u32 = 0xffff_ffff;

// ---- lent slots

// The smaller number of whole slots, at most 4,096.
pub fn capacity(p: &[u8], t: &[u8]) -> usize
    ensures { result ≡ slots_in p.now t.now }
{
    (p.len() / 8).min(t.len()).min(4096)
}

// The smaller number of whole cells and entries, at most 4,096.
pub fn heap_capacity(cells: &[u8], table: &[u8]) -> usize
    ensures { result ≡ cells_in cells.now table.now }
{
    (cells.len() / 8).min(table.len() / 24).min(4096)
}

// Zeros from a to e.
fn clear_part(s: &mut [u8], a: usize, e: usize)
    requires { (a ≤ e) × (e ≤ length s.old) }
    ensures { s.new ≡ cleared_to s.old a e }
{
    s[a..e].fill(0);
}

// Ends a run: clears the slots from the height to the capacity, and counts. What the run ends with is the caller's.
pub fn close(steps: u64, height: usize, cap: usize, p: &mut [u8], t: &mut [u8]) -> Tally
    requires { (cap ≡ slots_in p.old t.old) × (height ≤ cap) }
    ensures { (number : ℕ) → ClosedAs (outcome number steps (memory_of p.old t.old height)) p.old t.old p.new t.new (Answers.answered number result) }
{
    clear_part(p, height * 8, cap * 8);
    clear_part(t, height, cap);
    Tally {
        steps,
        height: height as u64,
    }
}

// The answer of a run that ends so.
fn ended(stop: Option<Exception>, tally: Tally) -> Result<Tally, RunError>
    ensures { run_answer result ≡ Answers.answered (number_of stop) tally }
{
    match stop {
        None => Ok(tally),
        Some(e) => Err(RunError::Stopped(e, tally)),
    }
}

// Clears the lent heap, up to its capacity.
pub fn clear_heap(cells: &mut [u8], table: &mut [u8])
    ensures { Emptied cells.old table.old cells.new table.new }
{
    let size = heap_capacity(cells, table);
    heap::blocks::start(cells, table, size);
}

// ---- arguments

// Whether v is a value for a parameter with this type byte. None is for a pointer.
fn takes(b: u8, v: Slot) -> bool
    ensures { result ≡ suits (ty_of b) v }
{
    if v.kind != b {
        return false;
    }
    if b == 3 {
        return v.payload < 4294967296;
    }
    if b == 4 {
        return true;
    }
    b == 6
}

// Whether these are arguments for the n parameters of function k.
fn admits(file: &[u8], c: Sections, k: usize, n: usize, args: &[u8], kinds: &[u8]) -> bool
    requires { Packed file.now c × (n ≤ 8) × (0 < n → k < c.functions) }
    ensures { result ≡ Answers.admitted (params_from (functions_in file.now) (function_at (edition file.now) k + 10) n) (lent_of args.now kinds.now) }
{
    if kinds.len() != n {
        return false;
    }
    if args.len() != n * 8 {
        return false;
    }
    for j in (0..n).rev() {
        let b = reader::entries::param(file, c, k, j);
        let v = state::slot_at(args, kinds, j);
        if !takes(b, v) {
            return false;
        }
    }
    true
}

// Puts n arguments into the first slots.
pub fn copy_arguments(args: &[u8], kinds: &[u8], n: usize, p: &mut [u8], t: &mut [u8])
    requires { (n * 8 ≤ length args.now) × (n ≤ length kinds.now) × (n * 8 ≤ length p.old) × (n ≤ length t.old) }
    ensures { Copied args.now kinds.now p.old t.old n p.new t.new }
{
    for i in 0..n {
        let v = state::slot_at(args, kinds, i);
        state::put_slot(p, t, i, v);
    }
}

// ---- bodies

// A body's places go from start up to end. body is the function's number, 65535 for the entry.
#[derive(Clone, Copy)]
struct BodyRecord {
    body: usize,
    start: usize,
    end: usize,
    params: usize,
}

// The body that the host names.
fn find(file: &[u8], c: Sections, function: u32) -> Option<BodyRecord>
    requires { Packed file.now c × (refusal file.now ≡ 0) }
    ensures { FoundIs file.now c function result }
{
    if function == ENTRY {
        return Some(BodyRecord {
            body: 65535,
            start: 0,
            end: c.entry,
            params: 0,
        });
    }
    let body = function as usize;
    let g = view::function(file, c, body)?;
    Some(BodyRecord {
        body,
        start: g.start,
        end: g.end,
        params: g.params,
    })
}

// Whether a body is made for another profile than the scan's. Only functions of edition 4 name one, in their last word.
pub fn other_profile(file: &[u8], c: Sections, function: u32, profile: u32) -> bool
    requires { Packed file.now c × (refusal file.now ≡ 0) × Named file.now function }
    ensures { result ≡ Answers.other_profile (Answers.made_for (read file.now) (body_of function)) profile }
{
    if c.stride != 24 {
        return false;
    }
    if function == ENTRY {
        return false;
    }
    let k = function as usize;
    let made = format::word(file, c.records + 24 * k + 20) as u32;
    (made != 0) & (made != profile)
}

// ---- the run

// Whether a run for which few words and no heap were at hand is over.
fn is_over(stop: Option<Exception>) -> bool
    ensures { result ≡ is_over (number_of stop) }
{
    match stop {
        Some(Exception::StackOverflow) => false,
        _ => !machine::left(stop),
    }
}

// Copies words, so that frames go on where more are lent.
fn copy_words(from: &[u16], to: &mut [u16])
    requires { length from.now ≤ length to.old }
    ensures { Begins to.new from.now }
{
    to[..from.len()].copy_from_slice(from);
}

// The rest of a run over the heap, which has no blocks yet: the machine as far as it goes without the heap, then the instruction
// that it left, and on.
pub fn run_over(
    file: &[u8],
    c: Sections,
    cap: usize,
    size: usize,
    e: Ended,
    p: &mut [u8],
    t: &mut [u8],
    f: &mut [u16],
    source: &[u8],
    from: usize,
    cells: &mut [u8],
    table: &mut [u8],
) -> Ended
    requires packed { Packed file.now c × (refusal file.now ≡ 0) × Keyed file.now source.now from }
    requires fits { Fits (read file.now) cap e.last p.old t.old f.old × Empty size cells.old table.old × (length f.old ≡ 1536) }
    ensures { RunsOver file.now cap size e.last e.rest result p.old t.old f.old cells.old table.old p.new t.new cells.new table.new }
{
    let mut shelf = [0u64; 4];
    shelf[1] = 1;
    let code = &source[from..];
    let mut last = e.last;
    let mut rest = e.rest;
    loop {
        let g = machine::run_from(file, c, cap, last, rest, p, t, f, source, from);
        if !machine::left(g.stop) {
            return g;
        }
        let r = g.last;
        match access::step(file, c, code, cap, size, r, &mut shelf, p, t, cells, table) {
            Progress::Goes(q) => {
                last = q;
                rest = g.rest - 1;
            }
            Progress::Finishes(q) => {
                return Ended {
                    stop: None,
                    rest: g.rest - 1,
                    last: q,
                };
            }
            Progress::Stops(n) => {
                return Ended {
                    stop: Some(n),
                    rest: g.rest,
                    last: r,
                };
            }
        }
    }
}

// The rest of a run, with words for all 64 frames, on code that is lent in keys.
fn finish(
    file: &[u8],
    c: Sections,
    cap: usize,
    e: Ended,
    allowance: u64,
    p: &mut [u8],
    t: &mut [u8],
    f: &mut [u16],
    source: &[u8],
    from: usize,
    cells: &mut [u8],
    table: &mut [u8],
) -> Result<Tally, RunError>
    requires packed { Packed file.now c × (refusal file.now ≡ 0) × Keyed file.now source.now from }
    requires standing { Standing file.now cap e allowance p.old t.old f.old cells.old table.old × (length f.old ≡ 1536) }
    ensures { RestIs file.now cap e allowance p.old t.old f.old cells.old table.old p.new t.new cells.new table.new (run_answer result) }
{
    let size = heap_capacity(cells, table);
    let g = run_over(file, c, cap, size, e, p, t, f, source, from, cells, table);
    let tally = close(allowance - g.rest, g.last.height, cap, p, t);
    ended(g.stop, tally)
}

// The same of edition 1, whose code is put in keys first.
fn finish_old(
    file: &[u8],
    c: Sections,
    cap: usize,
    e: Ended,
    allowance: u64,
    p: &mut [u8],
    t: &mut [u8],
    f: &mut [u16],
    cells: &mut [u8],
    table: &mut [u8],
) -> Result<Tally, RunError>
    requires packed { Packed file.now c × (refusal file.now ≡ 0) × (edition file.now ≡ 1) }
    requires standing { Standing file.now cap e allowance p.old t.old f.old cells.old table.old × (length f.old ≡ 1536) }
    ensures { RestIs file.now cap e allowance p.old t.old f.old cells.old table.old p.new t.new cells.new table.new (run_answer result) }
{
    let mut own = [0u8; 16384];
    let at = c.code;
    keys::edition1::translate(&file[at..], &mut own);
    finish(file, c, cap, e, allowance, p, t, f, &own, 0, cells, table)
}

// The rest of a run where a call found none left of the few words that were lent, or where the heap is needed.
fn deeper(
    file: &[u8],
    c: Sections,
    cap: usize,
    e: Ended,
    allowance: u64,
    p: &mut [u8],
    t: &mut [u8],
    few: &[u16],
    cells: &mut [u8],
    table: &mut [u8],
) -> Result<Tally, RunError>
    requires packed { Packed file.now c × (refusal file.now ≡ 0) }
    requires standing { Standing file.now cap e allowance p.old t.old few.now cells.old table.old }
    ensures { RestIs file.now cap e allowance p.old t.old few.now cells.old table.old p.new t.new cells.new table.new (run_answer result) }
{
    let mut f = [0u16; 1536];
    copy_words(few, &mut f);
    let edition = format::word(file, 0);
    if edition == 1 {
        return finish_old(file, c, cap, e, allowance, p, t, &mut f, cells, table);
    }
    let from = c.code;
    finish(
        file, c, cap, e, allowance, p, t, &mut f, file, from, cells, table,
    )
}

// The rest of a run of short code of edition 1, with the few words as long as they last.
fn run_old(
    file: &[u8],
    c: Sections,
    cap: usize,
    e: Ended,
    allowance: u64,
    p: &mut [u8],
    t: &mut [u8],
    few: &mut [u16],
    cells: &mut [u8],
    table: &mut [u8],
) -> Result<Tally, RunError>
    requires packed { Packed file.now c × (refusal file.now ≡ 0) × (edition file.now ≡ 1) × (c.extent ≤ 512) }
    requires standing { Standing file.now cap e allowance p.old t.old few.old cells.old table.old }
    ensures { RestIs file.now cap e allowance p.old t.old few.old cells.old table.old p.new t.new cells.new table.new (run_answer result) }
{
    let mut own = [0u8; 512];
    let at = c.code;
    keys::edition1::translate(&file[at..], &mut own);
    let last = e.last;
    let g = machine::run_from(file, c, cap, last, e.rest, p, t, few, &own, 0);
    if !is_over(g.stop) {
        return deeper(file, c, cap, g, allowance, p, t, few, cells, table);
    }
    let tally = close(allowance - g.rest, g.last.height, cap, p, t);
    ended(g.stop, tally)
}

// The rest of a run that is not edition 3's with few words and no heap. It is a function of its own for the compiler's sake: so the
// usual run pays nothing for it.
fn run_rest(
    file: &[u8],
    c: Sections,
    cap: usize,
    e: Ended,
    allowance: u64,
    p: &mut [u8],
    t: &mut [u8],
    few: &mut [u16],
    cells: &mut [u8],
    table: &mut [u8],
) -> Result<Tally, RunError>
    requires packed { Packed file.now c × (refusal file.now ≡ 0) }
    requires standing { Standing file.now cap e allowance p.old t.old few.old cells.old table.old }
    ensures { RestIs file.now cap e allowance p.old t.old few.old cells.old table.old p.new t.new cells.new table.new (run_answer result) }
{
    let edition = format::word(file, 0);
    if edition == 1 {
        if c.extent <= 512 {
            return run_old(file, c, cap, e, allowance, p, t, few, cells, table);
        }
    }
    deeper(file, c, cap, e, allowance, p, t, few, cells, table)
}

// The run of a body of a module that can be read.
fn run_opened(
    file: &[u8],
    c: Sections,
    function: u32,
    args: &[u8],
    kinds: &[u8],
    profile: u32,
    allowance: u64,
    p: &mut [u8],
    t: &mut [u8],
    cells: &mut [u8],
    table: &mut [u8],
) -> Result<Tally, RunError>
    requires { Packed file.now c × (refusal file.now ≡ 0) }
    ensures { RunIs file.now function args.now kinds.now profile allowance p.old t.old cells.old table.old p.new t.new cells.new table.new (run_answer result) }
{
    let Some(b) = find(file, c, function) else {
        return Err(RunError::Rejected(Refusal::NoSuchFunction));
    };
    let n = b.params;
    if !admits(file, c, b.body, n, args, kinds) {
        return Err(RunError::Rejected(Refusal::BadArguments));
    }
    if other_profile(file, c, function, profile) {
        return Err(RunError::Rejected(Refusal::OtherProfile));
    }
    clear_heap(cells, table);
    let cap = capacity(p, t);
    if cap < n {
        let tally = close(0, 0, cap, p, t);
        return Err(RunError::Stopped(Exception::StackOverflow, tally));
    }
    copy_arguments(args, kinds, n, p, t);
    let mut f = [0u16; 96];
    let first = control::calls::first_frame(b.body, b.start, b.end, n, &mut f);
    let edition = format::word(file, 0);
    if edition == 1 {
        let e = Ended {
            stop: None,
            rest: allowance,
            last: first,
        };
        return run_rest(file, c, cap, e, allowance, p, t, &mut f, cells, table);
    }
    let from = c.code;
    let e = machine::run_from(file, c, cap, first, allowance, p, t, &mut f, file, from);
    if !is_over(e.stop) {
        return run_rest(file, c, cap, e, allowance, p, t, &mut f, cells, table);
    }
    let tally = close(allowance - e.rest, e.last.height, cap, p, t);
    ended(e.stop, tally)
}

// The run of any body of any bytes, for a scan of this profile. ffffffff names the entry.
pub fn run(
    file: &[u8],
    function: u32,
    arg_payloads: &[u8],
    arg_types: &[u8],
    profile: u32,
    allowance: u64,
    payloads: &mut [u8],
    types: &mut [u8],
    heap: &mut [u8],
    blocks: &mut [u8],
) -> Result<Tally, RunError>
    ensures { RunIs file.now function arg_payloads.now arg_types.now profile allowance payloads.old types.old heap.old blocks.old payloads.new types.new heap.new blocks.new (run_answer result) }
{
    let c = reader::open(file)?;
    run_opened(
        file,
        c,
        function,
        arg_payloads,
        arg_types,
        profile,
        allowance,
        payloads,
        types,
        heap,
        blocks,
    )
}
