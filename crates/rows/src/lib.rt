// A function on each row of lent payloads: the module is opened once, the words of frames are cleared once, and the machine runs
// each row on the same slots. Slots are cleared after the last row only: no run depends on what they held.
#![tactic(auto)]

ghost use Rattle.std.specs.Prelude.{◌≡◌, true, ◌+◌, ◌*◌, ◌/◌, ◌<◌, ◌≤◌, length};
ghost use Rattle.rules.specs.Instructions.{ty_of};
ghost use Rattle.rules.specs.Results.{map_answer};
ghost use Rattle.rules.specs.Mapping.{takes_numbers};
ghost use Rattle.rules.specs.ModuleFile.{edition, read, refusal};
ghost use Rattle.format.specs.Layout.{Packed};
ghost use Rattle.keys.specs.Keys.{Keyed};
ghost use Rattle.machine.specs.Ends.{Fits};
ghost use Rattle.rules.specs.Stack.{slots_of, lent_after};
ghost use Rattle.runs.specs.Runs.{lent_of, slots_in, cells_in, Empty};
ghost use Rattle.rows.specs.Rows.{is_number, param_types, TypesAre, low_ints, value_in, sized, RunsAs, Admits, Stage, RowIs, Mappable, FirstLow, RowsAre, MapIs};

use format::Sections;
use machine::Ended;
use rules::{Exception, MapError, Refusal};
use state::Registers;

const ENTRY: u32 = 0xffff_ffff;

// ---- rows of arguments and of outputs

// Whether this is the type byte of a number.
fn is_number(b: u8) -> bool
    ensures { result ≡ is_number (ty_of b) }
{
    (b == 3) | (b == 4) | (b == 6)
}

// Whether function k takes n numbers, and their type bytes.
fn types_of(file: &[u8], c: Sections, k: usize, n: usize, kinds: &mut [u8]) -> bool
    requires { Packed file.now c × (k < c.functions) × (n ≤ 8) × (length kinds.old ≡ 8) }
    ensures { (result ≡ takes_numbers (param_types file.now k n)) × (result ≡ true → TypesAre file.now k n kinds.new) }
{
    for j in (0..n).rev() {
        let b = reader::entries::param(file, c, k, j);
        let numeric = is_number(b);
        if !numeric {
            return false;
        }
        kinds[j] = b;
    }
    true
}

// Whether args are as many bytes as rows of n arguments have beside so many bytes of outputs.
fn same_rows(n: usize, args: usize, out: usize) -> bool
    requires { n ≤ 8 }
    ensures { result ≡ sized n args out }
{
    if out % 8 != 0 {
        return false;
    }
    if n == 0 {
        return args == 0;
    }
    (args / n == out) & (args % n == 0)
}

// Whether no int argument of a row has upper bits.
fn admits_row(args: &[u8], kinds: &[u8]) -> bool
    requires { length args.now ≡ length kinds.now * 8 }
    ensures { result ≡ low_ints args.now kinds.now (length kinds.now) }
{
    for j in (0..kinds.len()).rev() {
        if kinds[j] == 3 {
            let v = memory::load64(args, j * 8);
            if 4294967296 <= v {
                return false;
            }
        }
    }
    true
}

// The payload under the height is the output of row i.
fn put_value(out: &mut [u8], i: usize, p: &[u8], height: usize)
    requires { (i * 8 + 8 ≤ length out.old) × (height * 8 ≤ length p.now) }
    ensures { out.new ≡ value_in out.old i p.now height }
{
    if 0 < height {
        let v = memory::load64(p, (height - 1) * 8);
        memory::store64(out, i * 8, v);
    }
}

// ---- a row

// How a row's run ended, and whether it used the heap. (No Option: there is an end either way.)
#[derive(Clone, Copy)]
struct RowEnd {
    ended: Ended,
    used: bool,
}

// The run from the first frame on: the machine as far as it goes without the heap, then over it.
fn run_row(
    file: &[u8],
    c: Sections,
    cap: usize,
    size: usize,
    first: Registers,
    allowance: u64,
    p: &mut [u8],
    t: &mut [u8],
    f: &mut [u16],
    source: &[u8],
    from: usize,
    cells: &mut [u8],
    table: &mut [u8],
) -> RowEnd
    requires packed { Packed file.now c × (refusal file.now ≡ 0) × Keyed file.now source.now from }
    requires fits { Fits (read file.now) cap first p.old t.old f.old × Empty size cells.old table.old × (length f.old ≡ 1536) }
    ensures { RunsAs file.now cap size first allowance result p.old t.old f.old cells.old table.old p.new t.new cells.new table.new }
{
    let e = machine::run_from(file, c, cap, first, allowance, p, t, f, source, from);
    let waits = machine::left(e.stop);
    if !waits {
        return RowEnd {
            ended: e,
            used: false,
        };
    }
    let g = runs::run_over(file, c, cap, size, e, p, t, f, source, from, cells, table);
    RowEnd {
        ended: g,
        used: true,
    }
}

// The run of a function on the arguments of one row.
fn row(
    file: &[u8],
    c: Sections,
    k: usize,
    start: usize,
    end: usize,
    args: &[u8],
    kinds: &[u8],
    allowance: u64,
    cap: usize,
    size: usize,
    p: &mut [u8],
    t: &mut [u8],
    f: &mut [u16],
    source: &[u8],
    from: usize,
    cells: &mut [u8],
    table: &mut [u8],
) -> RowEnd
    requires packed { Packed file.now c × (refusal file.now ≡ 0) × Keyed file.now source.now from }
    requires admits { Admits file.now c k start end args.now kinds.now × Stage cap size kinds.now p.old t.old cells.old table.old × (length f.old ≡ 1536) }
    ensures { RowIs file.now k args.now kinds.now allowance cap size result p.old t.old cells.old table.old p.new t.new cells.new table.new }
{
    let n = kinds.len();
    runs::copy_arguments(args, kinds, n, p, t);
    let first = control::calls::first_frame(k, start, end, n, f);
    run_row(
        file, c, cap, size, first, allowance, p, t, f, source, from, cells, table,
    )
}

// ---- all rows

// Ends a call: clears the slots from the last row's height to the capacity.
fn clear_slots(height: usize, cap: usize, p: &mut [u8], t: &mut [u8])
    requires { (cap ≡ slots_in p.old t.old) × (height ≤ cap) }
    ensures { lent_of p.new t.new ≡ lent_after (slots_of p.old t.old height) (lent_of p.old t.old) }
{
    runs::close(0, height, cap, p, t);
}

// Each row, the first of which is admitted, on code that is lent in keys.
fn map_rows(
    file: &[u8],
    c: Sections,
    k: usize,
    start: usize,
    end: usize,
    kinds: &[u8],
    args: &[u8],
    out: &mut [u8],
    allowance: u64,
    p: &mut [u8],
    t: &mut [u8],
    source: &[u8],
    from: usize,
    cells: &mut [u8],
    table: &mut [u8],
) -> Result<u64, MapError>
    requires packed { Packed file.now c × (refusal file.now ≡ 0) × Keyed file.now source.now from }
    requires mappable { Mappable file.now c k start end kinds.now args.now out.old × FirstLow args.now kinds.now × (length kinds.now ≤ slots_in p.old t.old) × Empty (cells_in cells.old table.old) cells.old table.old }
    ensures { RowsAre file.now k args.now out.old allowance p.old t.old cells.old table.old out.new p.new t.new cells.new table.new (map_answer result) }
{
    let n = kinds.len();
    let width = n * 8;
    let rows = out.len() / 8;
    let last = args.len(); // no place of a row is past it
    let cap = runs::capacity(p, t);
    let size = runs::heap_capacity(cells, table);
    let mut f = [0u16; 1536];
    let mut i = 0;
    let mut at = 0;
    // No `for`: the last turn ends in its middle, so that a row costs no test more.
    'turn: loop {
        let to = at + width;
        let g = row(
            file,
            c,
            k,
            start,
            end,
            &args[at..to],
            kinds,
            allowance,
            cap,
            size,
            p,
            t,
            &mut f,
            source,
            from,
            cells,
            table,
        );
        let e = g.ended;
        let height = e.last.height;
        if let Some(stop) = e.stop {
            clear_slots(height, cap, p, t);
            return Err(MapError::Stopped(stop, i as u64));
        }
        put_value(out, i, p, height);
        i += 1;
        at = to;
        if i == rows {
            clear_slots(height, cap, p, t);
            return Ok(i as u64);
        }
        let after = at + width;
        let low = admits_row(&args[at..after], kinds);
        if !low {
            clear_slots(height, cap, p, t);
            return Err(MapError::Refused(Refusal::BadArguments, i as u64));
        }
        if g.used {
            runs::clear_heap(cells, table);
        }
    }
}

// The same of edition 1, whose code is put in keys first.
fn map_old(
    file: &[u8],
    c: Sections,
    k: usize,
    start: usize,
    end: usize,
    kinds: &[u8],
    args: &[u8],
    out: &mut [u8],
    allowance: u64,
    p: &mut [u8],
    t: &mut [u8],
    cells: &mut [u8],
    table: &mut [u8],
) -> Result<u64, MapError>
    requires packed { Packed file.now c × (refusal file.now ≡ 0) × (edition file.now ≡ 1) }
    requires mappable { Mappable file.now c k start end kinds.now args.now out.old × FirstLow args.now kinds.now × (length kinds.now ≤ slots_in p.old t.old) × Empty (cells_in cells.old table.old) cells.old table.old }
    ensures { RowsAre file.now k args.now out.old allowance p.old t.old cells.old table.old out.new p.new t.new cells.new table.new (map_answer result) }
{
    let mut own = [0u8; 16384];
    let at = c.code;
    keys::edition1::translate(&file[at..], &mut own);
    map_rows(
        file, c, k, start, end, kinds, args, out, allowance, p, t, &own, 0, cells, table,
    )
}

// Rows of a function that takes them: whether the first is admitted and fits, then each.
fn start_rows(
    file: &[u8],
    c: Sections,
    k: usize,
    start: usize,
    end: usize,
    kinds: &[u8],
    args: &[u8],
    out: &mut [u8],
    allowance: u64,
    p: &mut [u8],
    t: &mut [u8],
    cells: &mut [u8],
    table: &mut [u8],
) -> Result<u64, MapError>
    requires { Packed file.now c × (refusal file.now ≡ 0) × Mappable file.now c k start end kinds.now args.now out.old }
    ensures { RowsAre file.now k args.now out.old allowance p.old t.old cells.old table.old out.new p.new t.new cells.new table.new (map_answer result) }
{
    let n = kinds.len();
    let width = n * 8;
    let low = admits_row(&args[0..width], kinds);
    if !low {
        return Err(MapError::Refused(Refusal::BadArguments, 0));
    }
    runs::clear_heap(cells, table);
    let cap = runs::capacity(p, t);
    if cap < n {
        clear_slots(0, cap, p, t);
        return Err(MapError::Stopped(Exception::StackOverflow, 0));
    }
    let edition = format::word(file, 0);
    if edition == 1 {
        return map_old(
            file, c, k, start, end, kinds, args, out, allowance, p, t, cells, table,
        );
    }
    let from = c.code;
    map_rows(
        file, c, k, start, end, kinds, args, out, allowance, p, t, file, from, cells, table,
    )
}

// The call for rows of a module that can be read.
fn map_opened(
    file: &[u8],
    c: Sections,
    function: u32,
    profile: u32,
    args: &[u8],
    out: &mut [u8],
    allowance: u64,
    p: &mut [u8],
    t: &mut [u8],
    cells: &mut [u8],
    table: &mut [u8],
) -> Result<u64, MapError>
    requires { Packed file.now c × (refusal file.now ≡ 0) }
    ensures { MapIs file.now function profile args.now out.old allowance p.old t.old cells.old table.old out.new p.new t.new cells.new table.new (map_answer result) }
{
    if function == ENTRY {
        return Err(MapError::Refused(Refusal::BadArguments, 0));
    }
    let k = function as usize;
    let found = view::function(file, c, k);
    let Some(g) = found else {
        return Err(MapError::Refused(Refusal::NoSuchFunction, 0));
    };
    let n = g.params;
    let mut kinds = [0u8; 8];
    let numbers = types_of(file, c, k, n, &mut kinds);
    let whole = same_rows(n, args.len(), out.len());
    if !(numbers & whole & (g.result != 0)) {
        return Err(MapError::Refused(Refusal::BadArguments, 0));
    }
    let other = runs::other_profile(file, c, function, profile);
    if other {
        return Err(MapError::Refused(Refusal::OtherProfile, 0));
    }
    if out.len() == 0 {
        return Ok(0);
    }
    start_rows(
        file,
        c,
        k,
        g.start,
        g.end,
        &kinds[0..n],
        args,
        out,
        allowance,
        p,
        t,
        cells,
        table,
    )
}

// A function of any bytes, for a scan of this profile, on each row of payloads; 8 bytes of `out` are a row's.
pub fn map(
    file: &[u8],
    function: u32,
    profile: u32,
    arg_payloads: &[u8],
    out: &mut [u8],
    allowance: u64,
    payloads: &mut [u8],
    types: &mut [u8],
    heap: &mut [u8],
    blocks: &mut [u8],
) -> Result<u64, MapError>
    ensures { MapIs file.now function profile arg_payloads.now out.old allowance payloads.old types.old heap.old blocks.old out.new payloads.new types.new heap.new blocks.new (map_answer result) }
{
    match reader::open(file) {
        Err(e) => Err(MapError::Refused(e, 0)),
        Ok(c) => map_opened(
            file,
            c,
            function,
            profile,
            arg_payloads,
            out,
            allowance,
            payloads,
            types,
            heap,
            blocks,
        ),
    }
}
