// The bytes of bodies in a record, each judged with marks of its own, and with tables and rooms no larger than the module asks.
ghost use Rattle.std.specs.Prelude.{◌≡◌, ◌*◌, ◌≤◌, ◌<◌, length};
ghost use Rattle.rules.specs.ModuleFile.{edition};
ghost use Rattle.reader.specs.Cut.{Blank};
ghost use Rattle.keys.specs.Keys.{Keyed};
ghost use Rattle.nodes.specs.Nodes.{Tabled};
ghost use Rattle.rechecker.specs.Flags.{Ready, Lends, Judges, Flags};

use format::Sections;

// Whether the i-th body has a typing.
fn judge(file: &[u8], c: Sections, code: &[u8], table: &[u16], i: usize, room: &mut [u8]) -> bool
    requires ready { Ready file.now c table.now room.old × (i ≤ c.functions) }
    requires keyed { Keyed file.now code.now 0 }
    ensures { Judges file.now i result }
{
    let mut marks = [0u16; 514];
    let mut st = [0u8; 64];
    let owner = beside::owner_of(i);
    checker::bodies::check_body::<true>(file, c, code, table, owner, room, &mut marks, &mut st)
}

// Sets the bytes of the bodies from one up to another.
fn flags(
    file: &[u8],
    c: Sections,
    code: &[u8],
    table: &[u16],
    room: &mut [u8],
    from: usize,
    to: usize,
    beside: &mut [u8],
)
    requires ready { Ready file.now c table.now room.old }
    requires lends { Lends file.now c from to beside.old }
    requires keyed { Keyed file.now code.now 0 }
    ensures { Flags file.now from to beside.old beside.new }
{
    for i in from..to {
        let typed = judge(file, c, code, table, i, room);
        beside::set_flag(beside, i, typed);
    }
}

// With room for N bytes of records.
fn with_room<const N: usize>(
    file: &[u8],
    c: Sections,
    code: &[u8],
    table: &[u16],
    from: usize,
    to: usize,
    beside: &mut [u8],
)
    requires lends { Lends file.now c from to beside.old }
    requires tabled { Tabled file.now table.now × (64 * c.labels ≤ N) }
    requires size { N ≤ 16384 }
    requires keyed { Keyed file.now code.now 0 }
    ensures { Flags file.now from to beside.old beside.new }
{
    let mut room = [0u8; N];
    flags(file, c, code, table, &mut room, from, to, beside);
}

// With a blank table for the places.
fn with_places(
    file: &[u8],
    c: Sections,
    code: &[u8],
    table: &mut [u16],
    from: usize,
    to: usize,
    beside: &mut [u8],
)
    requires lends { Lends file.now c from to beside.old }
    requires extent_in_bounds { (c.extent < length table.old) × Blank table.old }
    requires keyed { Keyed file.now code.now 0 }
    ensures { Flags file.now from to beside.old beside.new }
{
    nodes::table::fill(file, c, table);
    if c.labels < 9 {
        with_room::<512>(file, c, code, table, from, to, beside);
        return;
    }
    with_room::<16384>(file, c, code, table, from, to, beside);
}

// With a table of N places.
fn with_table<const N: usize>(
    file: &[u8],
    c: Sections,
    code: &[u8],
    from: usize,
    to: usize,
    beside: &mut [u8],
)
    requires lends { Lends file.now c from to beside.old }
    requires size { (c.extent < N) × (N ≤ 16385) }
    requires keyed { Keyed file.now code.now 0 }
    ensures { Flags file.now from to beside.old beside.new }
{
    let mut table = [0u16; N];
    with_places(file, c, code, &mut table, from, to, beside);
}

// The same where the code, of at most M bytes, is edition 1's: it is put in keys first.
fn old_with_table<const M: usize, const N: usize>(
    file: &[u8],
    c: Sections,
    from: usize,
    to: usize,
    beside: &mut [u8],
)
    requires lends { Lends file.now c from to beside.old }
    requires sizes { (c.extent ≤ M) × (M ≤ 16384) × (c.extent < N) × (N ≤ 16385) }
    requires file_value { edition file.now ≡ 1 }
    ensures { Flags file.now from to beside.old beside.new }
{
    let start = c.code;
    let mut own = [0u8; M];
    keys::edition1::translate(&file[start..], &mut own);
    with_table::<N>(file, c, &own, from, to, beside);
}

// Sets the bytes of the bodies from one up to another.
pub(crate) fn set_flags(file: &[u8], c: Sections, from: usize, to: usize, beside: &mut [u8])
    requires { Lends file.now c from to beside.old }
    ensures { Flags file.now from to beside.old beside.new }
{
    let edition = format::word(file, 0);
    if edition == 1 {
        if c.extent < 512 {
            old_with_table::<512, 512>(file, c, from, to, beside);
            return;
        }
        old_with_table::<16384, 16385>(file, c, from, to, beside);
        return;
    }
    let start = c.code;
    let code = &file[start..];
    if c.extent < 512 {
        with_table::<512>(file, c, code, from, to, beside);
        return;
    }
    if c.extent < 4096 {
        with_table::<4096>(file, c, code, from, to, beside);
        return;
    }
    with_table::<16385>(file, c, code, from, to, beside);
}
