// The bodies in order: each is walked from its start, then from every node that something has flowed to.
ghost use Rattle.std.specs.Prelude.{◌≡◌, ◌+◌, length};
ghost use Rattle.rules.specs.Tables.{body_of};
ghost use Rattle.rules.specs.ModuleFile.{labels, refusal};
ghost use Rattle.format.specs.Layout.{Packed};
ghost use Rattle.reader.specs.Cut.{Blank};
ghost use Rattle.keys.specs.Keys.{Keyed};
ghost use Rattle.nodes.specs.Nodes.{done_of, Tabled, Fits, Seeded};
ghost use Rattle.checker.specs.Work.{Working, Quiet, Next, Started, Settled, Left, VerdictIs};

use crate::walk::Turn;
use format::Sections;

// Walks from node k, the first that waits.
fn visit<const ALONE: bool>(
    file: &[u8],
    c: Sections,
    code: &[u8],
    table: &[u16],
    owner: usize,
    k: usize,
    room: &mut [u8],
    marks: &mut [u16],
    st: &mut [u8],
) -> bool
    requires working { Working file.now c table.now owner room.old marks.old }
    requires next { Next marks.old k × (length st.old ≡ 64) }
    requires keyed { Keyed file.now code.now 0 }
    ensures { Left file.now table.now (body_of owner) room.old marks.old room.new marks.new result (done_of marks.new ≡ done_of marks.old + 1) }
{
    nodes::room::load(room, 64 * k, st);
    let p = nodes::table::place_of(file, c, k);
    let whole = crate::walk::walk(file, c, code, table, owner, p, room, marks, st);
    if whole {
        nodes::list::advance(marks);
        return true;
    }
    false
}

// Walks from nodes that wait until none does.
fn drain<const ALONE: bool>(
    file: &[u8],
    c: Sections,
    code: &[u8],
    table: &[u16],
    owner: usize,
    room: &mut [u8],
    marks: &mut [u16],
    st: &mut [u8],
) -> bool
    requires working { Working file.now c table.now owner room.old marks.old }
    requires st_len { length st.old ≡ 64 }
    requires keyed { Keyed file.now code.now 0 }
    ensures { Left file.now table.now (body_of owner) room.old marks.old room.new marks.new result (Quiet marks.new) }
{
    loop {
        let Some(k) = nodes::list::first(marks) else {
            return true;
        };
        let whole = visit::<ALONE>(file, c, code, table, owner, k, room, marks, st);
        if !whole {
            return false;
        }
    }
}

// Walks from the body's start, whose record is st.
fn begin<const ALONE: bool>(
    file: &[u8],
    c: Sections,
    code: &[u8],
    table: &[u16],
    owner: usize,
    room: &mut [u8],
    marks: &mut [u16],
    st: &mut [u8],
) -> bool
    requires working { Working file.now c table.now owner room.old marks.old }
    requires seeded { Seeded file.now (body_of owner) st.old }
    requires keyed { Keyed file.now code.now 0 }
    ensures { Left file.now table.now (body_of owner) room.old marks.old room.new marks.new result (Started file.now table.now room.new marks.new (body_of owner)) }
{
    let e = nodes::starts::end(file, c, owner);
    let p = nodes::starts::start(file, c, owner);
    let turn = crate::walk::land(file, c, table, owner, e, p, room, marks, st);
    match turn {
        Turn::Breaks => false,
        Turn::Ends => true,
        Turn::Goes(q) => crate::walk::walk(file, c, code, table, owner, q, room, marks, st),
    }
}

// Whether a body has a typing. It is judged alone or among all bodies: each of the two has its own copy of these four functions,
// which are compiled into their caller as where they have but one.
pub fn check_body<const ALONE: bool>(
    file: &[u8],
    c: Sections,
    code: &[u8],
    table: &[u16],
    owner: usize,
    room: &mut [u8],
    marks: &mut [u16],
    st: &mut [u8],
) -> bool
    requires working { Working file.now c table.now owner room.old marks.old }
    requires st_len { length st.old ≡ 64 }
    requires keyed { Keyed file.now code.now 0 }
    ensures { Left file.now table.now (body_of owner) room.old marks.old room.new marks.new result (Settled file.now table.now room.new marks.new (body_of owner)) }
{
    nodes::starts::seed(file, c, owner, st);
    let started = begin::<ALONE>(file, c, code, table, owner, room, marks, st);
    if !started {
        return false;
    }
    drain::<ALONE>(file, c, code, table, owner, room, marks, st)
}

// All bodies, the entry first. Functions from i on come after the owner.
pub(crate) fn bodies(
    file: &[u8],
    c: Sections,
    code: &[u8],
    table: &[u16],
    room: &mut [u8],
    marks: &mut [u16],
    st: &mut [u8],
) -> Result<(), usize>
    requires packed { Packed file.now c × (refusal file.now ≡ 0) × Tabled file.now table.now }
    requires fits { Fits (labels file.now) room.old marks.old × Blank marks.old × (length st.old ≡ 64) }
    requires keyed { Keyed file.now code.now 0 }
    ensures { VerdictIs file.now table.now room.old marks.old room.new marks.new result }
{
    // Count and owner go up together, the entry first: a `for` over either would have to make the other of it by a test.
    let n = c.functions;
    let mut owner = 0xffff_ffff;
    let mut i = 0;
    loop {
        let typed = check_body::<false>(file, c, code, table, owner, room, marks, st);
        if !typed {
            return Err(owner);
        }
        if i == n {
            return Ok(());
        }
        owner = i;
        i += 1;
    }
}
