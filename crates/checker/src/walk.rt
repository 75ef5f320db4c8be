// A walk: from a place straight on, up to the next nodes.
ghost use Rattle.std.specs.Prelude.{◌≡◌, ◌<◌, [], ◌∷◌, get_or};
ghost use Rattle.rules.specs.Tables.{body_of, body_end};
ghost use Rattle.rules.specs.ModuleFile.{read, bodies_in};
ghost use Rattle.keys.specs.Keys.{Keyed};
ghost use Rattle.records.specs.Record.{lists_of, Holds, Labelled};
ghost use Rattle.nodes.specs.Nodes.{done_of};
ghost use Rattle.checker.specs.Work.{Working, Standing, Recorded, WalkedIn, Left, Heads, targets, Turned, TurnLeads};

use format::Sections;
use records::Transfer;

// The number of the entry.
const ENTRY: usize = 0xffff_ffff;

// A walk is refused, ends at nodes, or goes on at a place. (As a Result of an Option its two other cases would have no name.)
#[derive(Clone, Copy)]
pub enum Turn {
    Breaks,
    Ends,
    Goes(usize),
}

// The record flows to the node numbered v from 1, at place q.
fn arrive(
    file: &[u8],
    c: Sections,
    table: &[u16],
    owner: usize,
    q: usize,
    v: usize,
    room: &mut [u8],
    marks: &mut [u16],
    st: &[u8],
) -> bool
    requires working { Working file.now c table.now owner room.old marks.old }
    requires standing { Standing file.now owner q st.now }
    requires q_bound { (q < body_end (bodies_in file.now) (body_of owner)) × (v ≡ get_or table.now q 0) × (0 < v) }
    ensures left { Left file.now table.now (body_of owner) room.old marks.old room.new marks.new result (Recorded file.now table.now room.new marks.new (body_of owner) q (lists_of st.now)) }
    ensures marks_unchanged { done_of marks.new ≡ done_of marks.old }
{
    nodes::merge(v - 1, room, marks, st)
}

// The walk comes to place q of a body that ends at e. A node there is the next body's.
pub fn land(
    file: &[u8],
    c: Sections,
    table: &[u16],
    owner: usize,
    e: usize,
    q: usize,
    room: &mut [u8],
    marks: &mut [u16],
    st: &[u8],
) -> Turn
    requires working { Working file.now c table.now owner room.old marks.old }
    requires standing { Standing file.now owner q st.now }
    requires e_value { e ≡ body_end (bodies_in file.now) (body_of owner) }
    ensures turned { Turned file.now table.now (body_of owner) q (lists_of st.now) ((q, lists_of st.now) ∷ []) room.old marks.old room.new marks.new result }
    ensures marks_unchanged { done_of marks.new ≡ done_of marks.old }
{
    let v = nodes::table::node_at(table, q);
    if v == 0 {
        return Turn::Goes(q);
    }
    if q == e {
        return Turn::Goes(q);
    }
    let same = arrive(file, c, table, owner, q, v, room, marks, st);
    if same {
        return Turn::Ends;
    }
    Turn::Breaks
}

// The walk comes to a labelled place by a jump.
fn jump(
    file: &[u8],
    c: Sections,
    table: &[u16],
    owner: usize,
    q: usize,
    room: &mut [u8],
    marks: &mut [u16],
    st: &[u8],
) -> bool
    requires working { Working file.now c table.now owner room.old marks.old }
    requires standing { Standing file.now owner q st.now }
    requires labelled { Labelled (read file.now) (body_of owner) q }
    ensures left { Left file.now table.now (body_of owner) room.old marks.old room.new marks.new result (Recorded file.now table.now room.new marks.new (body_of owner) q (lists_of st.now)) }
    ensures marks_unchanged { done_of marks.new ≡ done_of marks.old }
{
    let v = nodes::table::node_at(table, q);
    arrive(file, c, table, owner, q, v, room, marks, st)
}

// What follows an instruction whose record is now st, with no place before p but by a jump.
fn follow(
    file: &[u8],
    c: Sections,
    table: &[u16],
    owner: usize,
    e: usize,
    p: usize,
    next: Transfer,
    room: &mut [u8],
    marks: &mut [u16],
    st: &[u8],
) -> Turn
    requires working { Working file.now c table.now owner room.old marks.old }
    requires holds { Holds st.now × Heads file.now (body_of owner) p (lists_of st.now) next }
    requires e_value { e ≡ body_end (bodies_in file.now) (body_of owner) }
    ensures turned { Turned file.now table.now (body_of owner) p (lists_of st.now) (targets next (lists_of st.now)) room.old marks.old room.new marks.new result }
    ensures turn_leads { TurnLeads next result }
    ensures marks_unchanged { done_of marks.new ≡ done_of marks.old }
{
    match next {
        Transfer::Breaks => Turn::Breaks,
        Transfer::Stops => Turn::Ends,
        Transfer::Falls(q) => land(file, c, table, owner, e, q, room, marks, st),
        Transfer::Jumps(q) => {
            let same = jump(file, c, table, owner, q, room, marks, st);
            if same {
                return Turn::Ends;
            }
            Turn::Breaks
        }
        Transfer::Forks(x, q) => {
            let same = jump(file, c, table, owner, x, room, marks, st);
            if same {
                return land(file, c, table, owner, e, q, room, marks, st);
            }
            Turn::Breaks
        }
    }
}

// From place p on, up to the next nodes; false where the body has no typing. From the entry's end nothing follows, a function's
// end has no flow. The code is lent in keys.
pub fn walk(
    file: &[u8],
    c: Sections,
    code: &[u8],
    table: &[u16],
    owner: usize,
    p: usize,
    room: &mut [u8],
    marks: &mut [u16],
    st: &mut [u8],
) -> bool
    requires working { Working file.now c table.now owner room.old marks.old }
    requires standing { Standing file.now owner p st.old }
    requires keyed { Keyed file.now code.now 0 }
    ensures left { Left file.now table.now (body_of owner) room.old marks.old room.new marks.new result (WalkedIn file.now table.now room.new marks.new (body_of owner) p (lists_of st.old)) }
    ensures marks_unchanged { done_of marks.new ≡ done_of marks.old }
{
    let e = nodes::starts::end(file, c, owner);
    let mut at = p;
    loop {
        let Some(key) = keys::decode(code, at, e) else {
            return owner == ENTRY;
        };
        let next = transfer::transfer(file, c, code, owner, at, key, st);
        let turn = follow(file, c, table, owner, e, at + 1, next, room, marks, st);
        match turn {
            Turn::Breaks => {
                return false;
            }
            Turn::Ends => {
                return true;
            }
            Turn::Goes(q) => {
                at = q;
            }
        }
    }
}
