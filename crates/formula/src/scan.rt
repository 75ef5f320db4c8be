// The flat pass over a line: whether it is in the grammar, how deep its brackets go, or where it stops making sense. No recursion.
ghost use Rattle.std.specs.Prelude.{◌≡◌, true, false, ◌+◌, ◌<◌, ◌^◌};
ghost use Rattle.rules.specs.Reading.{is_digit};
ghost use Rattle.grammar.specs.Scan.{is_name, is_sign};
ghost use Rattle.formula.specs.Scans.{Legal, Moves, ScanIs};

use crate::tokens::is_digit;

// Where the pass stands: the factors that must come, 1 or 0; the value of the number so far; the brackets that are open, and the most that
// were. The value is 0 where a factor must come, and `FULL` where no digit may follow.
#[derive(Clone, Copy)]
pub struct State {
    pub wanted: usize,
    pub value: u64,
    pub brackets: usize,
    pub deepest: usize,
}

// Too large with one digit more.
const FULL: u64 = 4294967296;

fn is_name(c: u8) -> bool
    ensures { result ≡ is_name c }
{
    (c == 114) | (c == 103) | (c == 98)
}

fn is_sign(c: u8) -> bool
    ensures { result ≡ is_sign c }
{
    (c == 43) | (c == 45) | (c == 42) | (c == 47)
}

// One byte more; none where it can't stand there. Here a digit, of a number that begins here or goes on.
fn on_digit(c: u8, at: State) -> Option<State>
    requires { Legal at × (is_digit c ≡ true) }
    ensures { Moves at c result }
{
    let value = 10 * at.value + u64::from(c - 48);
    if 4294967295 < value {
        return None;
    }
    Some(State {
        wanted: 0,
        value,
        ..at
    })
}

// A byte where a factor must come.
fn in_front(c: u8, at: State) -> Option<State>
    requires { Legal at × (0 < at.wanted) × (is_digit c ≡ false) × (at.brackets + 1 < 2 ^ 64) }
    ensures { Moves at c result }
{
    if is_name(c) {
        return Some(State {
            wanted: 0,
            value: FULL,
            ..at
        });
    }
    if c == 40 {
        let open = at.brackets + 1;
        return Some(State {
            wanted: 1,
            value: 0,
            brackets: open,
            deepest: at.deepest.max(open),
        });
    }
    if (c == 32) | (c == 45) {
        return Some(at);
    }
    None
}

// A byte where a factor is complete, or where the digits so far make one.
fn behind(c: u8, at: State) -> Option<State>
    requires { Legal at × (at.wanted ≡ 0) × (is_digit c ≡ false) }
    ensures { Moves at c result }
{
    let mut open = at.brackets;
    if is_sign(c) {
        return Some(State {
            wanted: 1,
            value: 0,
            ..at
        });
    }
    if c == 41 {
        if open == 0 {
            return None;
        }
        open -= 1;
    } else if c != 32 {
        return None;
    }
    Some(State {
        wanted: 0,
        value: FULL,
        brackets: open,
        ..at
    })
}

// Any byte.
fn step(c: u8, at: State) -> Option<State>
    requires { Legal at × (at.brackets + 1 < 2 ^ 64) }
    ensures { Moves at c result }
{
    if is_digit(c) {
        return on_digit(c, at);
    }
    if at.wanted == 0 {
        return behind(c, at);
    }
    in_front(c, at)
}

// The whole line: how deep the brackets of one in the grammar go; or where another stops making sense, its end where it ends too early.
pub fn scan_line(line: &[u8]) -> Result<usize, usize>
    ensures { ScanIs line.now result }
{
    let mut at = State {
        wanted: 1,
        value: 0,
        brackets: 0,
        deepest: 0,
    };
    for i in 0..line.len() {
        let Some(next) = step(line[i], at) else {
            return Err(i);
        };
        at = next;
    }
    if (at.wanted != 0) | (at.brackets != 0) {
        return Err(line.len());
    }
    Ok(at.deepest)
}
