// What stands in front of the rest of a line: spaces, digits, names, minuses, and the sign that goes on with a part.
ghost use Rattle.std.specs.Prelude.{◌≡◌, true, ◌<◌, ◌≤◌, length};
ghost use Rattle.rules.specs.Reading.{is_digit};
ghost use Rattle.formula.specs.Tokens.{Skipped, Grown, PastZeros, Counted, name_of, AfterMinuses, ProductFollow, SumFollow, CloseFollow};

// Digits read: their value, and the place after them. A number over 4294967295 has any value over it.
#[derive(Clone, Copy)]
pub struct Numeral {
    pub value: u64,
    pub at: usize,
}

// Minuses read: how many, and the place after them and the spaces that follow.
#[derive(Clone, Copy)]
pub struct Minuses {
    pub count: usize,
    pub at: usize,
}

// The sign that goes on with a part: its opcode, and the place after it and the spaces that follow.
#[derive(Clone, Copy)]
pub struct Follow {
    pub opcode: u8,
    pub at: usize,
}

pub fn is_digit(c: u8) -> bool
    ensures { result ≡ is_digit c }
{
    (48 <= c) & (c <= 57)
}

// The first place from `at` on that holds no space.
pub fn skip(s: &[u8], at: usize) -> usize
    requires { at ≤ length s.now }
    ensures { Skipped s.now at result }
{
    // By hand: a `for` has another value behind its last place, which costs every caller three instructions.
    let mut i = at;
    while i < s.len() {
        if s[i] != 32 {
            return i;
        }
        i += 1;
    }
    i
}

// One digit more; a value that is too large stays.
fn grown(v: u64, c: u8) -> u64
    requires { (v < 42949672960) × (is_digit c ≡ true) }
    ensures { Grown v c result }
{
    if 4294967295 < v {
        return v;
    }
    10 * v + u64::from(c - 48)
}

// The first place from `at` on that holds no zero; `at` itself after a first digit that is not zero.
fn past_zeros(s: &[u8], at: usize, first: u64) -> usize
    requires { at ≤ length s.now }
    ensures { PastZeros s.now at first result }
{
    if first != 0 {
        return at;
    }
    for i in at..s.len() {
        if s[i] != 48 {
            return i;
        }
    }
    s.len()
}

// The digits from `at` on, after a first one of value `first`.
pub fn digits(s: &[u8], at: usize, first: u64) -> Numeral
    requires { (at ≤ length s.now) × (first < 10) }
    ensures { Counted s.now at first result.value result.at }
{
    let mut value = first;
    for i in past_zeros(s, at, first)..s.len() {
        let c = s[i];
        if !is_digit(c) {
            return Numeral { value, at: i };
        }
        value = grown(value, c);
    }
    Numeral { value, at: s.len() }
}

// The parameter that a byte names.
pub fn name_of(c: u8) -> Option<u32>
    ensures { result ≡ name_of c }
{
    match c {
        114 => Some(0),
        103 => Some(1),
        98 => Some(2),
        _ => None,
    }
}

// The minuses from `at` on, with spaces between.
pub fn skip_minuses(s: &[u8], at: usize) -> Minuses
    requires { at ≤ length s.now }
    ensures { AfterMinuses s.now at result.count result.at }
{
    // Spaces between are skipped in one step, so no `for` steps as this place does.
    let mut n = 0;
    let mut i = at;
    while i < s.len() {
        if s[i] != 45 {
            return Minuses { count: n, at: i };
        }
        n += 1;
        i = skip(s, i + 1);
    }
    Minuses { count: n, at: i }
}

pub fn product_sign(s: &[u8], at: usize) -> Option<Follow>
    requires { at ≤ length s.now }
    ensures { ProductFollow s.now at result }
{
    if s.len() <= at {
        return None;
    }
    let c = s[at];
    if c == 42 {
        return Some(Follow {
            opcode: 13,
            at: skip(s, at + 1),
        });
    }
    if c == 47 {
        return Some(Follow {
            opcode: 15,
            at: skip(s, at + 1),
        });
    }
    None
}

pub fn sum_sign(s: &[u8], at: usize) -> Option<Follow>
    requires { at ≤ length s.now }
    ensures { SumFollow s.now at result }
{
    if s.len() <= at {
        return None;
    }
    let c = s[at];
    if c == 43 {
        return Some(Follow {
            opcode: 11,
            at: skip(s, at + 1),
        });
    }
    if c == 45 {
        return Some(Follow {
            opcode: 12,
            at: skip(s, at + 1),
        });
    }
    None
}

// The closing bracket; it has no opcode.
pub fn close_sign(s: &[u8], at: usize) -> Option<usize>
    requires { at ≤ length s.now }
    ensures { CloseFollow s.now at result }
{
    if s.len() <= at {
        return None;
    }
    if s[at] == 41 {
        return Some(skip(s, at + 1));
    }
    None
}
