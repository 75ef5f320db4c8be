// Formula lines, compiled to modules of one function.
#![tactic(auto)]

ghost use Rattle.std.specs.Prelude.{◌≡◌, ◌≤◌, length};
ghost use Rattle.rules.specs.Results.{refusal_number, write_answer};
ghost use Rattle.rules.specs.Writing.{file_of, delivered, wrote};
ghost use Rattle.rules.specs.Formula.{formula};
ghost use Rattle.rules.specs.Grammar.{StopsAt};
ghost use Rattle.formula.specs.Lines.{Unread, Refuses, LineIs, one_function};

use readers::Cursor;
use rules::Refusal;

pub mod emit;
pub mod readers;
pub mod scan;
pub mod tokens;

// The line, read whole: its constants, and its code with `ret` at the end.
fn read_line(line: &[u8], code: &mut [u8], pool: &mut [u8]) -> Option<Cursor>
    requires { (length line.now ≤ 256) × (length code.old ≡ 771) × (length pool.old ≡ 1536) }
    ensures { LineIs line.now code.new pool.new result }
{
    let at = tokens::skip(line, 0);
    let start = Cursor {
        at,
        code: 0,
        numbers: 0,
        most: 0,
    };
    let c = readers::sum(line, code, pool, start, 0, 0)?;
    if c.at < line.len() {
        return None;
    }
    Some(readers::operated(code, c, 40))
}

// The module of one function of three ints to an int, from its constants and its code, if the output is long enough.
fn write_module(constants: &[u8], code: &[u8], out: &mut [u8]) -> Result<u64, Refusal>
    requires { (length constants.now ≤ 1536) × (length code.now ≤ 771) }
    ensures { wrote (write_answer result) out.new ≡ delivered (file_of (one_function constants.now code.now)) out.old }
{
    let length = 68 + constants.len() + code.len();
    if out.len() < length {
        return Err(Refusal::OutputTooShort);
    }
    let mut function = [0u8, 0, 0, 0, 0, 0, 0, 0, 3, 3, 3, 3, 3, 0, 0, 0, 0, 0, 0, 0];
    memory::store32(&mut function, 4, code.len() as u32);
    let none = &code[0..0];
    writer::put(3, constants, &function, none, none, code, 0, out);
    Ok(length as u64)
}

// Why a line that was not read is refused.
fn refusal(line: &[u8]) -> Refusal
    requires { (length line.now ≤ 256) × Unread line.now }
    ensures { Refuses line.now (refusal_number result) }
{
    match scan::scan_line(line) {
        Err(_) => Refusal::NotInGrammar,
        Ok(_) => Refusal::TooDeep,
    }
}

// Compiles a line of at most 256 bytes and writes its module.
pub fn compile(line: &[u8], out: &mut [u8]) -> Result<u64, Refusal>
    ensures { wrote (write_answer result) out.new ≡ formula line.now out.old }
{
    if 256 < line.len() {
        return Err(Refusal::LineTooLong);
    }
    let mut code = [0u8; 771];
    let mut pool = [0u8; 1536];
    let Some(c) = read_line(line, &mut code, &mut pool) else {
        return Err(refusal(line));
    };
    if 32 < c.most {
        return Err(Refusal::TooManyOperands);
    }
    let n = 12 * c.numbers;
    let k = c.code;
    write_module(&pool[..n], &code[..k], out)
}

// The place where a line stops making sense; its length where it is in the grammar or ends too early.
pub fn stop(line: &[u8]) -> usize
    ensures { StopsAt line.now result }
{
    match scan::scan_line(line) {
        Err(place) => place,
        Ok(_) => line.len(),
    }
}
