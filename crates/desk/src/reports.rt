// What the program writes, in a lent buffer: the lines of a run, and the module of a formula line, a converted module, or a
// refusal.
ghost use Rattle.std.specs.Prelude.{◌≤◌, length, ◌≡◌};
ghost use Rattle.rules.specs.Host.{height_after};
ghost use Rattle.rules.specs.Results.{refusal_number, run_answer, write_answer};
ghost use Rattle.rules.specs.Writing.{wrote};
ghost use Rattle.rules.specs.Program as Program;
ghost use Rattle.desk.specs.Text.{Fills, lent_of, tally_lines, accepted_lines};
ghost use Rattle.desk.specs.Commands.{Refuses, ReportsLine, size_in, convert_to, ReportsConversion};

use crate::text;
use rules::{CheckError, Refusal, RunError, Tally};

const ENTRY: u32 = 0xffff_ffff;

const ALLOWANCE: u64 = 1_000_000;

// The number that is printed where the error names a body.
const NO_TYPING: u64 = 11;

// The number as the text of a refused line asks for it.
const NOT_IN_GRAMMAR: u32 = 41;

// A number alone on a line.
pub(crate) fn number_text(n: u64, out: &mut [u8]) -> usize
    requires { 21 ≤ length out.old }
    ensures { Fills (Program.refused_line n) out.new result }
{
    text::put_number(n, b'\n', out, 0)
}

// A refusal's number, likewise.
pub(crate) fn refusal_text(refusal: Refusal, out: &mut [u8]) -> usize
    requires { 21 ≤ length out.old }
    ensures { Fills (Program.refused_line (refusal_number refusal)) out.new result }
{
    number_text(u64::from(u32::from(refusal)), out)
}

// Outcome, steps and height, then the slots.
fn tally_text(number: u64, tally: Tally, p: &[u8], t: &[u8], out: &mut [u8]) -> usize
    requires { (32768 ≤ length p.now) × (4096 ≤ length t.now) × (172095 ≤ length out.old) × (tally.height ≤ 4096) }
    ensures { Fills (tally_lines number tally p.now t.now) out.new result }
{
    let at = text::put_line3(number, tally.steps, tally.height, out, 0);
    let h = tally.height as usize;
    text::put_slots(p, t, h, out, at)
}

// What a run answered.
fn run_text(answer: Result<Tally, RunError>, p: &[u8], t: &[u8], out: &mut [u8]) -> usize
    requires { (32768 ≤ length p.now) × (4096 ≤ length t.now) × (172095 ≤ length out.old) × (height_after (run_answer answer) 0 ≤ 4096) }
    ensures { Fills (Program.run_lines (run_answer answer) (lent_of p.now t.now)) out.new result }
{
    match answer {
        Ok(tally) => tally_text(0, tally, p, t, out),
        Err(RunError::Rejected(refusal)) => refusal_text(refusal, out),
        Err(RunError::Stopped(exception, tally)) => {
            let number = u64::from(u32::from(exception));
            tally_text(number, tally, p, t, out)
        }
    }
}

// The run of a body of an accepted module, for a scan of this profile, on 4,096 slots and 1,024 cells.
fn accepted_text(
    file: &[u8],
    function: u32,
    arg_payloads: &[u8],
    arg_types: &[u8],
    profile: u32,
    out: &mut [u8],
) -> usize
    requires { 172095 ≤ length out.old }
    ensures { Fills (accepted_lines file.now function (lent_of arg_payloads.now arg_types.now) profile) out.new result }
{
    let mut payloads = [0u8; 32768];
    let mut types = [0u8; 4096];
    let mut heap = [0u8; 8192];
    let mut blocks = [0u8; 24576];
    let answer = running::run(
        file,
        function,
        arg_payloads,
        arg_types,
        profile,
        ALLOWANCE,
        &mut payloads,
        &mut types,
        &mut heap,
        &mut blocks,
    );
    run_text(answer, &payloads, &types, out)
}

// What is printed for the run of a body of this file on these arguments, for a scan of this profile: answers how many bytes of
// `out` it is.
pub fn run_report(
    file: &[u8],
    function: u32,
    arg_payloads: &[u8],
    arg_types: &[u8],
    profile: u32,
    out: &mut [u8],
) -> usize
    requires { 172095 ≤ length out.old }
    ensures { Fills (Program.printed_run file.now function (lent_of arg_payloads.now arg_types.now) profile) out.new result }
{
    let mut room = [0u8; 16384];
    match checking::check(file, &mut room) {
        Ok(()) => accepted_text(file, function, arg_payloads, arg_types, profile, out),
        Err(CheckError::Refused(refusal)) => refusal_text(refusal, out),
        Err(CheckError::Untyped(_)) => number_text(NO_TYPING, out),
    }
}

// What the program prints for these bytes: the run of the entry.
pub fn report(input: &[u8], out: &mut [u8]) -> usize
    requires in_bounds { 172095 ≤ length out.old }
    requires input_len_bound { length input.now ≤ Program.input_limit }
    ensures { Fills (Program.printed input.now) out.new result }
{
    let none = &input[0..0];
    run_report(input, ENTRY, none, none, 0, out)
}

// The text of a refused formula line.
fn line_text(line: &[u8], refusal: Refusal, out: &mut [u8]) -> usize
    requires { 42 ≤ length out.old }
    ensures { Refuses line.now (refusal_number refusal) out.new result }
{
    let number = u32::from(refusal);
    if number == NOT_IN_GRAMMAR {
        let place = compiling::formula_stop(line);
        return text::put_line2(u64::from(number), place as u64, out, 0);
    }
    number_text(u64::from(number), out)
}

// The module of a formula line, for standard output, or its refusal, for standard error: how many bytes of the buffer it is.
pub fn formula_report(line: &[u8], out: &mut [u8]) -> Result<usize, usize>
    requires { 42 ≤ length out.old }
    ensures { ReportsLine line.now out.old result out.new }
{
    match compiling::formula(line, out) {
        Ok(n) => Ok(n as usize),
        Err(refusal) => Err(line_text(line, refusal, out)),
    }
}

// A file in edition 4, or in edition 3.
fn convert(up: bool, file: &[u8], out: &mut [u8]) -> Result<u64, Refusal>
    ensures { wrote (write_answer result) out.new ≡ convert_to up file.now out.old }
{
    if up {
        return converting::to_edition_4(file, out);
    }
    converting::to_edition_3(file, out)
}

// The module in edition 4 or 3, or its refusal, likewise.
pub fn convert_report(up: bool, file: &[u8], out: &mut [u8]) -> Result<usize, usize>
    requires { 21 ≤ length out.old }
    ensures { ReportsConversion up file.now out.old result out.new × (size_in result ≤ length out.new) }
{
    match convert(up, file, out) {
        Ok(n) => Ok(n as usize),
        Err(refusal) => Err(refusal_text(refusal, out)),
    }
}
