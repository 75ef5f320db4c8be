// What the program says of the stack that a module needs, in a lent buffer.
ghost use Rattle.std.specs.Prelude.{suc, ◌+◌, ◌*◌, ◌≤◌, length};
ghost use Rattle.desk.specs.Text.{Adds, Fills};
ghost use Rattle.desk.specs.Needs.{entry_line, function_lines, need_lines, ReportsNeed};

use crate::checks::Said;
use crate::{reports, text};
use rules::NeedError;

// The numbers that are printed where the error names a body.
const NO_TYPING: u64 = 11;

const CALLS_LOOP: u64 = 47;

// The entry's line.
fn put_entry(need: u64, frames: u64, out: &mut [u8]) -> usize
    requires { 48 ≤ length out.old }
    ensures { Adds 48 out.old 0 (entry_line need frames) out.new result }
{
    out[0] = b'e';
    out[1] = b'n';
    out[2] = b't';
    out[3] = b'r';
    out[4] = b'y';
    out[5] = b' ';
    text::put_line2(need, frames, out, 6)
}

// A line for each of the first n functions, from a place on.
fn put_functions(report: &[u8], n: usize, out: &mut [u8], at: usize) -> usize
    requires { (n ≤ 128) × (8 * suc n ≤ length report.now) × (at + 63 * n ≤ length out.old) }
    ensures { Adds (63 * n) out.old at (function_lines report.now n) out.new result }
{
    let mut e = at;
    for k in 0..n {
        let need = memory::load32(report, 8 * k + 8);
        let frames = memory::load32(report, 8 * k + 12);
        e = text::put_line3(k as u64, need as u64, frames as u64, out, e);
    }
    e
}

// The lines of a report of n functions.
fn needs_text(report: &[u8], n: usize, out: &mut [u8]) -> usize
    requires { (n ≤ 128) × (8 * suc n ≤ length report.now) × (8112 ≤ length out.old) }
    ensures { Fills (need_lines report.now n) out.new result }
{
    let need = memory::load32(report, 0);
    let frames = memory::load32(report, 4);
    let at = put_entry(need as u64, frames as u64, out);
    put_functions(report, n, out, at)
}

// The report of the stack that a module needs, in enough room: a line for each body, or the refusal's.
pub fn need_report(file: &[u8], out: &mut [u8]) -> Result<usize, Said<NeedError>>
    requires { 8112 ≤ length out.old }
    ensures { ReportsNeed file.now result out.new }
{
    let mut room = [0u8; 16384];
    let mut report = [0u8; 1032];
    match measuring::need(file, &mut room, &mut report) {
        Ok(n) => {
            let functions = (n / 8 - 1) as usize;
            Ok(needs_text(&report, functions, out))
        }
        Err(NeedError::Refused(refusal)) => {
            let text = reports::refusal_text(refusal, out);
            Err(Said {
                error: NeedError::Refused(refusal),
                text,
            })
        }
        Err(NeedError::Untyped(b)) => {
            let text = text::put_line2(NO_TYPING, b as u64, out, 0);
            Err(Said {
                error: NeedError::Untyped(b),
                text,
            })
        }
        Err(NeedError::Loops(b)) => {
            let text = text::put_line2(CALLS_LOOP, b as u64, out, 0);
            Err(Said {
                error: NeedError::Loops(b),
                text,
            })
        }
    }
}
