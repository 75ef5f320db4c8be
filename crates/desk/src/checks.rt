// What the program says of checks that keep a record, in a lent buffer.
ghost use Rattle.std.specs.Prelude.{◌≡◌, ◌≤◌, length};
ghost use Rattle.desk.specs.Text.{Fills};
ghost use Rattle.desk.specs.Checks.{error_line, ReportsRecording, ReportsBody};

use crate::{reports, text};
use rules::CheckError;

// The number that is printed where the error names a body.
const NO_TYPING: u64 = 11;

// Why a check does not accept, and how many bytes of the buffer the line that says so has.
#[derive(Clone, Copy, Debug)]
pub struct Said<E> {
    pub error: E,
    pub text: usize,
}

// The line of a check that does not accept: a refusal's number, or 11 and the body without typing.
fn error_text(error: CheckError, out: &mut [u8]) -> Said<CheckError>
    requires { 42 ≤ length out.old }
    ensures { (result.error ≡ error) × Fills (error_line error) out.new result.text }
{
    let text = match error {
        CheckError::Refused(refusal) => reports::refusal_text(refusal, out),
        CheckError::Untyped(b) => text::put_line2(NO_TYPING, b as u64, out, 0),
    };
    Said { error, text }
}

// The full check in enough room, with the record in `beside`.
pub fn recording_report(
    file: &[u8],
    beside: &mut [u8],
    out: &mut [u8],
) -> Result<usize, Said<CheckError>>
    requires { 42 ≤ length out.old }
    ensures { ReportsRecording file.now beside.old result beside.new out.new }
{
    let mut room = [0u8; 16384];
    match rechecking::check_recording(file, &mut room, beside) {
        Ok(_) => Ok(reports::number_text(0, out)),
        Err(error) => Err(error_text(error, out)),
    }
}

// The check of one body beside a record.
pub fn body_report(
    file: &[u8],
    body: u32,
    beside: &mut [u8],
    out: &mut [u8],
) -> Result<usize, Said<CheckError>>
    requires { 42 ≤ length out.old }
    ensures { ReportsBody file.now body beside.old result beside.new out.new }
{
    match rechecking::check_body(file, body, beside) {
        Ok(()) => Ok(reports::number_text(0, out)),
        Err(error) => Err(error_text(error, out)),
    }
}

// How many bytes a record has that was written here: 8, and as many as its first word counts.
pub fn record_length(beside: &[u8]) -> usize
    requires { 8 ≤ length beside.now }
    ensures { result ≤ length beside.now }
{
    let count = memory::load32(beside, 0) as usize;
    8 + count.min(beside.len() - 8)
}
