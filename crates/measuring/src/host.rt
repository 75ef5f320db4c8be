// The same for C: the number is the answer, and what else an answer holds goes through pointers.
ghost use Rattle.std.specs.Prelude.{◌≡◌};
ghost use Rattle.rules.specs.Host.{need_body_after, need_written_after};
ghost use Rattle.rules.specs.Results.{need_answer};
ghost use Rattle.rules.specs.Reporting.{need_number};
ghost use Rattle.promises.specs.NeedPromises.{HostNeedKeeps};

use rules::NeedError;

// The numbers that C reads where the error names a body.
const NO_TYPING: u32 = 11;

const CALLS_LOOP: u32 = 47;

// An answer's number. The body is written with 11 and 47 only, the length with 0 only.
pub fn need_number(answer: Result<u64, NeedError>, body: &mut u32, written: &mut u64) -> u32
    ensures value { result ≡ need_number (need_answer answer) }
    ensures body_after { body.new ≡ need_body_after (need_answer answer) body.old }
    ensures written_after { written.new ≡ need_written_after (need_answer answer) written.old }
{
    match answer {
        Ok(n) => {
            *written = n;
            0
        }
        Err(NeedError::Refused(refusal)) => u32::from(refusal),
        Err(NeedError::Untyped(b)) => {
            *body = b;
            NO_TYPING
        }
        Err(NeedError::Loops(b)) => {
            *body = b;
            CALLS_LOOP
        }
    }
}

// `need` for C.
pub fn host_need(
    file: &[u8],
    room: &mut [u8],
    report: &mut [u8],
    body: &mut u32,
    written: &mut u64,
) -> u32
    ensures { HostNeedKeeps file.now room.old report.old body.old written.old result room.new report.new body.new written.new }
{
    let answer = crate::need(file, room, report);
    need_number(answer, body, written)
}
