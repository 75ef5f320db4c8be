// The same for C: the number is the answer, and what else an answer holds goes through pointers.
ghost use Rattle.std.specs.Prelude.{◌≡◌};
ghost use Rattle.rules.specs.Host.{recording_body_after, recording_written_after};
ghost use Rattle.rules.specs.Results.{recording_answer};
ghost use Rattle.rules.specs.Recording.{recording_number};
ghost use Rattle.promises.specs.RecordingPromises.{HostRecordingKeeps, HostRecheckKeeps};

use rules::CheckError;

// The number that C reads where the error names a body.
const NO_TYPING: u32 = 11;

// An answer's number. The body without typing is written with 11 only, the length with 0 only.
pub fn recording_number(answer: Result<u64, CheckError>, body: &mut u32, written: &mut u64) -> u32
    ensures value { result ≡ recording_number (recording_answer answer) }
    ensures body_after { body.new ≡ recording_body_after (recording_answer answer) body.old }
    ensures written_after { written.new ≡ recording_written_after (recording_answer answer) written.old }
{
    match answer {
        Ok(n) => {
            *written = n;
            0
        }
        Err(CheckError::Refused(refusal)) => u32::from(refusal),
        Err(CheckError::Untyped(b)) => {
            *body = b;
            NO_TYPING
        }
    }
}

// `check_recording` for C.
pub fn host_check_recording(
    file: &[u8],
    room: &mut [u8],
    beside: &mut [u8],
    body: &mut u32,
    written: &mut u64,
) -> u32
    ensures { HostRecordingKeeps file.now room.old beside.old body.old written.old result room.new beside.new body.new written.new }
{
    let answer = crate::check_recording(file, room, beside);
    recording_number(answer, body, written)
}

// `check_body` for C.
pub fn host_check_body(file: &[u8], body: u32, beside: &mut [u8], first: &mut u32) -> u32
    ensures { HostRecheckKeeps file.now body beside.old first.old result beside.new first.new }
{
    let answer = crate::check_body(file, body, beside);
    checking::host::check_number(answer, first)
}
