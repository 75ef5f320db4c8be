// The same for C: the number is the answer, and what else an answer holds goes through pointers.
ghost use Rattle.std.specs.Prelude.{◌≡◌};
ghost use Rattle.rules.specs.Answers.{check_number};
ghost use Rattle.rules.specs.Host.{body_after};
ghost use Rattle.rules.specs.Results.{check_answer};
ghost use Rattle.promises.specs.Promises.{HostCheckKeeps};

use rules::CheckError;

// The number that C reads where the error names a body.
const NO_TYPING: u32 = 11;

// An answer's number. The body without typing is written with 11 only.
pub fn check_number(answer: Result<(), CheckError>, body: &mut u32) -> u32
    ensures { (result ≡ check_number (check_answer answer)) × (body.new ≡ body_after (check_answer answer) body.old) }
{
    match answer {
        Ok(()) => 0,
        Err(CheckError::Refused(refusal)) => u32::from(refusal),
        Err(CheckError::Untyped(b)) => {
            *body = b;
            NO_TYPING
        }
    }
}

// `check` for C.
pub fn host_check(file: &[u8], room: &mut [u8], body: &mut u32) -> u32
    ensures { HostCheckKeeps file.now room.old body.old result room.new body.new }
{
    let answer = crate::check(file, room);
    check_number(answer, body)
}
