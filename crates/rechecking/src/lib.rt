// The public calls `check_recording` and `check_body`, with their promises.
#![tactic(auto)]

ghost use Rattle.rules.specs.Results.{check_answer, recording_answer};
ghost use Rattle.promises.specs.RecordingPromises.{RecordingKeeps, RecheckKeeps};

use rules::CheckError;

pub mod host;

// The check of any bytes in the lent room, which writes a record of which bodies have a typing into `beside`.
pub fn check_recording(file: &[u8], room: &mut [u8], beside: &mut [u8]) -> Result<u64, CheckError>
    ensures { RecordingKeeps file.now room.old beside.old (recording_answer result) room.new beside.new }
{
    rechecker::check_recording(file, room, beside)
}

// The check of one body of any bytes, beside a record whose byte for it is set. ffffffff names the entry.
pub fn check_body(file: &[u8], body: u32, beside: &mut [u8]) -> Result<(), CheckError>
    ensures { RecheckKeeps file.now body beside.old (check_answer result) beside.new }
{
    rechecker::check_body(file, body, beside)
}
