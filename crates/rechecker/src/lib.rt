// The check that leaves a record beside the module, one byte a body, and the check of one body beside such a record.
#![tactic(auto)]

mod flags;
mod recording;

ghost use Rattle.std.specs.Prelude.{◌≡◌};
ghost use Rattle.rules.specs.ModuleFile.{refusal};
ghost use Rattle.rules.specs.Results.{check_answer, recording_answer};
ghost use Rattle.format.specs.Layout.{Packed};
ghost use Rattle.rechecker.specs.Flags.{RecordingIs, RecheckIs};

use format::Sections;
use rules::{CheckError, Refusal};

// The check of a module that can be read: 10, 16, then 11 or 0 with the record.
fn recording_opened(
    file: &[u8],
    c: Sections,
    room: &mut [u8],
    beside: &mut [u8],
) -> Result<u64, CheckError>
    requires { Packed file.now c × (refusal file.now ≡ 0) }
    ensures { RecordingIs file.now room.old beside.old (recording_answer result) room.new beside.new }
{
    if room.len() < 64 * c.labels {
        return Err(CheckError::Refused(Refusal::RoomTooShort));
    }
    let bodies = c.functions + 1;
    if beside.len() < 8 + bodies {
        return Err(CheckError::Refused(Refusal::OutputTooShort));
    }
    recording::check_and_record(file, c, room, beside)
}

// The check of any bytes in any room, which writes a record too: 1 to 9, 10, 16, 11 with the first body without typing, or 0 with the
// record's length.
pub fn check_recording(file: &[u8], room: &mut [u8], beside: &mut [u8]) -> Result<u64, CheckError>
    ensures { RecordingIs file.now room.old beside.old (recording_answer result) room.new beside.new }
{
    let c = reader::open(file)?;
    recording_opened(file, c, room, beside)
}

// The check of one body of a module that can be read: 12, 45, then 11 or 0 by the record.
fn recheck_opened(file: &[u8], c: Sections, body: u32, beside: &mut [u8]) -> Result<(), CheckError>
    requires { Packed file.now c × (refusal file.now ≡ 0) }
    ensures { RecheckIs file.now body beside.old (check_answer result) beside.new }
{
    let owner = body as usize;
    let index = beside::index_of(owner);
    let bodies = c.functions + 1;
    if bodies <= index {
        return Err(CheckError::Refused(Refusal::NoSuchFunction));
    }
    if beside::differs(beside, bodies) {
        return Err(CheckError::Refused(Refusal::RecordDiffers));
    }
    flags::set_flags(file, c, index, index + 1, beside);
    beside::first_zero(beside, bodies)
}

// The check of one body of any bytes, beside a record: 1 to 9, 12, 45, 11 with the first body whose byte is 0 then, or 0.
pub fn check_body(file: &[u8], body: u32, beside: &mut [u8]) -> Result<(), CheckError>
    ensures { RecheckIs file.now body beside.old (check_answer result) beside.new }
{
    let c = reader::open(file)?;
    recheck_opened(file, c, body, beside)
}
