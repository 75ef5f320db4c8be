// The public call `check`, with its promise.
#![tactic(auto)]

ghost use Rattle.rules.specs.Results.{check_answer};
ghost use Rattle.promises.specs.Promises.{CheckKeeps};

use rules::CheckError;

pub mod host;

// The check of any bytes in the lent room, of which 64 bytes a label are used.
pub fn check(file: &[u8], room: &mut [u8]) -> Result<(), CheckError>
    ensures { CheckKeeps file.now room.old (check_answer result) room.new }
{
    checker::check(file, room)
}
