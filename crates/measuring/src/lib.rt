// The public call `need`, with its promise.
#![tactic(auto)]

ghost use Rattle.rules.specs.Results.{need_answer};
ghost use Rattle.promises.specs.NeedPromises.{NeedKeeps};

use rules::NeedError;

pub mod host;

// The stack that the module of any bytes needs, in the lent room: need and frames of the entry and of each function, into `report`.
pub fn need(file: &[u8], room: &mut [u8], report: &mut [u8]) -> Result<u64, NeedError>
    ensures { NeedKeeps file.now room.old report.old (need_answer result) room.new report.new }
{
    reporter::report_needs(file, room, report)
}
