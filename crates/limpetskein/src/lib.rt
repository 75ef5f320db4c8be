// The public library: the check of any bytes, with a record of its bodies, or of one body beside such a record, the stack that a module needs, the run of any body of any bytes, the call of a function for rows, the writer of modules,
// the conversions between editions 3 and 4, and the compiler of formula lines.
#![tactic(auto)]

ghost use Rattle.rules.specs.Tables.{tables};
ghost use Rattle.rules.specs.Results.{check_answer, recording_answer, need_answer, run_answer, write_answer};
ghost use Rattle.promises.specs.Promises.{lent_of, lent_heap_of, CheckKeeps, RunKeeps};
ghost use Rattle.rules.specs.Grammar.{StopsAt};
ghost use Rattle.promises.specs.RecordingPromises.{RecordingKeeps, RecheckKeeps};
ghost use Rattle.promises.specs.NeedPromises.{NeedKeeps};
ghost use Rattle.promises.specs.WritePromises.{WriteKeeps};
ghost use Rattle.promises.specs.FormulaPromises.{FormulaKeeps};
ghost use Rattle.promises.specs.ConvertPromises.{UpKeeps, DownKeeps};

use rules::{CheckError, NeedError, Refusal, RunError, Tally};

pub mod host;
pub mod host_map;
pub mod map;

// The check of any bytes in the lent room, of which 64 bytes a label are used.
pub fn check(file: &[u8], room: &mut [u8]) -> Result<(), CheckError>
    ensures { CheckKeeps file.now room.old (check_answer result) room.new }
{
    checking::check(file, room)
}

// The check of any bytes in the lent room, which writes a record of which bodies have a typing into `beside`.
pub fn check_recording(file: &[u8], room: &mut [u8], beside: &mut [u8]) -> Result<u64, CheckError>
    ensures { RecordingKeeps file.now room.old beside.old (recording_answer result) room.new beside.new }
{
    rechecking::check_recording(file, room, beside)
}

// The check of one body of any bytes, beside a record whose byte for it is set. ffffffff names the entry.
pub fn check_body(file: &[u8], body: u32, beside: &mut [u8]) -> Result<(), CheckError>
    ensures { RecheckKeeps file.now body beside.old (check_answer result) beside.new }
{
    rechecking::check_body(file, body, beside)
}

// The stack that the module of any bytes needs, in the lent room: need and frames of the entry and of each function, into `report`.
pub fn need(file: &[u8], room: &mut [u8], report: &mut [u8]) -> Result<u64, NeedError>
    ensures { NeedKeeps file.now room.old report.old (need_answer result) room.new report.new }
{
    measuring::need(file, room, report)
}

// The run of a body of any bytes on the lent arguments, for a scan of this profile, on the lent slots and heap: cells, and entries
// of blocks. ffffffff names the entry.
pub fn run(
    file: &[u8],
    function: u32,
    arg_payloads: &[u8],
    arg_types: &[u8],
    profile: u32,
    allowance: u64,
    payloads: &mut [u8],
    types: &mut [u8],
    heap: &mut [u8],
    blocks: &mut [u8],
) -> Result<Tally, RunError>
    ensures { RunKeeps file.now function (lent_of arg_payloads.now arg_types.now) profile allowance (lent_of payloads.old types.old) (lent_heap_of heap.old blocks.old) (run_answer result) (lent_of payloads.new types.new) (lent_heap_of heap.new blocks.new) }
{
    running::run(
        file,
        function,
        arg_payloads,
        arg_types,
        profile,
        allowance,
        payloads,
        types,
        heap,
        blocks,
    )
}

// Writes the module of these tables, in edition 1, 3 or 4, into the lent output, or refuses and changes nothing.
pub fn write(
    edition: usize,
    constants: &[u8],
    functions: &[u8],
    labels: &[u8],
    structures: &[u8],
    code: &[u8],
    entry: usize,
    out: &mut [u8],
) -> Result<u64, Refusal>
    ensures { WriteKeeps (tables edition constants.now functions.now labels.now structures.now code.now entry) out.old (write_answer result) out.new }
{
    saving::write(
        edition, constants, functions, labels, structures, code, entry, out,
    )
}

// Writes the module of edition 4 of a module of edition 3, its functions for any profile, or refuses and changes nothing.
pub fn to_edition_4(file: &[u8], out: &mut [u8]) -> Result<u64, Refusal>
    ensures { UpKeeps file.now out.old (write_answer result) out.new }
{
    converting::to_edition_4(file, out)
}

// Writes the module of edition 3 of a module of edition 4, or refuses and changes nothing.
pub fn to_edition_3(file: &[u8], out: &mut [u8]) -> Result<u64, Refusal>
    ensures { DownKeeps file.now out.old (write_answer result) out.new }
{
    converting::to_edition_3(file, out)
}

// Compiles a formula line and writes its module into the lent output, or refuses and changes nothing.
pub fn formula(line: &[u8], out: &mut [u8]) -> Result<u64, Refusal>
    ensures { FormulaKeeps line.now out.old (write_answer result) out.new }
{
    compiling::formula(line, out)
}

// The place where a formula line stops making sense: its length where it is in the grammar or ends too early.
pub fn formula_stop(line: &[u8]) -> usize
    ensures { StopsAt line.now result }
{
    compiling::formula_stop(line)
}
