// The C interface: the paper's number is the answer, and what else an answer holds goes through pointers.
ghost use Rattle.rules.specs.Tables.{tables};
ghost use Rattle.promises.specs.Promises.{lent_of, lent_heap_of, HostCheckKeeps, HostRunKeeps};
ghost use Rattle.promises.specs.RecordingPromises.{HostRecordingKeeps, HostRecheckKeeps};
ghost use Rattle.promises.specs.NeedPromises.{HostNeedKeeps};
ghost use Rattle.promises.specs.WritePromises.{HostWriteKeeps};
ghost use Rattle.promises.specs.FormulaPromises.{HostFormulaKeeps};
ghost use Rattle.promises.specs.ConvertPromises.{HostUpKeeps, HostDownKeeps};

// `check` for C.
#[unsafe(no_mangle)]
pub extern "C" fn limpetskein_check(file: &[u8], room: &mut [u8], body: &mut u32) -> u32
    ensures { HostCheckKeeps file.now room.old body.old result room.new body.new }
{
    limpetskein::host::limpetskein_check(file, room, body)
}

// `check_recording` for C.
#[unsafe(no_mangle)]
pub extern "C" fn limpetskein_check_recording(
    file: &[u8],
    room: &mut [u8],
    beside: &mut [u8],
    body: &mut u32,
    written: &mut u64,
) -> u32
    ensures { HostRecordingKeeps file.now room.old beside.old body.old written.old result room.new beside.new body.new written.new }
{
    limpetskein::host::limpetskein_check_recording(file, room, beside, body, written)
}

// `check_body` for C.
#[unsafe(no_mangle)]
pub extern "C" fn limpetskein_check_body(
    file: &[u8],
    body: u32,
    beside: &mut [u8],
    first: &mut u32,
) -> u32
    ensures { HostRecheckKeeps file.now body beside.old first.old result beside.new first.new }
{
    limpetskein::host::limpetskein_check_body(file, body, beside, first)
}

// `need` for C.
#[unsafe(no_mangle)]
pub extern "C" fn limpetskein_need(
    file: &[u8],
    room: &mut [u8],
    report: &mut [u8],
    body: &mut u32,
    written: &mut u64,
) -> u32
    ensures { HostNeedKeeps file.now room.old report.old body.old written.old result room.new report.new body.new written.new }
{
    limpetskein::host::limpetskein_need(file, room, report, body, written)
}

// `run` for C: takes steps and height out of a finished run, or stops with the number.
#[unsafe(no_mangle)]
pub extern "C" fn limpetskein_run(
    file: &[u8],
    function: u32,
    arg_types: &[u8],
    arg_payloads: &[u8],
    profile: u32,
    allowance: u64,
    payloads: &mut [u8],
    types: &mut [u8],
    heap: &mut [u8],
    blocks: &mut [u8],
    steps: &mut u64,
    height: &mut u64,
) -> u32
    ensures { HostRunKeeps file.now function (lent_of arg_payloads.now arg_types.now) profile allowance (lent_of payloads.old types.old) (lent_heap_of heap.old blocks.old) steps.old height.old result (lent_of payloads.new types.new) (lent_heap_of heap.new blocks.new) steps.new height.new }
{
    limpetskein::host::limpetskein_run(
        file,
        function,
        arg_types,
        arg_payloads,
        profile,
        allowance,
        payloads,
        types,
        heap,
        blocks,
        steps,
        height,
    )
}

// `write` for C.
#[unsafe(no_mangle)]
pub extern "C" fn limpetskein_write(
    edition: u32,
    constants: &[u8],
    functions: &[u8],
    labels: &[u8],
    structures: &[u8],
    code: &[u8],
    entry_length: u32,
    out: &mut [u8],
    written: &mut u64,
) -> u32
    ensures { HostWriteKeeps (tables edition constants.now functions.now labels.now structures.now code.now entry_length) out.old written.old result out.new written.new }
{
    limpetskein::host::limpetskein_write(
        edition,
        constants,
        functions,
        labels,
        structures,
        code,
        entry_length,
        out,
        written,
    )
}

// `formula` for C.
#[unsafe(no_mangle)]
pub extern "C" fn limpetskein_formula(line: &[u8], out: &mut [u8], written: &mut u64) -> u32
    ensures { HostFormulaKeeps line.now out.old written.old result out.new written.new }
{
    limpetskein::host::limpetskein_formula(line, out, written)
}

// `to_edition_4` for C.
#[unsafe(no_mangle)]
pub extern "C" fn limpetskein_to_edition_4(file: &[u8], out: &mut [u8], written: &mut u64) -> u32
    ensures { HostUpKeeps file.now out.old written.old result out.new written.new }
{
    limpetskein::host::limpetskein_to_edition_4(file, out, written)
}

// `to_edition_3` for C.
#[unsafe(no_mangle)]
pub extern "C" fn limpetskein_to_edition_3(file: &[u8], out: &mut [u8], written: &mut u64) -> u32
    ensures { HostDownKeeps file.now out.old written.old result out.new written.new }
{
    limpetskein::host::limpetskein_to_edition_3(file, out, written)
}
