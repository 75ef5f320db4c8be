// The full check with a record, with tables no larger than the module asks.
ghost use Rattle.std.specs.Prelude.{◌≡◌, ◌≤◌, ◌<◌, length};
ghost use Rattle.rules.specs.ModuleFile.{edition};
ghost use Rattle.rules.specs.Results.{recording_answer};
ghost use Rattle.reader.specs.Cut.{Blank};
ghost use Rattle.keys.specs.Keys.{Keyed};
ghost use Rattle.rechecker.specs.Flags.{Recordable, RecordingIs};

use format::Sections;
use rules::CheckError;

// With a blank table for the places, and the code in keys.
fn record_with(
    file: &[u8],
    c: Sections,
    code: &[u8],
    table: &mut [u16],
    room: &mut [u8],
    beside: &mut [u8],
) -> Result<u64, CheckError>
    requires recordable { Recordable file.now c room.old beside.old }
    requires extent_in_bounds { (c.extent < length table.old) × Blank table.old }
    requires keyed { Keyed file.now code.now 0 }
    ensures { RecordingIs file.now room.old beside.old (recording_answer result) room.new beside.new }
{
    let bodies = c.functions + 1;
    let answer = checker::check_with(file, c, code, table, room);
    beside::put_head(beside, bodies);
    match answer {
        Ok(()) => {
            beside::put_ones(beside, bodies);
            Ok((8 + bodies) as u64)
        }
        Err(e) => {
            crate::flags::set_flags(file, c, 0, bodies, beside);
            Err(e)
        }
    }
}

// With a table of N places.
fn with_table<const N: usize>(
    file: &[u8],
    c: Sections,
    code: &[u8],
    room: &mut [u8],
    beside: &mut [u8],
) -> Result<u64, CheckError>
    requires recordable { Recordable file.now c room.old beside.old × (c.extent < N) }
    requires size { N ≤ 16385 }
    requires keyed { Keyed file.now code.now 0 }
    ensures { RecordingIs file.now room.old beside.old (recording_answer result) room.new beside.new }
{
    let mut table = [0u16; N];
    record_with(file, c, code, &mut table, room, beside)
}

// The same where the code, of at most M bytes, is edition 1's: it is put in keys first.
fn old_with_table<const M: usize, const N: usize>(
    file: &[u8],
    c: Sections,
    room: &mut [u8],
    beside: &mut [u8],
) -> Result<u64, CheckError>
    requires recordable { Recordable file.now c room.old beside.old × (c.extent ≤ M) × (c.extent < N) }
    requires sizes { (M ≤ 16384) × (N ≤ 16385) }
    requires file_value { edition file.now ≡ 1 }
    ensures { RecordingIs file.now room.old beside.old (recording_answer result) room.new beside.new }
{
    let start = c.code;
    let mut own = [0u8; M];
    keys::edition1::translate(&file[start..], &mut own);
    with_table::<N>(file, c, &own, room, beside)
}

// The check, whose answer is 11 or 0, and the record.
pub(crate) fn check_and_record(
    file: &[u8],
    c: Sections,
    room: &mut [u8],
    beside: &mut [u8],
) -> Result<u64, CheckError>
    requires { Recordable file.now c room.old beside.old }
    ensures { RecordingIs file.now room.old beside.old (recording_answer result) room.new beside.new }
{
    let edition = format::word(file, 0);
    if edition == 1 {
        if c.extent < 512 {
            return old_with_table::<512, 512>(file, c, room, beside);
        }
        return old_with_table::<16384, 16385>(file, c, room, beside);
    }
    let start = c.code;
    let code = &file[start..];
    if c.extent < 512 {
        return with_table::<512>(file, c, code, room, beside);
    }
    if c.extent < 4096 {
        return with_table::<4096>(file, c, code, room, beside);
    }
    with_table::<16385>(file, c, code, room, beside)
}
