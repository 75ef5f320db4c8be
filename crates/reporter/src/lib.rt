// The stack that an accepted module needs: the check, the walks by heights, the needs over the calls, the report.
#![tactic(auto)]

mod calls;
mod report;

ghost use Rattle.std.specs.Prelude.{◌≡◌, ◌≤◌, ◌<◌, length};
ghost use Rattle.rules.specs.ModuleFile.{edition, refusal};
ghost use Rattle.rules.specs.Results.{need_answer};
ghost use Rattle.format.specs.Layout.{Packed};
ghost use Rattle.reader.specs.Cut.{Blank};
ghost use Rattle.keys.specs.Keys.{Keyed};
ghost use Rattle.reporter.specs.Told.{Checkable, ReportIs};

use format::Sections;
use rules::{NeedError, Refusal};

// With a blank table for the places, and the code in keys.
fn report_with(
    file: &[u8],
    c: Sections,
    code: &[u8],
    table: &mut [u16],
    room: &mut [u8],
    out: &mut [u8],
) -> Result<u64, NeedError>
    requires checkable { Checkable file.now c room.old }
    requires extent_in_bounds { (c.extent < length table.old) × Blank table.old }
    requires keyed { Keyed file.now code.now 0 }
    ensures { ReportIs file.now room.old out.old (need_answer result) room.new out.new }
{
    checker::check_with(file, c, code, table, room)?;
    report::accepted(file, c, code, table, room, out)
}

// With a table of N places.
fn with_table<const N: usize>(
    file: &[u8],
    c: Sections,
    code: &[u8],
    room: &mut [u8],
    out: &mut [u8],
) -> Result<u64, NeedError>
    requires checkable { Checkable file.now c room.old × (c.extent < N) }
    requires size { N ≤ 16385 }
    requires keyed { Keyed file.now code.now 0 }
    ensures { ReportIs file.now room.old out.old (need_answer result) room.new out.new }
{
    let mut table = [0u16; N];
    report_with(file, c, code, &mut table, room, out)
}

// The same where the code, of at most M bytes, is edition 1's: it is put in keys first.
fn old_with_table<const M: usize, const N: usize>(
    file: &[u8],
    c: Sections,
    room: &mut [u8],
    out: &mut [u8],
) -> Result<u64, NeedError>
    requires checkable { Checkable file.now c room.old × (c.extent ≤ M) × (c.extent < N) }
    requires sizes { (M ≤ 16384) × (N ≤ 16385) }
    requires file_value { edition file.now ≡ 1 }
    ensures { ReportIs file.now room.old out.old (need_answer result) room.new out.new }
{
    let from = c.code;
    let mut own = [0u8; M];
    keys::edition1::translate(&file[from..], &mut own);
    with_table::<N>(file, c, &own, room, out)
}

// The report of a module that can be read, with a table no larger than the code asks.
fn report_opened(
    file: &[u8],
    c: Sections,
    room: &mut [u8],
    out: &mut [u8],
) -> Result<u64, NeedError>
    requires { Packed file.now c × (refusal file.now ≡ 0) }
    ensures { ReportIs file.now room.old out.old (need_answer result) room.new out.new }
{
    if room.len() < 64 * c.labels {
        return Err(NeedError::Refused(Refusal::RoomTooShort));
    }
    let edition = format::word(file, 0);
    if edition == 1 {
        if c.extent < 512 {
            return old_with_table::<512, 512>(file, c, room, out);
        }
        return old_with_table::<16384, 16385>(file, c, room, out);
    }
    let from = c.code;
    let code = &file[from..];
    if c.extent < 512 {
        return with_table::<512>(file, c, code, room, out);
    }
    if c.extent < 4096 {
        return with_table::<4096>(file, c, code, room, out);
    }
    with_table::<16385>(file, c, code, room, out)
}

// The needs of any bytes in any room: what the check refuses, 47 with the first body from which calls come back, 16, or 0 with the
// report's length.
pub fn report_needs(file: &[u8], room: &mut [u8], out: &mut [u8]) -> Result<u64, NeedError>
    ensures { ReportIs file.now room.old out.old (need_answer result) room.new out.new }
{
    let c = reader::open(file)?;
    report_opened(file, c, room, out)
}
