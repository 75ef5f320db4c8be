// The conversions of a module file between editions 3 and 4: other function records and another header; constants, labels, code
// and entry stay.
#![tactic(auto)]

ghost use Rattle.std.specs.Prelude.{◌≡◌, true, false, ◌+◌, ◌*◌, ◌≤◌, length};
ghost use Rattle.rules.specs.Bytes.{some_below};
ghost use Rattle.rules.specs.Tables.{unknown_edition};
ghost use Rattle.rules.specs.ModuleFile.{edition, tables_in};
ghost use Rattle.rules.specs.Results.{refusal_number, refused, write_answer};
ghost use Rattle.rules.specs.Writing.{wrote};
ghost use Rattle.rules.specs.Converting.{raised, lowered, profiled, to_fourth, to_third, refusal_in, down_refusal, not_in_third, to_edition4, to_edition3};
ghost use Rattle.format.specs.Layout.{Packed};
ghost use Rattle.writer.specs.Output.{filled_with};
ghost use Rattle.convert.specs.Rows.{record_put, FirstRows, Headed, GoesDown};

use format::Sections;
use rules::Refusal;

// A function record is copied, without the profile that edition 4 has behind it.
fn put_record(out: &mut [u8], at: usize, table: &[u8], from: usize)
    requires { (at + 20 ≤ length out.old) × (from + 20 ≤ length table.now) }
    ensures { out.new ≡ record_put out.old at table.now from }
{
    out[at..at + 20].copy_from_slice(&table[from..from + 20]);
}

// The records of edition 4 from those of edition 3: a zero word behind each.
fn raise(out: &mut [u8], table: &[u8], n: usize)
    requires { (length table.now ≡ 20 * n) × (length out.old ≡ 24 * n) }
    ensures { out.new ≡ raised n table.now }
{
    for i in 0..n {
        put_record(out, 24 * i, table, 20 * i);
        memory::store32(out, 24 * i + 20, 0);
    }
}

// The records of edition 3 from those of edition 4: each without its last word. Whether one of these, a profile, is not zero.
fn lower(out: &mut [u8], table: &[u8], n: usize) -> bool
    requires { (length table.now ≡ 24 * n) × (length out.old ≡ 20 * n) }
    ensures out_after { out.new ≡ lowered n table.now }
    ensures value { result ≡ some_below n (profiled table.now) }
{
    let mut found = false;
    for i in 0..n {
        put_record(out, 20 * i, table, 24 * i);
        let profile = memory::load32(table, 24 * i + 20);
        found = found | (profile != 0);
    }
    found
}

// Rows 1 and 2 of a file that must be of an edition.
fn other_edition(edition: usize, file: &[u8]) -> Result<(), Refusal>
    requires { unknown_edition edition ≡ false }
    ensures { FirstRows edition file.now (refused result) }
{
    if file.len() < 48 {
        return Err(Refusal::TooShort);
    }
    let found = format::word(file, 0);
    if found == edition {
        return Ok(());
    }
    if (found == 4) & (file.len() < 56) {
        return Err(Refusal::TooShort);
    }
    Err(Refusal::OtherEdition)
}

// Whether a file of edition 4 without structures can be read, and has no profile and nothing else that edition 3 lacks: it can
// be read by the rules of edition 3 then, in one pass, with function records of that edition, in the lent table.
fn in_third_with(file: &[u8], c: Sections, table: &mut [u8]) -> bool
    requires { Headed file.now c × (c.structures ≡ 0) × (20 * c.functions ≤ length table.old) }
    ensures { GoesDown file.now c result }
{
    let n = c.functions;
    let records = c.records;
    let targets = c.targets;
    let code = c.code;
    let end = code + c.extent;
    let size = 20 * n;
    let profiles = lower(&mut table[0..size], &file[records..targets], n);
    if profiles {
        return false;
    }
    let content = reader::content_refusal(
        3,
        &file[56..records],
        &table[0..size],
        &file[targets..code],
        &file[end..end],
        &file[code..end],
        c.entry,
    );
    content.is_ok()
}

// The same, with a table of N bytes.
fn in_third_of<const N: usize>(file: &[u8], c: Sections) -> bool
    requires { Headed file.now c × (c.structures ≡ 0) × (20 * c.functions ≤ N) × (N ≤ 2560) }
    ensures { GoesDown file.now c result }
{
    let mut table = [0u8; N];
    in_third_with(file, c, &mut table)
}

// Whether a file of edition 4 of which rows 1 to 5 don't hold may go down, with a table no larger than its functions ask.
fn in_third(file: &[u8], c: Sections) -> bool
    requires { Headed file.now c }
    ensures { GoesDown file.now c result }
{
    if c.structures != 0 {
        return false;
    }
    if c.functions <= 8 {
        return in_third_of::<160>(file, c);
    }
    if c.functions <= 32 {
        return in_third_of::<640>(file, c);
    }
    if c.functions <= 102 {
        return in_third_of::<2040>(file, c);
    }
    in_third_of::<2560>(file, c)
}

// Writes the module of edition 4, without tests: the header, the constants, the function records, then labels and code as they
// stand.
fn put_fourth(file: &[u8], c: Sections, out: &mut [u8])
    requires { Packed file.now c × (edition file.now ≡ 3) × (length file.now + 8 + 4 * c.functions ≤ length out.old) }
    ensures { out.new ≡ filled_with (to_fourth (tables_in file.now)) out.old }
{
    let n = c.functions;
    let records = c.records;
    let targets = c.targets;
    let functions_at = records + 8;
    let labels_at = functions_at + 24 * n;
    let end = file.len() + 8 + 4 * n;
    writer::put_header(
        &mut out[0..56],
        4,
        12 * c.constants,
        24 * n,
        8 * c.labels,
        c.extent,
        0,
        c.entry,
    );
    writer::put_section(&mut out[56..functions_at], &file[48..records]);
    raise(
        &mut out[functions_at..labels_at],
        &file[records..targets],
        n,
    );
    writer::put_section(&mut out[labels_at..end], &file[targets..]);
}

// Writes the module of edition 3, likewise.
fn put_third(file: &[u8], c: Sections, out: &mut [u8])
    requires { Packed file.now c × (edition file.now ≡ 4) × (c.structures ≡ 0) × (length file.now ≤ length out.old + 8 + 4 * c.functions) }
    ensures { out.new ≡ filled_with (to_third (tables_in file.now)) out.old }
{
    let n = c.functions;
    let records = c.records;
    let targets = c.targets;
    let functions_at = records - 8;
    let labels_at = functions_at + 20 * n;
    let end = file.len() - 8 - 4 * n;
    writer::put_header(
        &mut out[0..48],
        3,
        12 * c.constants,
        20 * n,
        8 * c.labels,
        c.extent,
        0,
        c.entry,
    );
    writer::put_section(&mut out[48..functions_at], &file[56..records]);
    lower(
        &mut out[functions_at..labels_at],
        &file[records..targets],
        n,
    );
    writer::put_section(&mut out[labels_at..end], &file[targets..]);
}

// The module of edition 4, if the output is long enough.
fn deliver_fourth(file: &[u8], c: Sections, out: &mut [u8]) -> Result<u64, Refusal>
    requires { Packed file.now c × (refusal_in 3 file.now ≡ 0) }
    ensures { wrote (write_answer result) out.new ≡ to_edition4 file.now out.old }
{
    let longer = file.len() + 8 + 4 * c.functions;
    if out.len() < longer {
        return Err(Refusal::OutputTooShort);
    }
    put_fourth(file, c, out);
    Ok(longer as u64)
}

// The module of edition 3, if the output is long enough.
fn deliver_third(file: &[u8], c: Sections, out: &mut [u8]) -> Result<u64, Refusal>
    requires { Packed file.now c × (edition file.now ≡ 4) × (c.structures ≡ 0) × (down_refusal file.now ≡ 0) }
    ensures { wrote (write_answer result) out.new ≡ to_edition3 file.now out.old }
{
    let shorter = file.len() - 8 - 4 * c.functions;
    if out.len() < shorter {
        return Err(Refusal::OutputTooShort);
    }
    put_third(file, c, out);
    Ok(shorter as u64)
}

// Why a file of edition 4 can't become one of edition 3: a refusal 1 to 9, or 18.
fn down_refusal(file: &[u8]) -> Refusal
    requires { (refusal_in 4 file.now ≡ 0 → not_in_third (tables_in file.now) ≡ true) × (edition file.now ≡ 4) }
    ensures { refusal_number result ≡ down_refusal file.now }
{
    match reader::open(file) {
        Err(refusal) => refusal,
        Ok(_) => Refusal::NotInEdition3,
    }
}

// Writes the module of edition 4 of a file of edition 3, each profile 0, or refuses and changes nothing.
pub fn to_edition_4(file: &[u8], out: &mut [u8]) -> Result<u64, Refusal>
    ensures { wrote (write_answer result) out.new ≡ to_edition4 file.now out.old }
{
    other_edition(3, file)?;
    let c = reader::open(file)?;
    deliver_fourth(file, c, out)
}

// Writes the module of edition 3 of a file of edition 4, or refuses and changes nothing.
pub fn to_edition_3(file: &[u8], out: &mut [u8]) -> Result<u64, Refusal>
    ensures { wrote (write_answer result) out.new ≡ to_edition3 file.now out.old }
{
    other_edition(4, file)?;
    format::fourth_refusal(file)?;
    let structures = format::word(file, 48);
    let c = format::header(file, 56, 24, structures);
    let goes = in_third(file, c);
    if goes {
        return deliver_third(file, c, out);
    }
    Err(down_refusal(file))
}
