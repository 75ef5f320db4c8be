// The module writer: from tables that are lent separately to a module file in a lent output.
#![tactic(auto)]

ghost use Rattle.std.specs.Prelude.{◌≡◌, ◌+◌, ◌<◌, ◌≤◌, ◌^◌, length};
ghost use Rattle.rules.specs.Bytes.{words, written};
ghost use Rattle.rules.specs.Tables.{tables, header_size};
ghost use Rattle.rules.specs.Results.{refused, write_answer};
ghost use Rattle.rules.specs.Writing.{header_words, table_refusal, wrote};
ghost use Rattle.rules.specs.Writing as Writing;
ghost use Rattle.writer.specs.Output.{Takes, filled_with};

use rules::Refusal;

// A section is copied into its own part of the output, by 64 bytes and then by eight, of which the last may overlap those before: the
// library's copy of any length is a call of `memmove`, which the archive asks of no host.
pub fn put_section(out: &mut [u8], table: &[u8])
    requires { length out.old ≡ length table.now }
    ensures { out.new ≡ table.now }
{
    let n = table.len();
    if n < 8 {
        for i in 0..n {
            out[i] = table[i];
        }
        return;
    }
    let blocks = n / 64;
    for k in 0..blocks {
        out[64 * k..64 * k + 64].copy_from_slice(&table[64 * k..64 * k + 64]);
    }
    for j in 8 * blocks..(n - 1) / 8 {
        memory::store64(out, 8 * j, memory::load64(table, 8 * j));
    }
    memory::store64(out, n - 8, memory::load64(table, n - 8));
}

// Two words of the header: a count and an offset.
fn put_pair(out: &mut [u8], at: usize, count: usize, offset: usize)
    requires { (at + 8 ≤ length out.old) × (at ≤ 48) × (count < 2 ^ 32) × (offset < 2 ^ 32) }
    ensures { out.new ≡ written 4 (written 4 out.old at count) (at + 4) offset }
{
    memory::store32(out, at, count as u32);
    memory::store32(out, at + 4, offset as u32);
}

// The header, from the edition and the lengths in bytes of constants, functions, labels, code and structures.
pub fn put_header(
    out: &mut [u8],
    edition: usize,
    constants: usize,
    functions: usize,
    labels: usize,
    code: usize,
    structures: usize,
    entry: usize,
)
    requires { (length out.old ≡ header_size edition) × (edition < 2 ^ 32) × (header_size edition + constants + functions + labels + code + structures < 2 ^ 32) × (entry < 2 ^ 32) }
    ensures { out.new ≡ words (header_words edition (header_size edition) constants functions labels code structures entry) }
{
    let constants_at = out.len();
    let functions_at = constants_at + constants;
    let labels_at = functions_at + functions;
    let code_at = labels_at + labels;
    let structures_at = code_at + code;
    let function_count = format::function_count(edition, functions);
    put_pair(out, 0, edition, structures_at + structures);
    put_pair(out, 8, constants / 12, constants_at);
    put_pair(out, 16, function_count, functions_at);
    put_pair(out, 24, labels / 8, labels_at);
    put_pair(out, 32, code, code_at);
    put_pair(out, 40, entry, 0);
    if edition == 4 {
        put_pair(out, 48, structures / 12, structures_at);
    }
}

// Writes the file of these tables, without tests: the header, then each section into its own part of the output.
pub fn put(
    edition: usize,
    constants: &[u8],
    functions: &[u8],
    labels: &[u8],
    structures: &[u8],
    code: &[u8],
    entry: usize,
    out: &mut [u8],
)
    requires { Takes out.old (tables edition constants.now functions.now labels.now structures.now code.now entry) }
    ensures { out.new ≡ filled_with (tables edition constants.now functions.now labels.now structures.now code.now entry) out.old }
{
    let constants_at = format::header_size(edition);
    let functions_at = constants_at + constants.len();
    let labels_at = functions_at + functions.len();
    let code_at = labels_at + labels.len();
    let structures_at = code_at + code.len();
    let end = structures_at + structures.len();
    put_header(
        &mut out[0..constants_at],
        edition,
        constants.len(),
        functions.len(),
        labels.len(),
        code.len(),
        structures.len(),
        entry,
    );
    put_section(&mut out[constants_at..functions_at], constants);
    put_section(&mut out[functions_at..labels_at], functions);
    put_section(&mut out[labels_at..code_at], labels);
    put_section(&mut out[code_at..structures_at], code);
    put_section(&mut out[structures_at..end], structures);
}

// Rows 2 and 4 to 9 of tables.
fn table_refusal(
    edition: usize,
    constants: &[u8],
    functions: &[u8],
    labels: &[u8],
    structures: &[u8],
    code: &[u8],
    entry: usize,
) -> Result<(), Refusal>
    ensures { refused result ≡ table_refusal (tables edition constants.now functions.now labels.now structures.now code.now entry) }
{
    if (edition != 1) & (edition != 3) & (edition != 4) {
        return Err(Refusal::OtherEdition);
    }
    let n = code.len();
    let function_count = format::function_count(edition, functions.len());
    let over = format::over_limits(
        edition,
        constants.len() / 12,
        function_count,
        labels.len() / 8,
        n,
        structures.len() / 12,
    );
    if over {
        return Err(Refusal::OverLimit);
    }
    let function_rest = format::function_rest(edition, functions.len());
    let broken = (constants.len() % 12 != 0)
        | (function_rest != 0)
        | (labels.len() % 8 != 0)
        | (structures.len() % 12 != 0)
        | (n < entry);
    if broken {
        return Err(Refusal::NotPacked);
    }
    reader::content_refusal(
        edition, constants, functions, labels, structures, code, entry,
    )
}

// Writes tables that are not refused, if the output is long enough.
fn deliver(
    edition: usize,
    constants: &[u8],
    functions: &[u8],
    labels: &[u8],
    structures: &[u8],
    code: &[u8],
    entry: usize,
    out: &mut [u8],
) -> Result<u64, Refusal>
    requires { table_refusal (tables edition constants.now functions.now labels.now structures.now code.now entry) ≡ 0 }
    ensures { wrote (write_answer result) out.new ≡ Writing.write (tables edition constants.now functions.now labels.now structures.now code.now entry) out.old }
{
    let header = format::header_size(edition);
    let tables = constants.len() + functions.len() + labels.len();
    let length = header + tables + code.len() + structures.len();
    if out.len() < length {
        return Err(Refusal::OutputTooShort);
    }
    put(
        edition, constants, functions, labels, structures, code, entry, out,
    );
    Ok(length as u64)
}

// Writes a module of an edition, or refuses and changes nothing. Other editions than 4 have no structures then: told so, the
// compiler leaves out of their way what edition 4 writes more.
pub fn write(
    edition: usize,
    constants: &[u8],
    functions: &[u8],
    labels: &[u8],
    structures: &[u8],
    code: &[u8],
    entry: usize,
    out: &mut [u8],
) -> Result<u64, Refusal>
    ensures { wrote (write_answer result) out.new ≡ Writing.write (tables edition constants.now functions.now labels.now structures.now code.now entry) out.old }
{
    table_refusal(
        edition, constants, functions, labels, structures, code, entry,
    )?;
    if edition == 4 {
        return deliver(
            4, constants, functions, labels, structures, code, entry, out,
        );
    }
    let none = &code[0..0];
    deliver(
        edition, constants, functions, labels, none, code, entry, out,
    )
}
