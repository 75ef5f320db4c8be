// The same for C: the number is the answer, and what else an answer holds goes through pointers.
ghost use Rattle.rules.specs.Tables.{tables};
ghost use Rattle.std.specs.Prelude.{◌≡◌};
ghost use Rattle.rules.specs.Results.{write_answer};
ghost use Rattle.rules.specs.Writing.{write_number};
ghost use Rattle.rules.specs.Host.{written_after};
ghost use Rattle.promises.specs.WritePromises.{HostWriteKeeps};

use rules::Refusal;

// An answer's number. The length is written with 0 only.
pub fn write_number(answer: Result<u64, Refusal>, written: &mut u64) -> u32
    ensures { (result ≡ write_number (write_answer answer)) × (written.new ≡ written_after (write_answer answer) written.old) }
{
    match answer {
        Ok(n) => {
            *written = n;
            0
        }
        Err(refusal) => u32::from(refusal),
    }
}

// `write` for C.
pub fn host_write(
    edition: u32,
    constants: &[u8],
    functions: &[u8],
    labels: &[u8],
    structures: &[u8],
    code: &[u8],
    entry_length: u32,
    out: &mut [u8],
    written: &mut u64,
) -> u32
    ensures { HostWriteKeeps (tables edition constants.now functions.now labels.now structures.now code.now entry_length) out.old written.old result out.new written.new }
{
    let answer = crate::write(
        edition as usize,
        constants,
        functions,
        labels,
        structures,
        code,
        entry_length as usize,
        out,
    );
    write_number(answer, written)
}
