// The public call `write`, with its promise.
#![tactic(auto)]

ghost use Rattle.rules.specs.Tables.{tables};
ghost use Rattle.rules.specs.Results.{write_answer};
ghost use Rattle.promises.specs.WritePromises.{WriteKeeps};

use rules::Refusal;

pub mod host;

// Writes the module of these tables, in edition 1, 3 or 4, into the lent output, or refuses and changes nothing.
pub fn write(
    edition: usize,
    constants: &[u8],
    functions: &[u8],
    labels: &[u8],
    structures: &[u8],
    code: &[u8],
    entry: usize,
    out: &mut [u8],
) -> Result<u64, Refusal>
    ensures { WriteKeeps (tables edition constants.now functions.now labels.now structures.now code.now entry) out.old (write_answer result) out.new }
{
    writer::write(
        edition, constants, functions, labels, structures, code, entry, out,
    )
}
