// The public calls `to_edition_4` and `to_edition_3`, with their promises.
#![tactic(auto)]

ghost use Rattle.rules.specs.Results.{write_answer};
ghost use Rattle.promises.specs.ConvertPromises.{UpKeeps, DownKeeps};

use rules::Refusal;

pub mod host;

// Writes the module of edition 4 of a module of edition 3, its functions for any profile, or refuses and changes nothing.
pub fn to_edition_4(file: &[u8], out: &mut [u8]) -> Result<u64, Refusal>
    ensures { UpKeeps file.now out.old (write_answer result) out.new }
{
    convert::to_edition_4(file, out)
}

// Writes the module of edition 3 of a module of edition 4, or refuses and changes nothing.
pub fn to_edition_3(file: &[u8], out: &mut [u8]) -> Result<u64, Refusal>
    ensures { DownKeeps file.now out.old (write_answer result) out.new }
{
    convert::to_edition_3(file, out)
}
