// The public calls `formula` and `formula_stop`, with their promises.
#![tactic(auto)]

ghost use Rattle.rules.specs.Grammar.{StopsAt};
ghost use Rattle.rules.specs.Results.{write_answer};
ghost use Rattle.promises.specs.FormulaPromises.{FormulaKeeps};

use rules::Refusal;

pub mod host;

// Compiles a formula line and writes its module into the lent output, or refuses and changes nothing.
pub fn formula(line: &[u8], out: &mut [u8]) -> Result<u64, Refusal>
    ensures { FormulaKeeps line.now out.old (write_answer result) out.new }
{
    formula::compile(line, out)
}

// The place where a formula line stops making sense: its length where it is in the grammar or ends too early.
pub fn formula_stop(line: &[u8]) -> usize
    ensures { StopsAt line.now result }
{
    formula::stop(line)
}
