// The public call `run`, with its promise.
#![tactic(auto)]

ghost use Rattle.rules.specs.Results.{run_answer};
ghost use Rattle.promises.specs.Promises.{lent_of, lent_heap_of, RunKeeps};

use rules::{RunError, Tally};

pub mod host;

// The run of a body of any bytes on the lent arguments, for a scan of this profile, on the lent slots and heap: cells, and entries
// of blocks. ffffffff names the entry.
pub fn run(
    file: &[u8],
    function: u32,
    arg_payloads: &[u8],
    arg_types: &[u8],
    profile: u32,
    allowance: u64,
    payloads: &mut [u8],
    types: &mut [u8],
    heap: &mut [u8],
    blocks: &mut [u8],
) -> Result<Tally, RunError>
    ensures { RunKeeps file.now function (lent_of arg_payloads.now arg_types.now) profile allowance (lent_of payloads.old types.old) (lent_heap_of heap.old blocks.old) (run_answer result) (lent_of payloads.new types.new) (lent_heap_of heap.new blocks.new) }
{
    runs::run(
        file,
        function,
        arg_payloads,
        arg_types,
        profile,
        allowance,
        payloads,
        types,
        heap,
        blocks,
    )
}
