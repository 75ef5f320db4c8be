// The public call `map`, with its promise.
#![tactic(auto)]

ghost use Rattle.promises.specs.Promises.{lent_of, lent_heap_of};
ghost use Rattle.rules.specs.Results.{map_answer};
ghost use Rattle.promises.specs.MapPromises.{MapKeeps};

use rules::MapError;

pub mod host;

// A function of any bytes on each row of the lent payloads, for a scan of this profile, each row with the whole allowance: 8 bytes a
// parameter, and 8 bytes of the lent outputs a row. The first row that does not finish ends the call.
pub fn map(
    file: &[u8],
    function: u32,
    profile: u32,
    arg_payloads: &[u8],
    out: &mut [u8],
    allowance: u64,
    payloads: &mut [u8],
    types: &mut [u8],
    heap: &mut [u8],
    blocks: &mut [u8],
) -> Result<u64, MapError>
    ensures { MapKeeps file.now function profile arg_payloads.now out.old allowance (lent_of payloads.old types.old) (lent_heap_of heap.old blocks.old) (map_answer result).number (map_answer result).rows out.new (lent_of payloads.new types.new) (lent_heap_of heap.new blocks.new) }
{
    rows::map(
        file,
        function,
        profile,
        arg_payloads,
        out,
        allowance,
        payloads,
        types,
        heap,
        blocks,
    )
}
