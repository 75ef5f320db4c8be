// The same for C: the number is the answer, and what else an answer holds goes through pointers.
ghost use Rattle.std.specs.Prelude.{◌≡◌};
ghost use Rattle.rules.specs.Results.{map_answer};
ghost use Rattle.promises.specs.Promises.{lent_of, lent_heap_of};
ghost use Rattle.promises.specs.MapPromises.{MapKeeps};

use rules::MapError;

// An answer's number. The rows before the first that did not finish are written with every answer.
pub fn map_number(answer: Result<u64, MapError>, rows: &mut u64) -> u32
    ensures { (result ≡ (map_answer answer).number) × (rows.new ≡ (map_answer answer).rows) }
{
    match answer {
        Ok(n) => {
            *rows = n;
            0
        }
        Err(MapError::Refused(refusal, n)) => {
            *rows = n;
            u32::from(refusal)
        }
        Err(MapError::Stopped(exception, n)) => {
            *rows = n;
            u32::from(exception)
        }
    }
}

// `map` for C. The rows are written with every answer: 13 can come before any row and at a row.
pub fn host_map(
    file: &[u8],
    function: u32,
    profile: u32,
    arg_payloads: &[u8],
    out: &mut [u8],
    allowance: u64,
    payloads: &mut [u8],
    types: &mut [u8],
    heap: &mut [u8],
    blocks: &mut [u8],
    rows: &mut u64,
) -> u32
    ensures { MapKeeps file.now function profile arg_payloads.now out.old allowance (lent_of payloads.old types.old) (lent_heap_of heap.old blocks.old) result rows.new out.new (lent_of payloads.new types.new) (lent_heap_of heap.new blocks.new) }
{
    let answer = crate::map(
        file,
        function,
        profile,
        arg_payloads,
        out,
        allowance,
        payloads,
        types,
        heap,
        blocks,
    );
    map_number(answer, rows)
}
