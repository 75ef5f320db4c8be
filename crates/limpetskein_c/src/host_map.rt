// A row of pixels in one call, for C.
ghost use Rattle.promises.specs.Promises.{lent_of, lent_heap_of};
ghost use Rattle.promises.specs.MapPromises.{MapKeeps};

// `map` for C. The rows are written with every answer: 13 can come before any row and at a row.
#[unsafe(no_mangle)]
pub extern "C" fn limpetskein_map(
    file: &[u8],
    function: u32,
    profile: u32,
    arg_payloads: &[u8],
    out: &mut [u8],
    allowance: u64,
    payloads: &mut [u8],
    types: &mut [u8],
    heap: &mut [u8],
    blocks: &mut [u8],
    rows: &mut u64,
) -> u32
    ensures { MapKeeps file.now function profile arg_payloads.now out.old allowance (lent_of payloads.old types.old) (lent_heap_of heap.old blocks.old) result rows.new out.new (lent_of payloads.new types.new) (lent_heap_of heap.new blocks.new) }
{
    limpetskein::host_map::limpetskein_map(
        file,
        function,
        profile,
        arg_payloads,
        out,
        allowance,
        payloads,
        types,
        heap,
        blocks,
        rows,
    )
}
