// The same for C: the number is the answer, and what else an answer holds goes through pointers.
ghost use Rattle.promises.specs.ConvertPromises.{HostUpKeeps, HostDownKeeps};

// `to_edition_4` for C.
pub fn host_to_edition_4(file: &[u8], out: &mut [u8], written: &mut u64) -> u32
    ensures { HostUpKeeps file.now out.old written.old result out.new written.new }
{
    let answer = crate::to_edition_4(file, out);
    saving::host::write_number(answer, written)
}

// `to_edition_3` for C.
pub fn host_to_edition_3(file: &[u8], out: &mut [u8], written: &mut u64) -> u32
    ensures { HostDownKeeps file.now out.old written.old result out.new written.new }
{
    let answer = crate::to_edition_3(file, out);
    saving::host::write_number(answer, written)
}
