// The same for C: the number is the answer, and what else an answer holds goes through pointers.
ghost use Rattle.promises.specs.FormulaPromises.{HostFormulaKeeps};

// `formula` for C.
pub fn host_formula(line: &[u8], out: &mut [u8], written: &mut u64) -> u32
    ensures { HostFormulaKeeps line.now out.old written.old result out.new written.new }
{
    let answer = crate::formula(line, out);
    saving::host::write_number(answer, written)
}
