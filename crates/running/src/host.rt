// The same for C: the number is the answer, and what else an answer holds goes through pointers.
ghost use Rattle.promises.specs.Promises.{lent_of, lent_heap_of, HostRunKeeps};
ghost use Rattle.std.specs.Prelude.{◌≡◌};
ghost use Rattle.rules.specs.Answers.{run_number};
ghost use Rattle.rules.specs.Results.{run_answer};
ghost use Rattle.rules.specs.Host.{steps_after, height_after};

use rules::{RunError, Tally};

// The number of a run that did not finish; of one that did, 0. A refusal writes nothing.
pub fn stop(answer: Result<Tally, RunError>, steps: &mut u64, height: &mut u64) -> u32
    ensures { (result ≡ run_number (run_answer answer)) × (steps.new ≡ steps_after (run_answer answer) steps.old) × (height.new ≡ height_after (run_answer answer) height.old) }
{
    match answer {
        Ok(tally) => {
            *steps = tally.steps;
            *height = tally.height;
            0
        }
        Err(RunError::Rejected(refusal)) => u32::from(refusal),
        Err(RunError::Stopped(exception, tally)) => {
            *steps = tally.steps;
            *height = tally.height;
            u32::from(exception)
        }
    }
}

// `run` for C: takes steps and height out of a finished run, or stops with the number.
pub fn host_run(
    file: &[u8],
    function: u32,
    arg_types: &[u8],
    arg_payloads: &[u8],
    profile: u32,
    allowance: u64,
    payloads: &mut [u8],
    types: &mut [u8],
    heap: &mut [u8],
    blocks: &mut [u8],
    steps: &mut u64,
    height: &mut u64,
) -> u32
    ensures { HostRunKeeps file.now function (lent_of arg_payloads.now arg_types.now) profile allowance (lent_of payloads.old types.old) (lent_heap_of heap.old blocks.old) steps.old height.old result (lent_of payloads.new types.new) (lent_heap_of heap.new blocks.new) steps.new height.new }
{
    let answer = crate::run(
        file,
        function,
        arg_payloads,
        arg_types,
        profile,
        allowance,
        payloads,
        types,
        heap,
        blocks,
    );
    let Ok(tally) = answer else {
        return stop(answer, steps, height);
    };
    *steps = tally.steps;
    *height = tally.height;
    0
}
