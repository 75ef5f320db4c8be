// The instructions that move between places and frames: `jmp` and the conditional branches; `call`, `ret`, and the first frame.
#![tactic(auto)]

pub mod calls;
pub mod jumps;
