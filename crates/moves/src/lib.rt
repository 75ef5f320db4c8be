// Instructions that move slots within their frame. A slot is copied with its type byte, as it is.
#![tactic(auto)]

pub mod locals;
pub mod pointers;
pub mod stack;
