// Instructions that compute with the top one or two operands, as values.
#![tactic(auto)]

pub mod comparison;
pub mod operators;
pub mod pointers;
mod results;
pub mod single;
