// The heights of every body of an accepted module, and where its calls' first arguments lie.
#![tactic(auto)]

mod bodies;
mod effects;
pub mod heights;
mod waits;
mod walk;
