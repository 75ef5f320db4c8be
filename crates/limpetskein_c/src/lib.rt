// The library for C: each call of the library under its C name, with the same promise.
#![tactic(auto)]

mod host;
mod host_map;
