//! What the program `shardctl` does, which program crates share that differ in what they are run on.
#![tactic(auto)]

pub mod program;
pub mod starting;
