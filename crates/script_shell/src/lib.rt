//! The program `shardctl` over any world and any source.
#![tactic(auto)]

mod run;
pub mod shell;
pub mod std_source;
