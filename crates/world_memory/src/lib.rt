//! A world and a source in memory: the stores, the output and the input.
#![tactic(auto)]

mod contents;
mod copies;
pub mod faults;
mod find;
pub mod source;
pub mod world;
