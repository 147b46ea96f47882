//! Runs of scripts in which calls fail, and what must be so of each of them.
#![tactic(auto)]

pub mod failing;
pub mod watched;
