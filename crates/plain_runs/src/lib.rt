//! Laws of runs: what the plain step has to do with a run in which no call failed. There is no code here, so there are no edits.
#![tactic(auto)]

pub mod runs;
