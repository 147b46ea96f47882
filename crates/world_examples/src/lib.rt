//! Examples of the definitions, as laws: small values that a definition accepts, and some that it refuses. There is no code here, so there are no edits.
#![tactic(auto)]

pub mod jobs;
pub mod lawful;
pub mod sound;
pub mod spans;
pub mod stages;
pub mod steps;
