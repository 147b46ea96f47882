//! Laws of connections: what commands, commits and entries leave of those that are live. There is no code here, so there are no edits.
#![tactic(auto)]

pub mod commits;
pub mod ending;
pub mod entries;
pub mod rows;
pub mod shorts;
pub mod states;
