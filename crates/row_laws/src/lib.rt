//! Laws of rows and connections beside live operations of other sessions: what a core of several sessions is after a command by a connection. There is no code here, so there are no edits.
#![tactic(auto)]

pub mod entries;
pub mod leading;
pub mod leaving;
