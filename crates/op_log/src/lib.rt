//! The operation log: which operations a command must keep off, and that operations, short changes and rows that keep off one another leave each other lawful.
#![tactic(auto)]

pub mod laws;
pub mod reaches;
pub mod sites;
