//! The commands of a connection: it is opened, and rows are put, got and deleted by it.
#![tactic(auto)]

pub mod laws;
pub mod rows;
pub mod stops;
