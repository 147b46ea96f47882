//! The connections of sessions to the rows under keys.
#![tactic(auto)]

pub mod links;
pub mod sessions;
pub mod table;
