//! The tables of the plain program: what they hold, what a command's words name in them, and their changes.
#![tactic(auto)]

pub mod changes;
pub mod exchanges;
pub mod named;
pub mod searches;
pub mod state;
pub mod walks;
