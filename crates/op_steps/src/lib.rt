//! The steps of a long operation: it begins, goes on stage by stage, is undone, and all are undone when stores open again.
#![tactic(auto)]

pub mod advancing;
pub mod beginning;
pub mod clearing;
mod commits;
mod committing;
pub mod laws;
pub mod live;
pub mod passing_over;
mod settling;
pub mod stages;
mod stepping;
pub mod undoing;
