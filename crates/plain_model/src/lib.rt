//! The plain shard map: commands, replies and histories, what each command does to the plain state, and the lines that are written.
#![tactic(auto)]

pub mod commands;
pub mod finish;
pub mod headline_laws;
pub mod history;
pub mod laws;
pub mod plans;
pub mod refusal_laws;
pub mod replies;
pub mod run_laws;
pub mod short_laws;
