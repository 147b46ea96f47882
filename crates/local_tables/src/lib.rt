//! What the local rows of a shard say.
#![tactic(auto)]

pub mod altering;
mod below;
pub mod changes;
mod judging;
pub mod laws;
pub mod resolving;
mod scanning;
mod sweeping;
