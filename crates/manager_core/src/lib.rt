//! The core of the manager: it owns a world, the history and a copy of the tables, and takes one event after the other.
#![tactic(auto)]

mod answers;
mod asking;
pub mod beginning;
mod clearing;
mod coming;
pub mod doings;
mod ending;
mod going;
pub mod manager;
pub mod moving;
pub mod opening;
pub mod settling;
