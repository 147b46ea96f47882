//! What is to be done for a command of the maps: refused by the command table, or a plan that is the plain step's change.
#![tactic(auto)]

mod adding;
pub mod asking;
mod changes;
mod long_plans;
mod mappings;
mod maps;
mod new_mappings;
mod overlapping;
pub mod planning;
pub mod refusals;
mod shards;
mod short_plans;
pub mod stops;
mod tables;
mod unshard_refusals;
pub mod words;
