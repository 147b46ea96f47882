//! What is to be done for a command that exchanges or locks a mapping: refused by the command table, or a plan that is the plain step's change.
#![tactic(auto)]

mod deletes;
mod exchanges;
mod finding;
mod locking;
mod locks;
mod merges;
mod moves;
pub mod planning;
pub mod plans;
mod site_rows;
mod splits;
mod statuses;
