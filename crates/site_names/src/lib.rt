//! The first location that the cells of the global store name and the world doesn't know.
#![tactic(auto)]

mod naming;
pub mod unknown;
