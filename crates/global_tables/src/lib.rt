//! What the cells of the global store say.
#![tactic(auto)]

pub mod counts;
pub mod faults;
pub mod groups;
mod keys;
pub mod known;
pub mod lists;
pub mod lookups;
pub mod pieces;
mod places;
pub mod reads;
pub mod rows;
