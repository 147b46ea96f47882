//! Cells, what the stores that hold them stand for, and the outside world behind two traits.
#![tactic(auto)]

pub mod cells;
pub mod changes;
mod grammar;
pub mod items;
pub mod key_texts;
mod known;
pub mod limits;
pub mod locations;
pub mod memory;
pub mod names;
pub mod norm_keys;
pub mod operations;
pub mod outside;
mod padded;
pub mod spans;
