//! Cells as bytes: each cell has one spelling.
#![tactic(auto)]

mod choices;
pub mod faults;
mod jobs;
pub mod laws;
mod locations;
mod names;
mod numbers;
pub mod ordering;
mod parts;
mod pieces;
pub mod reading;
mod rows;
mod spans;
mod stops;
#[cfg(test)]
mod tests;
mod texts;
pub mod writing;
