//! The plain program: it computes the plain step, slowly, over ordered tables, and judges the real one.
#![tactic(auto)]

pub mod asking;
mod checks;
mod effects;
mod map_refusals;
mod mapping_refusals;
mod row_effects;
mod row_refusals;
