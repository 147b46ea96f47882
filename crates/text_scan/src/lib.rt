//! Texts read a byte at a time: where a text leaves its grammar, and one scanner for every grammar.
#![tactic(auto)]

pub mod laws;
pub mod machine;
pub mod scanning;
