//! Laws of histories: which numbers a run gives, what it has learnt, and what stays tried and open as it goes on. There is no code here, so there are no edits.
#![tactic(auto)]

pub mod learning;
pub mod numbers;
pub mod tries;
