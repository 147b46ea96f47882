//! What the tests of events share: a core over stores in memory whose sessions do only what they may, stores to begin with, calls that fail,
//! and a judge of what stands in stores.
#![tactic(auto)]

pub mod commands;
pub mod faults;
pub mod judge;
pub mod listing;
pub mod runs;
pub mod stores;
pub mod told_rows;
pub mod turns;
pub mod words;
