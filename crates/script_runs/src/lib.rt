//! What tests of scripts share: runs over stores in memory, what they wrote, and what crashes of them leave.
#![tactic(auto)]

pub mod crash_scripts;
pub mod fault_scripts;
pub mod images;
pub mod plain_answers;
pub mod runs;
pub mod told;
pub mod worlds;
