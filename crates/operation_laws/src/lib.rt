//! What each step of a long operation makes of a core of several sessions: laws on definitions alone.
#![tactic(auto)]

pub mod advancing;
pub mod answering;
pub mod beginning;
pub mod courses;
pub mod recovering;
pub mod settling;
pub mod short;
pub mod telling;
