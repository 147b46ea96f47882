//! What people and a program say to one another: the bytes that are read, and how the end of a run is told.
#![tactic(auto)]

mod adding;
mod arguments;
pub mod command_line;
pub mod endings;
mod job_commands;
mod key_words;
mod map_commands;
mod mapping_commands;
pub mod memory_lines;
mod numbers;
pub mod programs;
pub mod reading;
pub mod replies;
mod reply_words;
mod row_commands;
mod script_lines;
pub mod scripts;
mod site_commands;
mod stops;
mod values;
pub mod verbs;
mod words;
