//! Scripts with the lines that answer them, for every program that runs scripts.
#![tactic(auto)]

pub mod byte_keys;
pub mod cuts;
pub mod deletes;
pub mod guids;
pub mod limits;
pub mod locks;
pub mod maps;
pub mod merges;
pub mod moves;
pub mod new_mappings;
pub mod numbers;
pub mod rows;
pub mod sessions;
pub mod statuses;
pub mod ticks;
pub mod worked;

/// A line, and the lines that answer it with line feeds between. A line `session N` says whose the commands after it are, and nothing answers it.
pub type Line = (&'static str, &'static str);

/// Lines that are asked over empty stores with the locations `s/a`, `s/b` and `s/c`.
pub struct Script {
    /// What it shows.
    pub about: &'static str,
    pub lines: &'static [Line],
}
