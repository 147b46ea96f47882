//! A world over `sqlite`: one table of cells a site, in memory or in the files of a folder.
#![tactic(auto)]

mod files;
mod memory;
mod world;

pub use world::SqliteWorld;
