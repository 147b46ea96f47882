//! Laws of stores and of images: what keeps them sound, what they stand for after a change, and how operations come along on them. There is no code here, so there are no edits.
#![tactic(auto)]

pub mod catalogs;
pub mod commits;
pub mod comparing;
pub mod keeping;
pub mod meanings;
pub mod progress;
pub mod rows;
pub mod shapes;
pub mod sites;
pub mod steps;
pub mod stores;
