//! Tests of the first location that the stores name and the world doesn't know, over stores in memory.
#![tactic(auto)]

#[cfg(test)]
mod firsts;
#[cfg(test)]
mod stores;
