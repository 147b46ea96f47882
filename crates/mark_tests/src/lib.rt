//! Tests of the changes that mark, undo and settle, over stores in memory.
#![tactic(auto)]

#[cfg(test)]
mod leftovers;
#[cfg(test)]
mod lines;
#[cfg(test)]
mod shapes;
#[cfg(test)]
mod worlds;
