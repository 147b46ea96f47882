//! Tests of the steps of long operations, over stores in memory.
#![tactic(auto)]

#[cfg(test)]
mod adds;
#[cfg(test)]
mod leftovers;
#[cfg(test)]
mod parts;
#[cfg(test)]
mod shapes;
#[cfg(test)]
mod stages;
#[cfg(test)]
mod stores;
#[cfg(test)]
mod worlds;
