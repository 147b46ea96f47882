//! Tests of the base crates by their public calls. They stand here so that the base is proved without them.
#![tactic(auto)]

#[cfg(test)]
mod cells;
#[cfg(test)]
mod faults;
#[cfg(test)]
mod keys;
#[cfg(test)]
mod kinds;
#[cfg(test)]
mod memory;
