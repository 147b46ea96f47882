//! Tests of the plans of commands, over stores in memory.
#![tactic(auto)]

#[cfg(test)]
mod adding;
#[cfg(test)]
mod answers;
#[cfg(test)]
mod changes;
#[cfg(test)]
mod limits;
#[cfg(test)]
mod points;
#[cfg(test)]
mod refusals;
#[cfg(test)]
mod stores;
