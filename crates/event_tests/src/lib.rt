//! Tests of the events of a core, over stores in memory.
#![tactic(auto)]

#[cfg(test)]
mod beside;
#[cfg(test)]
mod crossing;
#[cfg(test)]
mod events;
#[cfg(test)]
mod locks;
#[cfg(test)]
mod opening;
#[cfg(test)]
mod trails;
