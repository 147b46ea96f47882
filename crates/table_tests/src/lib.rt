//! Tests of the readers of the stores, over stores in memory.
#![tactic(auto)]

#[cfg(test)]
mod copies;
#[cfg(test)]
mod globals;
#[cfg(test)]
mod locals;
