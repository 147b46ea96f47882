//! Tests of three sessions that take turns in many orders, over stores in memory.
#![tactic(auto)]

#[cfg(test)]
mod rounds;
#[cfg(test)]
mod rounds_with_faults;
#[cfg(test)]
mod turns;
