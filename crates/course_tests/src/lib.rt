//! Tests of the course of long commands, also of those that a failing call cuts off, over stores in memory.
#![tactic(auto)]

#[cfg(test)]
mod abandoned;
#[cfg(test)]
mod courses;
#[cfg(test)]
mod unsettled;
