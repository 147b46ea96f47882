//! Scripts in which calls fail, over stores in memory.
#![tactic(auto)]

#[cfg(test)]
mod each_call;
#[cfg(test)]
mod kinds;
#[cfg(test)]
mod openings;
#[cfg(test)]
mod single_calls;
