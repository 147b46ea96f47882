//! Scripts that crash at each moment, over stores in memory.
#![tactic(auto)]

#[cfg(test)]
mod each_moment;
#[cfg(test)]
mod offline;
