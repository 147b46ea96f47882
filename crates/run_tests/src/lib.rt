//! Scripts with their replies, over stores in memory and over `sqlite` in memory.
#![tactic(auto)]

#[cfg(test)]
mod adding_tests;
#[cfg(test)]
mod limit_tests;
#[cfg(test)]
mod map_tests;
#[cfg(test)]
mod mapping_tests;
#[cfg(test)]
mod script_tests;
