//! The table of scripts, asked of the plain program.
#![tactic(auto)]

#[cfg(test)]
mod asked;
#[cfg(test)]
mod scripts;
#[cfg(test)]
mod started;
