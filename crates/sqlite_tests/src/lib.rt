//! Tests of the worlds over `sqlite` by the calls of the trait. They stand here so that the worlds are proved without them.
#![tactic(auto)]

#[cfg(test)]
mod alike;
#[cfg(test)]
mod asked;
#[cfg(test)]
mod folders;
#[cfg(test)]
mod parts;
