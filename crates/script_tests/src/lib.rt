//! Tests of the script language by its public calls. They stand here so that the language is proved without them.
#![tactic(auto)]

#[cfg(test)]
mod commands;
#[cfg(test)]
mod lines;
#[cfg(test)]
mod places;
#[cfg(test)]
mod refusals;
#[cfg(test)]
mod replies;
#[cfg(test)]
mod rows;
#[cfg(test)]
mod word_kinds;
