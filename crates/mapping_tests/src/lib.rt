//! Tests of the plans of mapping commands, over stores in memory.
#![tactic(auto)]

#[cfg(test)]
mod asked;
#[cfg(test)]
mod delete_pairs;
#[cfg(test)]
mod exchanges;
#[cfg(test)]
mod lock_pairs;
#[cfg(test)]
mod locks;
#[cfg(test)]
mod merge_pairs;
#[cfg(test)]
mod move_pairs;
#[cfg(test)]
mod others;
#[cfg(test)]
mod refusals;
#[cfg(test)]
mod scripts;
#[cfg(test)]
mod split_pairs;
#[cfg(test)]
mod status_pairs;
#[cfg(test)]
mod stores;
#[cfg(test)]
mod told_stores;
