//! A turnstile: one value that threads take in turn, with a history that only grows and of which each entry is counted once.
#![tactic(auto)]

mod closing;
mod historied;
mod opening;
mod passes;
mod plays;
#[cfg(test)]
mod tests;
mod turns;
mod view;

pub use historied::Historied;
pub use passes::Pass;
pub use turns::Turnstile;
