//! Examples of the definitions of the history, as laws: small histories that a definition accepts, and some that it refuses. There is no code here, so there are no edits.
#![tactic(auto)]

pub mod caches;
pub mod follows;
pub mod headline;
pub mod legal;
pub mod near;
pub mod on_trail;
pub mod refusals;
pub mod written;
