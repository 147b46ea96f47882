//! One store of cells in `sqlite`: cells are read and changed by the rows of its table.
#![tactic(auto)]

mod keeping;
mod keys;
pub mod laws;
mod opened;
mod refused;
mod rows;
mod site;
mod stored;

pub use keeping::{Keeping, Path};
pub use site::Site;
