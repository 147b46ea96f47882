//! Why reading stops.

/// Why the reading of a cell stops.
#[derive(Clone, Copy)]
pub(crate) enum Stop {
    /// No spelling goes on with the first of so many bytes that are left. None are left where the bytes end too early.
    Left(usize),
    /// Want of memory.
    Memory,
}
