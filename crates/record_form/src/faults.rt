//! Why bytes are no cell.

use thiserror::Error;

/// Why a cell couldn't be read.
#[derive(Debug, Drop, Clone, Copy, PartialEq, Eq, Error)]
pub enum CellFault {
    /// The bytes are no cell: the first byte, counted from 0, at which no spelling of a cell goes on, or the length where the bytes end too early.
    #[error("no cell goes on at byte {0}")]
    Place(u32),
    /// Want of memory. The bytes are a cell; only the bytes of a row need memory.
    #[error("out of memory")]
    Memory,
}
