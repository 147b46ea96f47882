//! The kinds of failing calls.
use fault_runs::failing::{cut, lost, made};
use world_memory::faults::{CallName, PlannedFault};

/// How a call is to fail.
#[derive(Clone, Copy)]
pub(crate) enum Kind {
    /// The call of this name does nothing.
    Lost(CallName),
    /// A commit is made all the same.
    Made,
    /// A write writes so many bytes.
    Cut(u32),
}

/// The calls of stores that fail two in a run: all that built commands make but the search for a row, which only `move` and
/// `delete` make.
pub(crate) const OF_STORES: [Kind; 5] = [
    Kind::Lost(CallName::Read),
    Kind::Lost(CallName::Floor),
    Kind::Lost(CallName::Scan),
    Kind::Lost(CallName::Commit),
    Kind::Made,
];

/// All writes, by how much of the reply is written.
pub(crate) const WRITES: [Kind; 3] = [Kind::Lost(CallName::Write), Kind::Cut(1), Kind::Cut(3)];

/// The call of this number fails so.
pub(crate) fn fault_of(kind: Kind, number: u32) -> PlannedFault {
    match kind {
        Kind::Lost(call) => lost(call, number),
        Kind::Made => made(number),
        Kind::Cut(prefix) => cut(number, prefix),
    }
}

/// More calls of one kind than any of the runs makes.
pub(crate) const MANY: u32 = 1000;
