//! Calls that are to fail.

use cell_world::items::Items;
use manager_core::manager::Outcome;
use plain_model::history::Entry;
use plain_model::replies::{Reply, Sort};
use std::alloc::Global;
use std::test::Fail;
use world_memory::faults::{CallName, FaultPlan, PlannedFault};

/// The command was answered `fault`.
pub const FAULT: Outcome = Outcome::Ended(Sort::Fault);

/// The call of this name and number fails, and does nothing.
pub fn lost(call: CallName, number: u32) -> PlannedFault {
    PlannedFault {
        call,
        number,
        made: false,
        prefix: 0,
    }
}

/// The commit of this number fails, and is made or not.
pub fn commit(number: u32, made: bool) -> PlannedFault {
    PlannedFault {
        call: CallName::Commit,
        number,
        made,
        prefix: 0,
    }
}

/// The plan of these.
pub fn plan_of(alloc: Global, faults: &[PlannedFault]) -> Result<FaultPlan, Fail> {
    let mut calls = Items::new(alloc);
    for fault in faults {
        calls.push(*fault)?;
    }
    Ok(FaultPlan { calls })
}

/// Whether the entry is answered `fault`.
pub fn is_fault(entry: &Entry) -> bool {
    matches!(&entry.reply, Some(Reply::Fault))
}

/// How many of the entries are answered `fault`.
pub fn faults_in(entries: &[Entry]) -> usize {
    entries.iter().filter(|entry| is_fault(entry)).count()
}
