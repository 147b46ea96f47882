//! The way of a command: live operations in it, and abandoned ones that are undone.
ghost use Rattle.std.specs.Prelude.{◌≡◌, true, filter, IfOk, IfSome, IsErrOf, IsOk};
ghost use Rattle.cell_world.specs.Operations as operation;
ghost use Rattle.cell_world.specs.Outside.{StoreRoseBy};
ghost use Rattle.op_steps.specs.Clearing.{Clears, FindsFirst, is_in_way};
ghost use Rattle.op_steps.specs.Passing.{Passes};
ghost use Rattle.op_steps.specs.Undoing.{UndoesList};

use crate::live::LiveList;
use crate::undoing::undo_all;
use cell_world::memory::Memory;
use cell_world::operations::{Op, Reach};
use cell_world::outside::World;
use global_tables::faults::StepFault;
use global_tables::lists::log_rows;
use op_log::reaches::conflicts;
use std::alloc::Global;

/// Whether a logged operation is live and conflicts with the reach.
fn is_in_way(op: &Op, reach: &Reach, live: &LiveList) -> bool
    ensures { result ≡ is_in_way live.now reach.now op.now }
{
    conflicts(reach, op) && live.contains(op.number)
}

/// The first of the operations that is live and conflicts with the reach.
fn first_in_way(ops: &[Op], reach: &Reach, live: &LiveList) -> Option<Op>
    ensures { FindsFirst (is_in_way live.now reach.now) ops.now result }
{
    for op in ops {
        if is_in_way(op, reach, live) {
            return Some(*op);
        }
    }
    None
}

/// Those of the operations that conflict with the reach, in order.
fn conflicting(alloc: Global, ops: &[Op], reach: &Reach) -> Result<Vec<Op>, Memory>
    ensures { IfOk result (λ found. found.items ≡ filter (operation.conflicts reach.now) ops.now) }
{
    let mut found = Vec::new(alloc);
    for op in ops {
        if conflicts(reach, op) {
            found.push(*op)?;
        }
    }
    Ok(found)
}

/// Undoes those of these logged operations that conflict with the reach.
fn undo_conflicting<W: World>(
    alloc: Global,
    world: &mut W,
    ops: &[Op],
    reach: &Reach,
) -> Result<(), StepFault>
    ensures passes { Passes (UndoesList (filter (operation.conflicts reach.now) ops.now) (IsOk result)) (W.outside world.old) (W.outside world.new) }
    ensures cause { IsErrOf result StepFault.Store → StoreRoseBy 1 (W.outside world.old) (W.outside world.new) }
{
    match conflicting(alloc, ops, reach) {
        Ok(found) => undo_all(alloc, world, &found),
        Err(Memory) => Err(StepFault::Memory),
    }
}

/// Clears the way of a short command. `Some`: the live operation of least number that conflicts with its reach, and nothing was done. `None`: no live operation does, and the abandoned ones that do were undone, so none that is logged conflicts.
///
/// What the stores stand for stays, whatever is answered. `Store`: a store refused. After an error some abandoned operations may be undone.
pub fn clear_way<W: World>(
    alloc: Global,
    world: &mut W,
    reach: &Reach,
    live: &LiveList,
) -> Result<Option<Op>, StepFault>
    ensures passes { Passes (Clears live.now reach.now result) (W.outside world.old) (W.outside world.new) }
    ensures in_way { IfOk result (λ found. IfSome found (λ op. is_in_way live.now reach.now op ≡ true)) }
    ensures cause { IsErrOf result StepFault.Store → StoreRoseBy 1 (W.outside world.old) (W.outside world.new) }
{
    match log_rows(alloc, world) {
        Ok(ops) => match first_in_way(&ops, reach, live) {
            Some(op) => Ok(Some(op)),
            None => match undo_conflicting(alloc, world, &ops, reach) {
                Ok(()) => Ok(None),
                Err(fault) => Err(fault),
            },
        },
        Err(fault) => Err(fault),
    }
}
