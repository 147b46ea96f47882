//! A long operation goes on, stage by stage.
ghost use Rattle.std.specs.Prelude.{◌≡◌, IfOk, IsErrOf, IsOk};
ghost use Rattle.cell_world.specs.Outside.{StoreRoseBy};
ghost use Rattle.op_steps.specs.Advancing.{Advances};
ghost use Rattle.op_steps.specs.Passing.{FailsByMemory, Passes};
ghost use Rattle.op_steps.specs.Stages.{name_of, next_stage, number_of};

use crate::committing::commit_operation;
use crate::settling::settle_sites;
use crate::stages::Stage;
use crate::stepping::mark_beside;
use cell_world::operations::{Op, StageName};
use cell_world::outside::World;
use global_tables::faults::StepFault;
use std::alloc::Global;

/// Does what leads on from a stage: the local step at the site of the old mappings, that at the other site of the new
/// ones, the commit, the settling at both sites, or nothing.
fn step_on<W: World>(
    alloc: Global,
    world: &mut W,
    op: &Op,
    name: StageName,
) -> Result<(), StepFault>
    ensures passes { Passes (Advances op.now name (IsOk result) (FailsByMemory result)) (W.outside world.old) (W.outside world.new) }
    ensures cause { IsErrOf result StepFault.Store → StoreRoseBy 1 (W.outside world.old) (W.outside world.new) }
{
    match name {
        StageName::Logged => mark_beside(alloc, world, op, &op.olds.one, &None),
        StageName::SourceDone => mark_beside(alloc, world, op, &op.news.one, &op.olds.one),
        StageName::TargetDone => commit_operation(alloc, world, op),
        StageName::Committed => settle_sites(alloc, world, op),
        StageName::Settled => Ok(()),
    }
}

/// Leads an operation on to its next stage, by at most one transaction, or in Committed one at each of its sites, and none
/// where there is nothing to do. From Settled it does nothing and answers Settled.
///
/// The stage is the operation's own. It is spent, after a fault too: then the operation is abandoned, and to undo it does
/// the rest, where its log row still stands. `Store`: a store refused; what was tried last is made or not made. `Memory`:
/// up to the commit nothing was tried; settling may be made at the first site.
pub fn advance<W: World>(
    alloc: Global,
    world: &mut W,
    op: &Op,
    stage: Stage,
) -> Result<Stage, StepFault>
    ensures passes { Passes (Advances op.now (name_of stage) (IsOk result) (FailsByMemory result)) (W.outside world.old) (W.outside world.new) }
    ensures number { IfOk result (λ next. number_of next ≡ number_of stage) }
    ensures name { IfOk result (λ next. name_of next ≡ next_stage (name_of stage)) }
    ensures cause { IsErrOf result StepFault.Store → StoreRoseBy 1 (W.outside world.old) (W.outside world.new) }
{
    match step_on(alloc, world, op, stage.name()) {
        Ok(()) => Ok(stage.advanced()),
        Err(fault) => Err(fault),
    }
}
