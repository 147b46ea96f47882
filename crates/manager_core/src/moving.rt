//! A command that is going moves on by one transaction.
ghost use Rattle.std.specs.Prelude.{◌≡◌, true};
ghost use Rattle.cell_world.specs.Outside.{IsLater, StoreRoseBy};
ghost use Rattle.op_steps.specs.PassingOver.{has_step};
ghost use Rattle.op_steps.specs.Stages.{name_of};
ghost use Rattle.operation_laws.specs.Forward.{IsBeforeTarget, IsForward};
ghost use Rattle.manager_core.specs.Moving.{IsOnward, MovesOn, MovesOnce, stopped_by};

use cell_world::operations::{Op, StageName};
use cell_world::outside::World;
use global_tables::faults::StepFault;
use op_steps::advancing::advance;
use op_steps::passing_over::{has_step, pass_over};
use op_steps::stages::Stage;
use std::alloc::Global;

/// What a command that is going came to.
#[derive(Drop)]
pub enum Moved {
    /// Its operation has come to this stage before its commit.
    On(Stage),
    /// Its operation is committed, and is to be settled.
    Done(Stage),
    /// A store refused.
    Store,
    /// Want of memory.
    Memory,
}

/// What a failed step comes to.
fn stopped_by(fault: StepFault) -> Moved
    ensures { result ≡ stopped_by fault }
{
    match fault {
        StepFault::Store => Moved::Store,
        StepFault::Memory => Moved::Memory,
    }
}

/// The local step that leads on from a stage which has one.
fn make_step<W: World>(alloc: Global, world: &mut W, op: &Op, stage: Stage) -> Moved
    requires early { IsBeforeTarget (name_of stage) }
    requires step { has_step op.now (name_of stage) ≡ true }
    ensures onward { IsOnward (name_of stage) result }
    ensures moves { MovesOn op.now (name_of stage) result (W.outside world.old) (W.outside world.new) }
    ensures once { MovesOnce op.now (name_of stage) result (W.outside world.old) (W.outside world.new) }
    ensures later { IsLater (W.outside world.old) (W.outside world.new) }
    ensures cause { result ≡ Moved.Store → StoreRoseBy 1 (W.outside world.old) (W.outside world.new) }
{
    match advance(alloc, world, op, stage) {
        Ok(next) => Moved::On(next),
        Err(fault) => stopped_by(fault),
    }
}

/// From TargetDone: the commit.
fn move_from_target<W: World>(alloc: Global, world: &mut W, op: &Op, stage: Stage) -> Moved
    requires { name_of stage ≡ StageName.TargetDone }
    ensures onward { IsOnward (name_of stage) result }
    ensures moves { MovesOn op.now (name_of stage) result (W.outside world.old) (W.outside world.new) }
    ensures once { MovesOnce op.now (name_of stage) result (W.outside world.old) (W.outside world.new) }
    ensures later { IsLater (W.outside world.old) (W.outside world.new) }
    ensures cause { result ≡ Moved.Store → StoreRoseBy 1 (W.outside world.old) (W.outside world.new) }
{
    match advance(alloc, world, op, stage) {
        Ok(next) => Moved::Done(next),
        Err(fault) => stopped_by(fault),
    }
}

/// From SourceDone: the local step at another site of the news, if they are at one; else the commit.
fn move_from_source<W: World>(alloc: Global, world: &mut W, op: &Op, stage: Stage) -> Moved
    requires { name_of stage ≡ StageName.SourceDone }
    ensures onward { IsOnward (name_of stage) result }
    ensures moves { MovesOn op.now (name_of stage) result (W.outside world.old) (W.outside world.new) }
    ensures once { MovesOnce op.now (name_of stage) result (W.outside world.old) (W.outside world.new) }
    ensures later { IsLater (W.outside world.old) (W.outside world.new) }
    ensures cause { result ≡ Moved.Store → StoreRoseBy 1 (W.outside world.old) (W.outside world.new) }
{
    if has_step(op, stage.name()) {
        make_step(alloc, world, op, stage)
    } else {
        move_from_target(alloc, world, op, pass_over(op, stage))
    }
}

/// From Logged: the local step at the site of the olds, if there are any; else what comes next.
fn move_from_logged<W: World>(alloc: Global, world: &mut W, op: &Op, stage: Stage) -> Moved
    requires { name_of stage ≡ StageName.Logged }
    ensures onward { IsOnward (name_of stage) result }
    ensures moves { MovesOn op.now (name_of stage) result (W.outside world.old) (W.outside world.new) }
    ensures once { MovesOnce op.now (name_of stage) result (W.outside world.old) (W.outside world.new) }
    ensures later { IsLater (W.outside world.old) (W.outside world.new) }
    ensures cause { result ≡ Moved.Store → StoreRoseBy 1 (W.outside world.old) (W.outside world.new) }
{
    if has_step(op, stage.name()) {
        make_step(alloc, world, op, stage)
    } else {
        move_from_source(alloc, world, op, pass_over(op, stage))
    }
}

/// The next transaction of the operation of a command that is going. A stage from which nothing leads on is passed over, which the
/// operation alone decides; so over steady stores an answer without an error is one transaction.
///
/// `On`: its local step is made. `Done`: it is committed. `Store`: a store refused, and what was tried is made or not; the
/// operation is abandoned. `Memory`: nothing was tried; it is abandoned.
pub fn move_on<W: World>(alloc: Global, world: &mut W, op: &Op, stage: Stage) -> Moved
    requires { IsForward (name_of stage) }
    ensures onward { IsOnward (name_of stage) result }
    ensures moves { MovesOn op.now (name_of stage) result (W.outside world.old) (W.outside world.new) }
    ensures once { MovesOnce op.now (name_of stage) result (W.outside world.old) (W.outside world.new) }
    ensures later { IsLater (W.outside world.old) (W.outside world.new) }
    ensures cause { result ≡ Moved.Store → StoreRoseBy 1 (W.outside world.old) (W.outside world.new) }
{
    match stage.name() {
        StageName::Logged => move_from_logged(alloc, world, op, stage),
        StageName::SourceDone => move_from_source(alloc, world, op, stage),
        StageName::TargetDone => move_from_target(alloc, world, op, stage),
        StageName::Committed | StageName::Settled => unreachable!(),
    }
}
