//! What was committed is settled.
ghost use Rattle.std.specs.Prelude.{◌≡◌, ◌≤◌, ℕ, Some, None, IsErrOf, IsOk, length};
ghost use Rattle.cell_world.specs.Outside.{IfContents, IsLater, StoreRoseBy};
ghost use Rattle.cell_world.specs.declared.operations.Op.{Op};
ghost use Rattle.session_laws.specs.Core.{SameGoing};
ghost use Rattle.session_laws.specs.Doing.{AllDoing, IsThen};
ghost use Rattle.operation_laws.specs.Left.{left_of, without_left};
ghost use Rattle.manager_core.specs.Coming.{IsTidied, SettleStep, SettleSteps};
ghost use Rattle.manager_core.specs.Cores.{Waits};
ghost use Rattle.manager_core.specs.Doings.{IsLeftOver, all_doing};
ghost use Rattle.manager_core.specs.Steady.{AreSteady, Becomes, IsSettledOp};

use crate::doings::{Doings, LeftOver};
use cell_world::outside::World;
use global_tables::faults::StepFault;
use op_steps::advancing::advance;
use std::alloc::Global;

/// Settles a committed operation that a session has left, at each of its sites that is attached. What the stores stand for stays.
///
/// `Store`: a store refused. After an error it may be settled at the first site, and its marks are left at the others: nothing goes back to them but what undoes or overwrites them.
pub fn settle<W: World>(alloc: Global, world: &mut W, left: LeftOver) -> Result<(), StepFault>
    requires { IsLeftOver left }
    // its session has nothing to settle any more, and the core goes on
    ensures becomes { (before next : AllDoing) (session : ℕ) → left_of (before session) ≡ Some left.op → IsThen before session (without_left (before session)) next → Becomes (W.outside world.old) (W.outside world.new) before next }
    // and so it does with whatever lines still to be written
    ensures waits { (before next : AllDoing) (session : ℕ) → left_of (before session) ≡ Some left.op → IsThen before session (without_left (before session)) next → Waits (W.outside world.old) (W.outside world.new) before next }
    // nothing but to settle it was tried
    ensures tidied { (before : AllDoing) (session : ℕ) → left_of (before session) ≡ Some left.op → AreSteady before (W.outside world.old) → IsTidied (SettleStep (before session)) (W.outside world.old).told (W.outside world.new).told }
    // where all went well it is settled
    ensures settled { IsOk result → (before : AllDoing) (session : ℕ) → left_of (before session) ≡ Some left.op → AreSteady before (W.outside world.old) → IfContents (W.outside world.new).told (IsSettledOp left.op) }
    ensures later { IsLater (W.outside world.old) (W.outside world.new) }
    ensures cause { IsErrOf result StepFault.Store → StoreRoseBy 1 (W.outside world.old) (W.outside world.new) }
{
    match advance(alloc, world, &left.op, left.stage) {
        Ok(_) => Ok(()),
        Err(fault) => Err(fault),
    }
}

/// Settles what a session has left, if it has anything.
pub(crate) fn settle_session<W: World>(
    alloc: Global,
    world: &mut W,
    doings: &mut Doings,
    session: u32,
) -> Result<(), StepFault>
    requires { (1 ≤ session) × (session ≤ length doings.old) }
    ensures becomes { Becomes (W.outside world.old) (W.outside world.new) (all_doing doings.old) (all_doing doings.new) }
    ensures next { IsThen (all_doing doings.old) session (without_left (all_doing doings.old session)) (all_doing doings.new) }
    ensures waits { Waits (W.outside world.old) (W.outside world.new) (all_doing doings.old) (all_doing doings.new) }
    ensures going { SameGoing (all_doing doings.old) (all_doing doings.new) }
    ensures tidied { AreSteady (all_doing doings.old) (W.outside world.old) → IsTidied (SettleStep (all_doing doings.old session)) (W.outside world.old).told (W.outside world.new).told }
    ensures settled { IsOk result → (op : Op) → left_of (all_doing doings.old session) ≡ Some op → AreSteady (all_doing doings.old) (W.outside world.old) → IfContents (W.outside world.new).told (IsSettledOp op) }
    ensures sessions { length doings.new ≡ length doings.old }
    ensures later { IsLater (W.outside world.old) (W.outside world.new) }
    ensures cause { IsErrOf result StepFault.Store → StoreRoseBy 1 (W.outside world.old) (W.outside world.new) }
{
    match doings.take_left(session) {
        Some(left) => settle(alloc, world, left),
        None => Ok(()),
    }
}

/// Settles what the sessions from 1 to this one have left, one after the other. It stops at the first that fails, which has nothing left then either; those after it are as they were.
pub fn settle_all<W: World>(
    alloc: Global,
    world: &mut W,
    doings: &mut Doings,
    sessions: u32,
) -> Result<(), StepFault>
    requires { sessions ≤ length doings.old }
    // the core goes on, and so it does with whatever lines still to be written; the sessions do the same but for what was to be settled
    ensures becomes { Becomes (W.outside world.old) (W.outside world.new) (all_doing doings.old) (all_doing doings.new) }
    ensures waits { Waits (W.outside world.old) (W.outside world.new) (all_doing doings.old) (all_doing doings.new) }
    ensures going { SameGoing (all_doing doings.old) (all_doing doings.new) }
    // nothing was tried but to settle what one has left
    ensures tidied { AreSteady (all_doing doings.old) (W.outside world.old) → IsTidied (SettleSteps (all_doing doings.old)) (W.outside world.old).told (W.outside world.new).told }
    // where all went well no session has anything left, and what one had is settled
    ensures none { IsOk result → (session : ℕ) → 1 ≤ session → session ≤ sessions → left_of (all_doing doings.new session) ≡ None }
    ensures settled { IsOk result → AreSteady (all_doing doings.old) (W.outside world.old) → (session : ℕ) (op : Op) → 1 ≤ session → session ≤ sessions → left_of (all_doing doings.old session) ≡ Some op → IfContents (W.outside world.new).told (IsSettledOp op) }
    ensures sessions { length doings.new ≡ length doings.old }
    ensures later { IsLater (W.outside world.old) (W.outside world.new) }
    ensures cause { IsErrOf result StepFault.Store → StoreRoseBy 1 (W.outside world.old) (W.outside world.new) }
{
    for seat in 0..sessions {
        match settle_session(alloc, world, doings, seat + 1) {
            Ok(()) => {}
            Err(fault) => return Err(fault),
        }
    }
    Ok(())
}
