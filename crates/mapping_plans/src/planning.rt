//! The plan of a command on a mapping that stands.
ghost use Rattle.std.specs.Prelude.{◌≡◌, ◌+◌, ◌≤◌, IsErrOf, true};
ghost use Rattle.cell_world.specs.Outside.{IfContents, IsLater, StoreRoseBy};
ghost use Rattle.map_ops.specs.Planning.{PlansWith, IsLongPlan, IsShortPlan, is_exchange, is_locking, is_mapping};

use crate::deletes::plan_delete;
use crate::locks::{plan_lock, plan_unlock};
use crate::merges::plan_merge;
use crate::moves::plan_move;
use crate::splits::plan_split;
use crate::statuses::plan_status;
use cell_world::cells::Status;
use cell_world::outside::World;
use global_tables::known::KnownTables;
use plain_model::commands::Command;
use plain_model::plans::{Plan, PlanStop};
use std::alloc::Global;

/// The plan of a command that exchanges mappings: `delete`, `offline`, `online`, `move`, `split` or `merge`.
fn plan_exchange<W: World>(
    alloc: Global,
    world: &mut W,
    known: &KnownTables,
    command: &Command,
) -> Result<Plan, PlanStop>
    requires { is_exchange command.now ≡ true }
    ensures plans { IfContents (W.outside world.old).told (PlansWith known.now command.now result) }
    ensures long { IsLongPlan result }
    ensures reads { (W.outside world.new).global_reads ≤ (W.outside world.old).global_reads + 2 }
    ensures told { (W.outside world.new).told ≡ (W.outside world.old).told }
    ensures later { IsLater (W.outside world.old) (W.outside world.new) }
    ensures cause { IsErrOf result PlanStop.Store → StoreRoseBy 1 (W.outside world.old) (W.outside world.new) }
{
    match command {
        Command::Delete(name, text, token) => plan_delete(alloc, world, known, name, text, token),
        Command::Offline(name, text, token) => {
            plan_status(alloc, world, known, Status::Offline, name, text, token)
        }
        Command::Online(name, text, token) => {
            plan_status(alloc, world, known, Status::Online, name, text, token)
        }
        Command::Move(name, text, at, token) => {
            plan_move(alloc, world, known, name, text, *at, token)
        }
        Command::Split(name, text, token) => plan_split(alloc, world, known, name, text, token),
        Command::Merge(name, text, token) => plan_merge(alloc, world, known, name, text, token),
        _ => unreachable!(),
    }
}

/// The plan of `lock` or `unlock`.
fn plan_locking<W: World>(
    alloc: Global,
    world: &mut W,
    known: &KnownTables,
    command: &Command,
) -> Result<Plan, PlanStop>
    requires { is_locking command.now ≡ true }
    ensures plans { IfContents (W.outside world.old).told (PlansWith known.now command.now result) }
    ensures short { IsShortPlan result }
    ensures reads { (W.outside world.new).global_reads ≤ (W.outside world.old).global_reads + 1 }
    ensures told { (W.outside world.new).told ≡ (W.outside world.old).told }
    ensures later { IsLater (W.outside world.old) (W.outside world.new) }
    ensures cause { IsErrOf result PlanStop.Store → StoreRoseBy 1 (W.outside world.old) (W.outside world.new) }
{
    match command {
        Command::Lock(name, text, token) => plan_lock(alloc, world, known, name, text, *token),
        Command::Unlock(name, text, token) => plan_unlock(alloc, world, known, name, text, *token),
        _ => unreachable!(),
    }
}

/// Whether the command is `lock` or `unlock`.
fn is_locking(command: &Command) -> bool
    ensures { result ≡ is_locking command.now }
{
    matches!(command, Command::Lock(_, _, _) | Command::Unlock(_, _, _))
}

/// What is to be done for a command that exchanges or locks a mapping, or why nothing is. Nothing is changed. `known` is
/// the copy of the world's tables. A long operation has no number yet, and whether a number is left isn't looked at.
///
/// `Refused`: the first refusal of the command's row that holds. `Store`: a store call failed. `Memory`: want of memory; it is
/// answered too where the world doesn't know the mapping's location, and where a token of the command or of the mapping
/// is a job's. A core begins over no store that names an unknown location, and no script has a job's token.
pub fn plan_mapping<W: World>(
    alloc: Global,
    world: &mut W,
    known: &KnownTables,
    command: &Command,
) -> Result<Plan, PlanStop>
    requires { is_mapping command.now ≡ true }
    // Where contents are told: the refusal is the plain step's; and so is the operation, or the reach, the change and the reply.
    ensures plans { IfContents (W.outside world.old).told (PlansWith known.now command.now result) }
    // Whatever is told: the plan is a long one, or of `lock` and `unlock` a short one.
    ensures long { is_exchange command.now ≡ true → IsLongPlan result }
    ensures short { is_locking command.now ≡ true → IsShortPlan result }
    ensures reads { (W.outside world.new).global_reads ≤ (W.outside world.old).global_reads + 2 }
    ensures told { (W.outside world.new).told ≡ (W.outside world.old).told }
    ensures later { IsLater (W.outside world.old) (W.outside world.new) }
    ensures cause { IsErrOf result PlanStop.Store → StoreRoseBy 1 (W.outside world.old) (W.outside world.new) }
{
    if is_locking(command) {
        plan_locking(alloc, world, known, command)
    } else {
        plan_exchange(alloc, world, known, command)
    }
}
