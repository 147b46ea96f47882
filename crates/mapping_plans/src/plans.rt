//! The plan of a command.
ghost use Rattle.std.specs.Prelude.{◌≡◌, ◌+◌, ◌≤◌, IsErrOf, true};
ghost use Rattle.cell_world.specs.Outside.{IfContents, IsLater, StoreRoseBy};
ghost use Rattle.map_ops.specs.Planning.{PlansWith, IsPlanOf, is_asked, is_long, is_mapping};

use crate::planning::plan_mapping;
use cell_world::outside::World;
use global_tables::known::KnownTables;
use map_ops::planning as others;
use plain_model::commands::Command;
use plain_model::plans::{Plan, PlanStop};
use std::alloc::Global;

/// Whether the command is on a mapping that stands.
fn is_mapping(command: &Command) -> bool
    ensures { result ≡ is_mapping command.now }
{
    matches!(
        command,
        Command::Lock(_, _, _)
            | Command::Unlock(_, _, _)
            | Command::Delete(_, _, _)
            | Command::Offline(_, _, _)
            | Command::Online(_, _, _)
            | Command::Move(_, _, _, _)
            | Command::Split(_, _, _)
            | Command::Merge(_, _, _)
    )
}

/// What is to be done for a command that may be asked, or why nothing is. Nothing is changed. `known` is the copy of the
/// world's tables. A long operation has no number yet, and whether a number is left isn't looked at.
///
/// `Refused`: the first refusal of the command's row that holds. `Store`: a store call failed. `Memory`: want of memory.
pub fn plan<W: World>(
    alloc: Global,
    world: &mut W,
    known: &KnownTables,
    command: &Command,
) -> Result<Plan, PlanStop>
    requires { is_asked command.now ≡ true }
    // Where contents are told: the refusal is the plain step's; and so are the reach, the change and the reply, or the operation.
    ensures plans { IfContents (W.outside world.old).told (PlansWith known.now command.now result) }
    // Whatever is told: the plan is a short one or a long one, as the command is.
    ensures of_command { IsPlanOf command.now result }
    // The plan of a long command reads the global store twice at most.
    ensures reads { is_long command.now ≡ true → (W.outside world.new).global_reads ≤ (W.outside world.old).global_reads + 2 }
    ensures told { (W.outside world.new).told ≡ (W.outside world.old).told }
    ensures later { IsLater (W.outside world.old) (W.outside world.new) }
    ensures cause { IsErrOf result PlanStop.Store → StoreRoseBy 1 (W.outside world.old) (W.outside world.new) }
{
    if is_mapping(command) {
        plan_mapping(alloc, world, known, command)
    } else {
        others::plan(alloc, world, known, command)
    }
}
