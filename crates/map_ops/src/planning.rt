//! The plan of a command but those on a mapping that stands.
ghost use Rattle.std.specs.Prelude.{◌≡◌, ◌+◌, ◌≤◌, IsErrOf, true};
ghost use Rattle.cell_world.specs.Counts.{Rose};
ghost use Rattle.cell_world.specs.Outside.{IfContents, IsLater};
ghost use Rattle.map_ops.specs.Planning.{PlansWith, IsPlanOf, is_adding, is_planned_here};

use crate::long_plans::plan_long;
use crate::short_plans::plan_short;
use cell_world::outside::World;
use global_tables::known::KnownTables;
use plain_model::commands::Command;
use plain_model::plans::{Plan, PlanStop};
use std::alloc::Global;

/// Whether the command adds a mapping.
fn is_adding(command: &Command) -> bool
    ensures { result ≡ is_adding command.now }
{
    matches!(
        command,
        Command::Add(_, _, _, _) | Command::Addpoint(_, _, _)
    )
}

/// What is to be done for a command that is planned here, or why nothing is. Nothing is changed. `known` is the copy of
/// the world's tables. A long operation has no number yet, and whether a number is left isn't looked at.
///
/// `Refused`: the first refusal of the command's row that holds. `Store`: a store call failed.
pub fn plan<W: World>(
    alloc: Global,
    world: &mut W,
    known: &KnownTables,
    command: &Command,
) -> Result<Plan, PlanStop>
    requires { is_planned_here command.now ≡ true }
    // Where contents are told: the refusal is the plain step's; and so are the reach, the change and the reply, or the operation.
    ensures plans { IfContents (W.outside world.old).told (PlansWith known.now command.now result) }
    // Whatever is told: the plan is a short one or a long one, as the command is.
    ensures of_command { IsPlanOf command.now result }
    // The plan of `add` and `addpoint` reads the global store twice at most.
    ensures reads { is_adding command.now ≡ true → (W.outside world.new).global_reads ≤ (W.outside world.old).global_reads + 2 }
    ensures told { (W.outside world.new).told ≡ (W.outside world.old).told }
    ensures later { IsLater (W.outside world.old) (W.outside world.new) }
    ensures cause { IsErrOf result PlanStop.Store → Rose ((W.outside world.old).faults_at 0) ((W.outside world.new).faults_at 0) }
{
    if is_adding(command) {
        plan_long(alloc, world, known, command)
    } else {
        plan_short(alloc, world, known, command)
    }
}
