//! The plan of a command that adds a mapping.
ghost use Rattle.std.specs.Prelude.{◌≡◌, ◌+◌, ◌≤◌, IsErrOf, true};
ghost use Rattle.cell_world.specs.Counts.{Rose};
ghost use Rattle.cell_world.specs.Outside.{IfContents, IsLater};
ghost use Rattle.map_ops.specs.Planning.{PlansWith, IsLongPlan, is_adding};

use crate::adding::{plan_add, plan_addpoint};
use cell_world::outside::World;
use global_tables::known::KnownTables;
use plain_model::commands::Command;
use plain_model::plans::{Plan, PlanStop};
use std::alloc::Global;

/// The plan of `add` or `addpoint`.
pub fn plan_long<W: World>(
    alloc: Global,
    world: &mut W,
    known: &KnownTables,
    command: &Command,
) -> Result<Plan, PlanStop>
    requires { is_adding command.now ≡ true }
    ensures plans { IfContents (W.outside world.old).told (PlansWith known.now command.now result) }
    ensures long { IsLongPlan result }
    ensures reads { (W.outside world.new).global_reads ≤ (W.outside world.old).global_reads + 2 }
    ensures told { (W.outside world.new).told ≡ (W.outside world.old).told }
    ensures later { IsLater (W.outside world.old) (W.outside world.new) }
    ensures cause { IsErrOf result PlanStop.Store → Rose ((W.outside world.old).faults_at 0) ((W.outside world.new).faults_at 0) }
{
    match command {
        Command::Add(name, low, high, at) => plan_add(alloc, world, known, *name, low, high, *at),
        Command::Addpoint(name, text, at) => plan_addpoint(alloc, world, known, *name, text, *at),
        _ => unreachable!(),
    }
}
