//! The plan of a short command.
ghost use Rattle.std.specs.Prelude.{◌≡◌, IsErrOf, true};
ghost use Rattle.cell_world.specs.Counts.{Rose};
ghost use Rattle.cell_world.specs.Outside.{IfContents, IsLater};
ghost use Rattle.map_ops.specs.Planning.{PlansWith, IsShortPlan, is_short_here};

use crate::mappings::{plan_find, plan_list};
use crate::maps::{plan_map, plan_unmap};
use crate::shards::{plan_shard, plan_shards, plan_unshard};
use crate::tables::plan_table;
use cell_world::outside::World;
use global_tables::known::KnownTables;
use plain_model::commands::Command;
use plain_model::plans::{Plan, PlanStop};
use std::alloc::Global;

/// The plan of a short command that is planned here.
pub fn plan_short<W: World>(
    alloc: Global,
    world: &mut W,
    known: &KnownTables,
    command: &Command,
) -> Result<Plan, PlanStop>
    requires { is_short_here command.now ≡ true }
    ensures plans { IfContents (W.outside world.old).told (PlansWith known.now command.now result) }
    ensures short { IsShortPlan result }
    ensures told { (W.outside world.new).told ≡ (W.outside world.old).told }
    ensures later { IsLater (W.outside world.old) (W.outside world.new) }
    ensures cause { IsErrOf result PlanStop.Store → Rose ((W.outside world.old).faults_at 0) ((W.outside world.new).faults_at 0) }
{
    match command {
        Command::Map(name, kind, key_type) => plan_map(alloc, known, *name, *kind, *key_type),
        Command::Unmap(name) => plan_unmap(alloc, known, *name),
        Command::Shard(name, at) => plan_shard(alloc, world, known, *name, *at),
        Command::Unshard(name, at) => plan_unshard(alloc, world, known, *name, *at),
        Command::Shards(name) => plan_shards(alloc, world, known, *name),
        Command::Table(name, table) => plan_table(alloc, known, *name, *table),
        Command::Find(name, text) => plan_find(alloc, world, known, *name, text),
        Command::List(name) => plan_list(alloc, world, known, *name),
        _ => unreachable!(),
    }
}
