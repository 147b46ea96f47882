//! The plans of `shard` and `unshard`, and the answer to `shards`.
ghost use Rattle.std.specs.Prelude.{◌≡◌, IsErrOf};
ghost use Rattle.cell_world.specs.Counts.{Rose};
ghost use Rattle.cell_world.specs.Outside.{IfContents, IsLater};
ghost use Rattle.plain_model.specs.declared.commands.Command.TheVariants as command;
ghost use Rattle.map_ops.specs.Planning.{PlansWith, IsShortPlan, IsCalm};

use crate::asking::key_type_of;
use crate::changes::{delete_cell, put_cell};
use crate::refusals::shard_refusal;
use crate::stops::stop_of;
use crate::unshard_refusals::unshard_refusal;
use cell_world::cells::{Cell, CellKey};
use cell_world::items::Items;
use cell_world::locations::Location;
use cell_world::names::Name;
use cell_world::operations::Reach;
use cell_world::outside::World;
use global_tables::known::KnownTables;
use global_tables::lists::shards_of;
use plain_model::plans::{Plan, PlanStop};
use plain_model::replies::{Refusal, Reply};
use std::alloc::Global;

/// `shard NAME LOCATION`: the cell of a new shard is put, where the map stands, the world knows the location, its site
/// is attached, and it is no shard of the map yet.
pub fn plan_shard<W: World>(
    alloc: Global,
    world: &W,
    known: &KnownTables,
    name: Name,
    at: Location,
) -> Result<Plan, PlanStop>
    ensures plans { IfContents (W.outside world.now).told (PlansWith known.now (command.Shard name at) result) }
    ensures short { IsShortPlan result }
    ensures calm { IsCalm result }
{
    match shard_refusal(world, known, &name, &at) {
        Some(refusal) => Err(PlanStop::Refused(refusal)),
        None => put_cell(alloc, Cell::Shard(name, at)),
    }
}

/// `unshard NAME LOCATION`: the cell of the shard is deleted, where no mapping of the map is on it and no job of the map
/// has it as target. It reaches the shard.
pub fn plan_unshard<W: World>(
    alloc: Global,
    world: &mut W,
    known: &KnownTables,
    name: Name,
    at: Location,
) -> Result<Plan, PlanStop>
    ensures plans { IfContents (W.outside world.old).told (PlansWith known.now (command.Unshard name at) result) }
    ensures short { IsShortPlan result }
    ensures told { (W.outside world.new).told ≡ (W.outside world.old).told }
    ensures later { IsLater (W.outside world.old) (W.outside world.new) }
    ensures cause { IsErrOf result PlanStop.Store → Rose ((W.outside world.old).faults_at 0) ((W.outside world.new).faults_at 0) }
{
    match unshard_refusal(alloc, world, known, &name, &at) {
        Ok(Some(refusal)) => Err(PlanStop::Refused(refusal)),
        Ok(None) => delete_cell(alloc, Reach::Shard(name, at), CellKey::Shard(name, at)),
        Err(fault) => Err(stop_of(fault)),
    }
}

/// `shards NAME`: where the map stands, its shards in byte order.
pub fn plan_shards<W: World>(
    alloc: Global,
    world: &mut W,
    known: &KnownTables,
    name: Name,
) -> Result<Plan, PlanStop>
    ensures plans { IfContents (W.outside world.old).told (PlansWith known.now (command.Shards name) result) }
    ensures short { IsShortPlan result }
    ensures told { (W.outside world.new).told ≡ (W.outside world.old).told }
    ensures later { IsLater (W.outside world.old) (W.outside world.new) }
    ensures cause { IsErrOf result PlanStop.Store → Rose ((W.outside world.old).faults_at 0) ((W.outside world.new).faults_at 0) }
{
    let Some(_type) = key_type_of(known, &name) else {
        return Err(PlanStop::Refused(Refusal::NoMap));
    };
    match shards_of(alloc, world, &name) {
        Ok(locations) => Ok(Plan::Answer(Reply::Shards(Items::from_vec(locations)))),
        Err(fault) => Err(stop_of(fault)),
    }
}
