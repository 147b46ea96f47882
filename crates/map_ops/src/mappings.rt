//! The answers to `list` and `find`.
ghost use Rattle.std.specs.Prelude.{◌≡◌, IsErrOf};
ghost use Rattle.cell_world.specs.Counts.{Rose};
ghost use Rattle.cell_world.specs.Outside.{IfContents, IsLater};
ghost use Rattle.plain_model.specs.declared.commands.Command.TheVariants as command;
ghost use Rattle.map_ops.specs.Planning.{PlansWith, IsShortPlan};

use crate::asking::key_type_of;
use crate::stops::stop_of;
use crate::words::key_in;
use cell_world::items::Items;
use cell_world::key_texts::KeyText;
use cell_world::names::Name;
use cell_world::outside::World;
use global_tables::known::KnownTables;
use global_tables::lists::pieces_of;
use global_tables::lookups::piece_at;
use plain_model::plans::{Plan, PlanStop};
use plain_model::replies::{Refusal, Reply};
use std::alloc::Global;

/// `list NAME`: where the map stands, its mappings in key order.
pub fn plan_list<W: World>(
    alloc: Global,
    world: &mut W,
    known: &KnownTables,
    name: Name,
) -> Result<Plan, PlanStop>
    ensures plans { IfContents (W.outside world.old).told (PlansWith known.now (command.List name) result) }
    ensures short { IsShortPlan result }
    ensures told { (W.outside world.new).told ≡ (W.outside world.old).told }
    ensures later { IsLater (W.outside world.old) (W.outside world.new) }
    ensures cause { IsErrOf result PlanStop.Store → Rose ((W.outside world.old).faults_at 0) ((W.outside world.new).faults_at 0) }
{
    let Some(key_type) = key_type_of(known, &name) else {
        return Err(PlanStop::Refused(Refusal::NoMap));
    };
    match pieces_of(alloc, world, &name) {
        Ok(pieces) => Ok(Plan::Answer(Reply::Mappings(key_type, Items::from_vec(pieces)))),
        Err(fault) => Err(stop_of(fault)),
    }
}

/// `find NAME KEY`: where the map stands, the word is a key of its type, and a mapping contains it, that mapping.
pub fn plan_find<W: World>(
    alloc: Global,
    world: &mut W,
    known: &KnownTables,
    name: Name,
    text: &KeyText,
) -> Result<Plan, PlanStop>
    ensures plans { IfContents (W.outside world.old).told (PlansWith known.now (command.Find name text.now) result) }
    ensures short { IsShortPlan result }
    ensures told { (W.outside world.new).told ≡ (W.outside world.old).told }
    ensures later { IsLater (W.outside world.old) (W.outside world.new) }
    ensures cause { IsErrOf result PlanStop.Store → Rose ((W.outside world.old).faults_at 0) ((W.outside world.new).faults_at 0) }
{
    let Some(key_type) = key_type_of(known, &name) else {
        return Err(PlanStop::Refused(Refusal::NoMap));
    };
    let Some(key) = key_in(key_type, text) else {
        return Err(PlanStop::Refused(Refusal::BadKey));
    };
    match piece_at(alloc, world, &name, &key) {
        Ok(Some(piece)) => Ok(Plan::Answer(Reply::Mapping(key_type, piece))),
        Ok(None) => Err(PlanStop::Refused(Refusal::NoMapping)),
        Err(fault) => Err(stop_of(fault)),
    }
}
