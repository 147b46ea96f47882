//! The plans of `add` and `addpoint`.
ghost use Rattle.std.specs.Prelude.{◌≡◌, ◌+◌, ◌≤◌, true, IfErr, IsErrOf};
ghost use Rattle.cell_world.specs.Counts.{Rose};
ghost use Rattle.cell_world.specs.Outside.{IfContents, IsLater};
ghost use Rattle.cell_world.specs.Texts.{Text};
ghost use Rattle.plain_model.specs.ShortCommands.{is_short_refusal};
ghost use Rattle.plain_model.specs.declared.commands.Command.TheVariants as command;
ghost use Rattle.map_ops.specs.Adding.{ReadsSpan};
ghost use Rattle.map_ops.specs.Planning.{PlansWith, IsLongPlan};

use crate::new_mappings::plan_new;
use crate::words::{point_at, range_between};
use cell_world::cells::MapKind;
use cell_world::key_texts::KeyText;
use cell_world::locations::Location;
use cell_world::names::Name;
use cell_world::outside::World;
use cell_world::spans::Span;
use global_tables::known::KnownTables;
use plain_model::commands::HighText;
use plain_model::plans::{Plan, PlanStop};
use plain_model::replies::Refusal;
use std::alloc::Global;

/// The range that `add` asks for; or `NoMap`, `WrongKind`, `BadKey` or `BadRange`.
fn new_range(
    known: &KnownTables,
    name: &Name,
    low: &KeyText,
    high: &HighText,
) -> Result<Span, Refusal>
    ensures reads { (at : Text) → ReadsSpan known.now (command.Add name.now low.now high.now at) name.now at result }
    ensures short { IfErr result (λ refusal. is_short_refusal refusal ≡ true) }
{
    match known.map(name) {
        None => Err(Refusal::NoMap),
        Some((MapKind::List, _)) => Err(Refusal::WrongKind),
        Some((MapKind::Range, key_type)) => range_between(key_type, low, high),
    }
}

/// The point that `addpoint` asks for; or `NoMap`, `WrongKind` or `BadKey`.
fn new_point(known: &KnownTables, name: &Name, text: &KeyText) -> Result<Span, Refusal>
    ensures reads { (at : Text) → ReadsSpan known.now (command.Addpoint name.now text.now at) name.now at result }
    ensures short { IfErr result (λ refusal. is_short_refusal refusal ≡ true) }
{
    match known.map(name) {
        None => Err(Refusal::NoMap),
        Some((MapKind::Range, _)) => Err(Refusal::WrongKind),
        Some((MapKind::List, key_type)) => point_at(key_type, text),
    }
}

/// `add NAME LOW HIGH LOCATION`: a new mapping from the low key up to the high end, where the range map stands, the words
/// are keys of its type in order, the location is a shard of it at an attached site, and no mapping shares a key with it.
pub fn plan_add<W: World>(
    alloc: Global,
    world: &mut W,
    known: &KnownTables,
    name: Name,
    low: &KeyText,
    high: &HighText,
    at: Location,
) -> Result<Plan, PlanStop>
    ensures plans { IfContents (W.outside world.old).told (PlansWith known.now (command.Add name low.now high.now at) result) }
    ensures long { IsLongPlan result }
    ensures reads { (W.outside world.new).global_reads ≤ (W.outside world.old).global_reads + 2 }
    ensures told { (W.outside world.new).told ≡ (W.outside world.old).told }
    ensures later { IsLater (W.outside world.old) (W.outside world.new) }
    ensures cause { IsErrOf result PlanStop.Store → Rose ((W.outside world.old).faults_at 0) ((W.outside world.new).faults_at 0) }
{
    match new_range(known, &name, low, high) {
        Ok(span) => plan_new(alloc, world, known, name, &span, at),
        Err(refusal) => Err(PlanStop::Refused(refusal)),
    }
}

/// `addpoint NAME KEY LOCATION`: a new mapping of one key, where the list map stands, the word is a key of its type, the
/// location is a shard of it at an attached site, and the key has no mapping.
pub fn plan_addpoint<W: World>(
    alloc: Global,
    world: &mut W,
    known: &KnownTables,
    name: Name,
    text: &KeyText,
    at: Location,
) -> Result<Plan, PlanStop>
    ensures plans { IfContents (W.outside world.old).told (PlansWith known.now (command.Addpoint name text.now at) result) }
    ensures long { IsLongPlan result }
    ensures reads { (W.outside world.new).global_reads ≤ (W.outside world.old).global_reads + 2 }
    ensures told { (W.outside world.new).told ≡ (W.outside world.old).told }
    ensures later { IsLater (W.outside world.old) (W.outside world.new) }
    ensures cause { IsErrOf result PlanStop.Store → Rose ((W.outside world.old).faults_at 0) ((W.outside world.new).faults_at 0) }
{
    match new_point(known, &name, text) {
        Ok(span) => plan_new(alloc, world, known, name, &span, at),
        Err(refusal) => Err(PlanStop::Refused(refusal)),
    }
}
