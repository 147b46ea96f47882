//! The refusals of `unshard`, in the order of the command table. The last one asks the world for the mappings of the map.
#![tactic(auto, unfolding(plain_model::specs::Refusing::refusal))]

ghost use Rattle.std.specs.Prelude.{◌≡◌, true, IfSome, IfOk, IsErrOf};
ghost use Rattle.std.specs.List.{list_any};
ghost use Rattle.cell_world.specs.Counts.{Rose};
ghost use Rattle.cell_world.specs.Images.{global};
ghost use Rattle.cell_world.specs.Keys.{same};
ghost use Rattle.cell_world.specs.Outside.{IfContents, IsLater};
ghost use Rattle.cell_world.specs.Plain.{Connections};
ghost use Rattle.global_tables.specs.Known.{known_of};
ghost use Rattle.plain_model.specs.Refusing.{first_refusal};
ghost use Rattle.plain_model.specs.ShortCommands.{is_short_refusal, standing_with};
ghost use Rattle.map_ops.specs.Changes.{has_mapping_at, is_in_use, unshard_checks};
ghost use Rattle.map_ops.specs.Planning.{RefusesWith};

use crate::refusals::{first_of, has_map, is_detached, is_location, is_suspect};
use cell_world::locations::Location;
use cell_world::names::Name;
use cell_world::operations::Piece;
use cell_world::outside::World;
use global_tables::faults::StepFault;
use global_tables::known::KnownTables;
use global_tables::lists::pieces_of;
use plain_model::commands::Command;
use plain_model::replies::Refusal;
use std::alloc::Global;

/// Whether a mapping of the map is at the location. The world is asked. `Store`: it refused. After an error nothing has
/// changed but counts.
fn has_mapping_at<W: World>(
    alloc: Global,
    world: &mut W,
    name: &Name,
    at: &Location,
) -> Result<bool, StepFault>
    ensures found { IfOk result (λ found. IfContents (W.outside world.old).told (λ image. found ≡ has_mapping_at (global image).mappings name.now at.now)) }
    ensures told { (W.outside world.new).told ≡ (W.outside world.old).told }
    ensures later { IsLater (W.outside world.old) (W.outside world.new) }
    ensures cause { IsErrOf result StepFault.Store → Rose ((W.outside world.old).faults_at 0) ((W.outside world.new).faults_at 0) }
{
    let pieces = pieces_of(alloc, world, name)?;
    Ok(is_any_at(&pieces, at))
}

/// Whether one of the mappings is at the location.
fn is_any_at(pieces: &[Piece], at: &Location) -> bool
    ensures { result ≡ list_any (λ p. same p.location at.now) pieces.now }
{
    for piece in pieces {
        if piece.location.cmp(at).is_eq() {
            return true;
        }
    }
    false
}

/// Whether a standing job of the map has the location as target, or a mapping of the map is on it. The world is asked
/// for the mappings where no job has. `Store`: it refused. After an error nothing has changed but counts.
fn is_in_use<W: World>(
    alloc: Global,
    world: &mut W,
    known: &KnownTables,
    name: &Name,
    at: &Location,
) -> Result<bool, StepFault>
    ensures found { IfOk result (λ used. IfContents (W.outside world.old).told (λ image. known.now ≡ known_of (global image) → used ≡ is_in_use (global image) name.now at.now)) }
    ensures told { (W.outside world.new).told ≡ (W.outside world.old).told }
    ensures later { IsLater (W.outside world.old) (W.outside world.new) }
    ensures cause { IsErrOf result StepFault.Store → Rose ((W.outside world.old).faults_at 0) ((W.outside world.new).faults_at 0) }
{
    if known.is_target(name, at) {
        return Ok(true);
    }
    has_mapping_at(alloc, world, name, at)
}

/// The refusal of `unshard` but for the last, if one of these holds.
fn unshard_refusal_but_use<W: World>(
    world: &W,
    known: &KnownTables,
    name: &Name,
    at: &Location,
) -> Option<Refusal>
    ensures first { IfContents (W.outside world.now).told (λ image. known.now ≡ known_of (global image) → (connections : Connections) → result ≡ first_refusal (unshard_checks (standing_with image connections) name.now at.now)) }
    ensures short { IfSome result (λ refusal. is_short_refusal refusal ≡ true) }
{
    first_of(&[
        (!has_map(known, name), Refusal::NoMap),
        (!is_location(world, at), Refusal::NoLocation),
        (!known.is_shard(name, at), Refusal::NotAShard),
        (is_detached(known, at), Refusal::Detached),
        (is_suspect(known, at), Refusal::Unresolved),
    ])
}

/// The refusal of `unshard`, if one holds. The world is asked for the mappings of the map where no other refusal holds. `Store`: it refused.
/// After an error nothing has changed but counts.
pub fn unshard_refusal<W: World>(
    alloc: Global,
    world: &mut W,
    known: &KnownTables,
    name: &Name,
    at: &Location,
) -> Result<Option<Refusal>, StepFault>
    ensures refuses { IfOk result (λ refused. IfContents (W.outside world.old).told (RefusesWith known.now (Command.Unshard name.now at.now) refused)) }
    ensures short { IfOk result (λ refused. IfSome refused (λ refusal. is_short_refusal refusal ≡ true)) }
    ensures told { (W.outside world.new).told ≡ (W.outside world.old).told }
    ensures later { IsLater (W.outside world.old) (W.outside world.new) }
    ensures cause { IsErrOf result StepFault.Store → Rose ((W.outside world.old).faults_at 0) ((W.outside world.new).faults_at 0) }
{
    let early = unshard_refusal_but_use(world, known, name, at);
    if early.is_some() {
        return Ok(early);
    }
    let used = is_in_use(alloc, world, known, name, at)?;
    Ok(first_of(&[(used, Refusal::ShardInUse)]))
}
