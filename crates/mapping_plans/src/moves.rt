//! The plan of `move`.
ghost use Rattle.std.specs.Prelude.{◌≡◌, ◌+◌, ◌≤◌, true, IfSome, IsErrOf, Some};
ghost use Rattle.cell_world.specs.Images.{global};
ghost use Rattle.cell_world.specs.Meaning.{meaning};
ghost use Rattle.cell_world.specs.Outside.{IfContents, IsLater, StoreRoseBy};
ghost use Rattle.global_tables.specs.Known.{known_of};
ghost use Rattle.plain_model.specs.Refusing.{first_refusal};
ghost use Rattle.plain_model.specs.ShortCommands.{is_short_refusal};
ghost use Rattle.plain_model.specs.declared.commands.Command.TheVariants as command;
ghost use Rattle.map_ops.specs.Planning.{PlansWith, IsLongPlan};
ghost use Rattle.mapping_plans.specs.Exchanges.{move_op};
ghost use Rattle.mapping_plans.specs.Moving.{move_checks};

use crate::exchanges::{exchange_op, one_piece};
use crate::finding::named_mapping;
use crate::locking::{is_at, is_locked, is_online};
use crate::site_rows::plan_if_empty;
use cell_world::cells::Token;
use cell_world::key_texts::KeyText;
use cell_world::locations::Location;
use cell_world::names::Name;
use cell_world::operations::{Op, Piece};
use cell_world::outside::World;
use global_tables::known::KnownTables;
use map_ops::refusals::{first_of, is_detached, is_location, is_suspect};
use plain_model::plans::{Plan, PlanStop};
use plain_model::replies::Refusal;
use std::alloc::Global;

/// The refusal to move the mapping to the location but for the last, if one of these holds.
fn move_refusal<W: World>(
    world: &W,
    known: &KnownTables,
    name: &Name,
    piece: &Piece,
    at: &Location,
    token: &Option<Token>,
) -> Option<Refusal>
    ensures first { IfContents (W.outside world.now).told (λ image. known.now ≡ known_of (global image) → result ≡ first_refusal (move_checks name.now at.now token.now (meaning image) (Some piece.now))) }
    ensures short { IfSome result (λ refusal. is_short_refusal refusal ≡ true) }
{
    first_of(&[
        (is_locked(token, piece), Refusal::Locked),
        (!is_location(world, at), Refusal::NoLocation),
        (!known.is_shard(name, at), Refusal::NotAShard),
        (is_detached(known, at), Refusal::Detached),
        (is_suspect(known, at), Refusal::Unresolved),
        (is_at(piece, at), Refusal::SameShard),
        (is_online(piece), Refusal::NotOffline),
    ])
}

/// The operation by which the mapping is at the location.
fn move_op(piece: &Piece, at: Location) -> Op
    ensures { result ≡ move_op at piece.now }
{
    let moved = Piece {
        map: piece.map,
        span: piece.span,
        location: at,
        status: piece.status,
        token: piece.token,
    };
    exchange_op(piece, piece.span, one_piece(*piece), one_piece(moved))
}

/// `move NAME KEY LOCATION [TOKEN]`: the mapping of the key is at the location, where both sites are attached, the location
/// is another shard of the map, the mapping has no token or this one, is offline, and no row stands under a key of it.
pub fn plan_move<W: World>(
    alloc: Global,
    world: &mut W,
    known: &KnownTables,
    name: &Name,
    text: &KeyText,
    at: Location,
    token: &Option<Token>,
) -> Result<Plan, PlanStop>
    ensures plans { IfContents (W.outside world.old).told (PlansWith known.now (command.Move name.now text.now at token.now) result) }
    ensures long { IsLongPlan result }
    ensures reads { (W.outside world.new).global_reads ≤ (W.outside world.old).global_reads + 2 }
    ensures told { (W.outside world.new).told ≡ (W.outside world.old).told }
    ensures later { IsLater (W.outside world.old) (W.outside world.new) }
    ensures cause { IsErrOf result PlanStop.Store → StoreRoseBy 1 (W.outside world.old) (W.outside world.new) }
{
    match named_mapping(alloc, world, known, None, name, text) {
        Ok(owned) => match move_refusal(world, known, name, &owned.piece, &at, token) {
            Some(refusal) => Err(PlanStop::Refused(refusal)),
            None => plan_if_empty(alloc, world, &owned.piece, move_op(&owned.piece, at)),
        },
        Err(stop) => Err(stop),
    }
}
