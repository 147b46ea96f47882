//! The plan of `delete`.
ghost use Rattle.std.specs.Prelude.{◌≡◌, ◌+◌, ◌≤◌, ◌∷◌, [], true, IfSome, IsErrOf, Some};
ghost use Rattle.cell_world.specs.Outside.{IfContents, IsLater, StoreRoseBy};
ghost use Rattle.plain_model.specs.Refusing.{first_refusal, locked, not_offline};
ghost use Rattle.plain_model.specs.ShortCommands.{is_short_refusal};
ghost use Rattle.plain_model.specs.declared.commands.Command.TheVariants as command;
ghost use Rattle.map_ops.specs.Planning.{PlansWith, IsLongPlan};
ghost use Rattle.mapping_plans.specs.Exchanges.{delete_op};

use crate::exchanges::{exchange_op, no_piece, one_piece};
use crate::finding::named_mapping;
use crate::locking::{is_locked, is_online};
use crate::site_rows::plan_if_empty;
use cell_world::cells::Token;
use cell_world::key_texts::KeyText;
use cell_world::names::Name;
use cell_world::operations::{Op, Piece};
use cell_world::outside::World;
use global_tables::known::KnownTables;
use map_ops::refusals::first_of;
use plain_model::plans::{Plan, PlanStop};
use plain_model::replies::Refusal;
use std::alloc::Global;

/// The refusal to delete the mapping but for the last, if one of these holds.
fn delete_refusal(piece: &Piece, token: &Option<Token>) -> Option<Refusal>
    ensures first { result ≡ first_refusal (locked token.now (Some piece.now) ∷ not_offline (Some piece.now) ∷ []) }
    ensures short { IfSome result (λ refusal. is_short_refusal refusal ≡ true) }
{
    first_of(&[
        (is_locked(token, piece), Refusal::Locked),
        (is_online(piece), Refusal::NotOffline),
    ])
}

/// The operation by which the mapping goes.
fn delete_op(piece: &Piece) -> Op
    ensures { result ≡ delete_op piece.now }
{
    exchange_op(piece, piece.span, one_piece(*piece), no_piece())
}

/// `delete NAME KEY [TOKEN]`: the mapping of the key goes, where its site is attached, it has no token or this one, is
/// offline, and no row stands under a key of it.
pub fn plan_delete<W: World>(
    alloc: Global,
    world: &mut W,
    known: &KnownTables,
    name: &Name,
    text: &KeyText,
    token: &Option<Token>,
) -> Result<Plan, PlanStop>
    ensures plans { IfContents (W.outside world.old).told (PlansWith known.now (command.Delete name.now text.now token.now) result) }
    ensures long { IsLongPlan result }
    ensures reads { (W.outside world.new).global_reads ≤ (W.outside world.old).global_reads + 2 }
    ensures told { (W.outside world.new).told ≡ (W.outside world.old).told }
    ensures later { IsLater (W.outside world.old) (W.outside world.new) }
    ensures cause { IsErrOf result PlanStop.Store → StoreRoseBy 1 (W.outside world.old) (W.outside world.new) }
{
    match named_mapping(alloc, world, known, None, name, text) {
        Ok(owned) => match delete_refusal(&owned.piece, token) {
            Some(refusal) => Err(PlanStop::Refused(refusal)),
            None => plan_if_empty(alloc, world, &owned.piece, delete_op(&owned.piece)),
        },
        Err(stop) => Err(stop),
    }
}
