//! The plans of `offline` and `online`.
ghost use Rattle.std.specs.Prelude.{◌≡◌, ◌+◌, ◌≤◌, ◌∷◌, [], true, IfSome, IsErrOf, Some};
ghost use Rattle.cell_world.specs.Counts.{Rose};
ghost use Rattle.cell_world.specs.Outside.{IfContents, IsLater};
ghost use Rattle.plain_model.specs.Refusing.{first_refusal, locked, same_status_already};
ghost use Rattle.plain_model.specs.ShortCommands.{is_short_refusal};
ghost use Rattle.map_ops.specs.Planning.{PlansWith, IsLongPlan};
ghost use Rattle.mapping_plans.specs.Commands.{status_command};
ghost use Rattle.mapping_plans.specs.Exchanges.{status_op};

use crate::exchanges::{exchange_op, one_piece, plan_op};
use crate::finding::named_mapping;
use crate::locking::{is_locked, is_same_status};
use cell_world::cells::{Status, Token};
use cell_world::key_texts::KeyText;
use cell_world::names::Name;
use cell_world::operations::{Op, Piece};
use cell_world::outside::World;
use global_tables::known::KnownTables;
use map_ops::refusals::first_of;
use plain_model::plans::{Plan, PlanStop};
use plain_model::replies::Refusal;
use std::alloc::Global;

/// The refusal of another status for the mapping, if one holds.
fn status_refusal(piece: &Piece, token: &Option<Token>, status: Status) -> Option<Refusal>
    ensures first { result ≡ first_refusal (locked token.now (Some piece.now) ∷ same_status_already status (Some piece.now) ∷ []) }
    ensures short { IfSome result (λ refusal. is_short_refusal refusal ≡ true) }
{
    first_of(&[
        (is_locked(token, piece), Refusal::Locked),
        (is_same_status(status, piece.status), Refusal::SameStatus),
    ])
}

/// The operation that gives the mapping this status.
fn status_op(piece: &Piece, status: Status) -> Op
    ensures { result ≡ status_op status piece.now }
{
    let changed = Piece {
        map: piece.map,
        span: piece.span,
        location: piece.location,
        status,
        token: piece.token,
    };
    exchange_op(piece, piece.span, one_piece(*piece), one_piece(changed))
}

/// `offline NAME KEY [TOKEN]` and `online NAME KEY [TOKEN]`: the mapping of the key gets this status, where its site is
/// attached, it has no token or this one, and has the other status.
pub fn plan_status<W: World>(
    alloc: Global,
    world: &mut W,
    known: &KnownTables,
    status: Status,
    name: &Name,
    text: &KeyText,
    token: &Option<Token>,
) -> Result<Plan, PlanStop>
    ensures plans { IfContents (W.outside world.old).told (PlansWith known.now (status_command status name.now text.now token.now) result) }
    ensures long { IsLongPlan result }
    ensures reads { (W.outside world.new).global_reads ≤ (W.outside world.old).global_reads + 2 }
    ensures told { (W.outside world.new).told ≡ (W.outside world.old).told }
    ensures later { IsLater (W.outside world.old) (W.outside world.new) }
    ensures cause { IsErrOf result PlanStop.Store → Rose ((W.outside world.old).faults_at 0) ((W.outside world.new).faults_at 0) }
{
    match named_mapping(alloc, world, known, None, name, text) {
        Ok(owned) => match status_refusal(&owned.piece, token, status) {
            Some(refusal) => Err(PlanStop::Refused(refusal)),
            None => plan_op(world, &owned.piece, status_op(&owned.piece, status)),
        },
        Err(stop) => Err(stop),
    }
}
