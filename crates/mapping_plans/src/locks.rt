//! The plans of `lock` and `unlock`.
ghost use Rattle.std.specs.Prelude.{◌≡◌, ◌+◌, ◌≤◌, ◌∷◌, [], true, IfSome, IsErrOf, Some, None};
ghost use Rattle.cell_world.specs.Counts.{Rose};
ghost use Rattle.cell_world.specs.Outside.{IfContents, IsLater};
ghost use Rattle.plain_model.specs.Refusing.{first_refusal, has_token, locked, not_locked};
ghost use Rattle.plain_model.specs.ShortCommands.{is_short_refusal};
ghost use Rattle.plain_model.specs.Steps.{with_token};
ghost use Rattle.plain_model.specs.declared.commands.Command.TheVariants as command;
ghost use Rattle.map_ops.specs.Planning.{PlansWith, IsShortPlan};
ghost use Rattle.mapping_plans.specs.Locking.{PlansToken};

use crate::exchanges::is_free;
use crate::finding::named_mapping;
use crate::locking::{has_no_token, has_token, is_locked};
use cell_world::cells::{Cell, Token};
use cell_world::changes::Change;
use cell_world::key_texts::KeyText;
use cell_world::names::Name;
use cell_world::operations::{Piece, Reach};
use cell_world::outside::World;
use global_tables::known::KnownTables;
use map_ops::refusals::first_of;
use plain_model::plans::{Plan, PlanStop};
use plain_model::replies::{Refusal, Reply};
use std::alloc::Global;

/// The mapping with this token, or none.
fn with_token(piece: &Piece, token: Option<Token>) -> Piece
    ensures { result ≡ with_token token piece.now }
{
    Piece {
        map: piece.map,
        span: piece.span,
        location: piece.location,
        status: piece.status,
        token,
    }
}

/// The plan that puts another token at a mapping, or none, and reaches its span. There is none, which is answered as want
/// of memory, where one of the two tokens is a job's: no script has such a token.
fn plan_token(alloc: Global, piece: &Piece, token: Option<Token>) -> Result<Plan, PlanStop>
    ensures plans { PlansToken piece.now token result }
    ensures short { IsShortPlan result }
{
    if is_free(&piece.token) && is_free(&token) {
        let mut change = Change::empty(alloc);
        change.put(Cell::Piece(with_token(piece, token)))?;
        Ok(Plan::Short(Reach::Part(piece.map, piece.span), change, Reply::Ok))
    } else {
        Err(PlanStop::Memory)
    }
}

/// The refusal to lock the mapping, if it has a token.
fn lock_refusal(piece: &Piece) -> Option<Refusal>
    ensures first { result ≡ first_refusal (has_token (Some piece.now) ∷ []) }
    ensures short { IfSome result (λ refusal. is_short_refusal refusal ≡ true) }
{
    first_of(&[(has_token(piece), Refusal::Locked)])
}

/// The refusal to unlock the mapping with the token, if it has none, or another one.
fn unlock_refusal(piece: &Piece, token: &Option<Token>) -> Option<Refusal>
    ensures first { result ≡ first_refusal (not_locked (Some piece.now) ∷ locked token.now (Some piece.now) ∷ []) }
    ensures short { IfSome result (λ refusal. is_short_refusal refusal ≡ true) }
{
    first_of(&[
        (has_no_token(piece), Refusal::SameStatus),
        (is_locked(token, piece), Refusal::Locked),
    ])
}

/// `lock NAME KEY TOKEN`: the mapping of the key has the token, where its site is attached and it has none. It reaches the
/// mapping's span.
pub fn plan_lock<W: World>(
    alloc: Global,
    world: &mut W,
    known: &KnownTables,
    name: &Name,
    text: &KeyText,
    token: Token,
) -> Result<Plan, PlanStop>
    ensures plans { IfContents (W.outside world.old).told (PlansWith known.now (command.Lock name.now text.now token) result) }
    ensures short { IsShortPlan result }
    ensures reads { (W.outside world.new).global_reads ≤ (W.outside world.old).global_reads + 1 }
    ensures told { (W.outside world.new).told ≡ (W.outside world.old).told }
    ensures later { IsLater (W.outside world.old) (W.outside world.new) }
    ensures cause { IsErrOf result PlanStop.Store → Rose ((W.outside world.old).faults_at 0) ((W.outside world.new).faults_at 0) }
{
    match named_mapping(alloc, world, known, None, name, text) {
        Ok(owned) => match lock_refusal(&owned.piece) {
            Some(refusal) => Err(PlanStop::Refused(refusal)),
            None => plan_token(alloc, &owned.piece, Some(token)),
        },
        Err(stop) => Err(stop),
    }
}

/// `unlock NAME KEY TOKEN`: the mapping of the key has no token, where its site is attached and it has this one. It
/// reaches the mapping's span.
pub fn plan_unlock<W: World>(
    alloc: Global,
    world: &mut W,
    known: &KnownTables,
    name: &Name,
    text: &KeyText,
    token: Token,
) -> Result<Plan, PlanStop>
    ensures plans { IfContents (W.outside world.old).told (PlansWith known.now (command.Unlock name.now text.now token) result) }
    ensures short { IsShortPlan result }
    ensures reads { (W.outside world.new).global_reads ≤ (W.outside world.old).global_reads + 1 }
    ensures told { (W.outside world.new).told ≡ (W.outside world.old).told }
    ensures later { IsLater (W.outside world.old) (W.outside world.new) }
    ensures cause { IsErrOf result PlanStop.Store → Rose ((W.outside world.old).faults_at 0) ((W.outside world.new).faults_at 0) }
{
    match named_mapping(alloc, world, known, None, name, text) {
        Ok(owned) => match unlock_refusal(&owned.piece, &Some(token)) {
            Some(refusal) => Err(PlanStop::Refused(refusal)),
            None => plan_token(alloc, &owned.piece, None),
        },
        Err(stop) => Err(stop),
    }
}
