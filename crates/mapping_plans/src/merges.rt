//! The plan of `merge`.
ghost use Rattle.std.specs.Prelude.{◌≡◌, ◌+◌, ◌≤◌, true, IfOk, IfSome, IsErrOf};
ghost use Rattle.cell_world.specs.Counts.{Rose};
ghost use Rattle.cell_world.specs.Keys.{same};
ghost use Rattle.cell_world.specs.Meaning.{meaning};
ghost use Rattle.cell_world.specs.Outside.{IfContents, IsLater};
ghost use Rattle.cell_world.specs.Sound.{Sound};
ghost use Rattle.plain_model.specs.Refusing.{next_mapping};
ghost use Rattle.plain_model.specs.declared.commands.Command.TheVariants as command;
ghost use Rattle.map_ops.specs.Planning.{PlansWith, IsLongPlan};
ghost use Rattle.mapping_plans.specs.Exchanges.{merge_op};
ghost use Rattle.mapping_plans.specs.Merging.{PlansMerge, end_key, if_agrees};

use crate::exchanges::{exchange_op, one_piece, part_of, plan_some, two_pieces};
use crate::finding::named_mapping;
use crate::locking::{is_at, is_locked, is_same_status, is_same_token};
use cell_world::cells::{CellKey, MapKind, Site, Token};
use cell_world::key_texts::KeyText;
use cell_world::names::Name;
use cell_world::norm_keys::NormKey;
use cell_world::operations::{Op, Piece};
use cell_world::outside::World;
use cell_world::spans::{High, Span};
use global_tables::faults::StepFault;
use global_tables::known::KnownTables;
use global_tables::reads::read_row;
use map_ops::stops::stop_of;
use plain_model::plans::{Plan, PlanStop};
use plain_model::replies::Refusal;
use std::alloc::Global;

/// The key at which the range ends. `None` for an unbounded one and for a point.
fn end_key(span: &Span) -> Option<NormKey>
    ensures { result ≡ end_key span.now }
{
    match span {
        Span::Range(_, High::At(end)) => Some(*end),
        Span::Range(_, High::Max) => None,
        Span::Point(_) => None,
    }
}

/// The other mapping, if there is one, and it is of the same map and agrees with the mapping in location, status and token.
fn if_agrees(piece: &Piece, other: &Option<Piece>) -> Option<Piece>
    ensures { result ≡ if_agrees piece.now other.now }
{
    match other {
        None => None,
        Some(other) => {
            if piece.map.cmp(&other.map).is_eq()
                && is_at(piece, &other.location)
                && is_same_status(piece.status, other.status)
                && is_same_token(&piece.token, &other.token)
            {
                Some(*other)
            } else {
                None
            }
        }
    }
}

/// The mapping that begins at the high end of this one and agrees with it in location, status and token, by one read of
/// the global store at most. `Store`: the store refused. After an error nothing has changed but counts.
fn next_mapping<W: World>(
    alloc: Global,
    world: &mut W,
    piece: &Piece,
) -> Result<Option<Piece>, StepFault>
    ensures found { IfOk result (λ next. IfContents (W.outside world.old).told (λ image. Sound image → next ≡ next_mapping (meaning image) piece.now)) }
    ensures of_map { IfOk result (λ next. IfSome next (λ q. same piece.now.map q.map ≡ true)) }
    ensures reads { (W.outside world.new).global_reads ≤ (W.outside world.old).global_reads + 1 }
    ensures told { (W.outside world.new).told ≡ (W.outside world.old).told }
    ensures later { IsLater (W.outside world.old) (W.outside world.new) }
    ensures cause { IsErrOf result StepFault.Store → Rose ((W.outside world.old).faults_at 0) ((W.outside world.new).faults_at 0) }
{
    let Some(end) = end_key(&piece.span) else {
        return Ok(None);
    };
    let found: Option<Piece> = read_row(
        alloc,
        world,
        Site::GLOBAL,
        &CellKey::Piece(piece.map, end),
    )?;
    Ok(if_agrees(piece, &found))
}

/// The operation by which the mapping and the next one are one, where the next one is a range.
fn merge_op(piece: &Piece, next: &Piece) -> Option<Op>
    ensures { result ≡ merge_op piece.now next.now }
{
    match next.span {
        Span::Range(_, end) => {
            let whole = part_of(piece, *piece.span.low(), end);
            Some(exchange_op(
                piece,
                whole.span,
                two_pieces(*piece, *next),
                one_piece(whole),
            ))
        }
        Span::Point(_) => None,
    }
}

/// The plan to merge a mapping that the token opens with the next one: refused where there is none.
fn plan_with_next<W: World>(alloc: Global, world: &mut W, piece: &Piece) -> Result<Plan, PlanStop>
    ensures plans { IfContents (W.outside world.old).told (PlansMerge piece.now result) }
    ensures long { IsLongPlan result }
    ensures reads { (W.outside world.new).global_reads ≤ (W.outside world.old).global_reads + 1 }
    ensures told { (W.outside world.new).told ≡ (W.outside world.old).told }
    ensures later { IsLater (W.outside world.old) (W.outside world.new) }
    ensures cause { IsErrOf result PlanStop.Store → Rose ((W.outside world.old).faults_at 0) ((W.outside world.new).faults_at 0) }
{
    match next_mapping(alloc, world, piece) {
        Ok(Some(next)) => plan_some(world, piece, merge_op(piece, &next)),
        Ok(None) => Err(PlanStop::Refused(Refusal::NotMergeable)),
        Err(fault) => Err(stop_of(fault)),
    }
}

/// `merge NAME KEY [TOKEN]`: the mapping of the key and the next one are one, where the map is a range map, the mapping's
/// site is attached, it has no token or this one, and the next one begins at its end and agrees with it in location,
/// status and token.
pub fn plan_merge<W: World>(
    alloc: Global,
    world: &mut W,
    known: &KnownTables,
    name: &Name,
    text: &KeyText,
    token: &Option<Token>,
) -> Result<Plan, PlanStop>
    ensures plans { IfContents (W.outside world.old).told (PlansWith known.now (command.Merge name.now text.now token.now) result) }
    ensures long { IsLongPlan result }
    ensures reads { (W.outside world.new).global_reads ≤ (W.outside world.old).global_reads + 2 }
    ensures told { (W.outside world.new).told ≡ (W.outside world.old).told }
    ensures later { IsLater (W.outside world.old) (W.outside world.new) }
    ensures cause { IsErrOf result PlanStop.Store → Rose ((W.outside world.old).faults_at 0) ((W.outside world.new).faults_at 0) }
{
    match named_mapping(alloc, world, known, Some(MapKind::Range), name, text) {
        Ok(owned) => {
            if is_locked(token, &owned.piece) {
                Err(PlanStop::Refused(Refusal::Locked))
            } else {
                plan_with_next(alloc, world, &owned.piece)
            }
        }
        Err(stop) => Err(stop),
    }
}
