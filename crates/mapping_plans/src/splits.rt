//! The plan of `split`.
ghost use Rattle.std.specs.Prelude.{◌≡◌, ◌+◌, ◌≤◌, ◌∷◌, [], true, IfSome, IsErrOf, Some};
ghost use Rattle.cell_world.specs.Counts.{Rose};
ghost use Rattle.cell_world.specs.Outside.{IfContents, IsLater};
ghost use Rattle.plain_model.specs.Refusing.{bad_split, first_refusal, locked};
ghost use Rattle.plain_model.specs.ShortCommands.{is_short_refusal};
ghost use Rattle.plain_model.specs.declared.commands.Command.TheVariants as command;
ghost use Rattle.map_ops.specs.Planning.{PlansWith, IsLongPlan};
ghost use Rattle.mapping_plans.specs.Exchanges.{split_op};

use crate::exchanges::{exchange_op, one_piece, part_of, plan_some, two_pieces};
use crate::finding::named_mapping;
use crate::locking::is_locked;
use cell_world::cells::{MapKind, Token};
use cell_world::key_texts::KeyText;
use cell_world::names::Name;
use cell_world::norm_keys::NormKey;
use cell_world::operations::{Op, Piece};
use cell_world::outside::World;
use cell_world::spans::{High, Span};
use global_tables::known::KnownTables;
use map_ops::refusals::first_of;
use plain_model::plans::{Plan, PlanStop};
use plain_model::replies::Refusal;
use std::alloc::Global;

/// Whether the key is the low key of the mapping.
fn is_low(key: &NormKey, piece: &Piece) -> bool
    ensures { result ≡ (bad_split (Some key.now) (Some piece.now)).0 }
{
    key.cmp(piece.span.low()).is_eq()
}

/// The refusal to cut the mapping at the key, if one holds.
fn split_refusal(piece: &Piece, key: &NormKey, token: &Option<Token>) -> Option<Refusal>
    ensures first { result ≡ first_refusal (locked token.now (Some piece.now) ∷ bad_split (Some key.now) (Some piece.now) ∷ []) }
    ensures short { IfSome result (λ refusal. is_short_refusal refusal ≡ true) }
{
    first_of(&[
        (is_locked(token, piece), Refusal::Locked),
        (is_low(key, piece), Refusal::BadSplit),
    ])
}

/// The operation that cuts the mapping at the key, where it is a range.
fn split_op(piece: &Piece, key: &NormKey) -> Option<Op>
    ensures { result ≡ split_op piece.now key.now }
{
    match piece.span {
        Span::Range(low, end) => {
            let parts = two_pieces(
                part_of(piece, low, High::At(*key)),
                part_of(piece, *key, end),
            );
            Some(exchange_op(piece, piece.span, one_piece(*piece), parts))
        }
        Span::Point(_) => None,
    }
}

/// `split NAME KEY [TOKEN]`: the mapping of the key is cut at the key, where the map is a range map, the mapping's site is
/// attached, it has no token or this one, and doesn't begin at the key. Both parts keep all else.
pub fn plan_split<W: World>(
    alloc: Global,
    world: &mut W,
    known: &KnownTables,
    name: &Name,
    text: &KeyText,
    token: &Option<Token>,
) -> Result<Plan, PlanStop>
    ensures plans { IfContents (W.outside world.old).told (PlansWith known.now (command.Split name.now text.now token.now) result) }
    ensures long { IsLongPlan result }
    ensures reads { (W.outside world.new).global_reads ≤ (W.outside world.old).global_reads + 2 }
    ensures told { (W.outside world.new).told ≡ (W.outside world.old).told }
    ensures later { IsLater (W.outside world.old) (W.outside world.new) }
    ensures cause { IsErrOf result PlanStop.Store → Rose ((W.outside world.old).faults_at 0) ((W.outside world.new).faults_at 0) }
{
    match named_mapping(alloc, world, known, Some(MapKind::Range), name, text) {
        Ok(owned) => match split_refusal(&owned.piece, &owned.key, token) {
            Some(refusal) => Err(PlanStop::Refused(refusal)),
            None => plan_some(world, &owned.piece, split_op(&owned.piece, &owned.key)),
        },
        Err(stop) => Err(stop),
    }
}
