//! The mapping that a command's words name, and the refusals that all mapping commands begin with.
ghost use Rattle.std.specs.Prelude.{◌≡◌, ◌+◌, ◌≤◌, true, IfSome, IfOk, IfErr, IsErrOf};
ghost use Rattle.cell_world.specs.Counts.{Rose};
ghost use Rattle.cell_world.specs.Images.{Image, global};
ghost use Rattle.cell_world.specs.Meaning.{meaning};
ghost use Rattle.cell_world.specs.Outside.{IfContents, IsLater};
ghost use Rattle.cell_world.specs.Stores.{Store};
ghost use Rattle.global_tables.specs.Known.{known_of};
ghost use Rattle.global_tables.specs.Reads.{IsKeyIfThere};
ghost use Rattle.plain_model.specs.Refusing.{first_refusal};
ghost use Rattle.plain_model.specs.ShortCommands.{is_short_refusal};
ghost use Rattle.mapping_plans.specs.Finding.{FindsWith, IsShortStop, ReadsKey, away_checks, is_other_kind};

use cell_world::cells::MapKind;
use cell_world::key_texts::KeyText;
use cell_world::locations::Location;
use cell_world::names::Name;
use cell_world::norm_keys::NormKey;
use cell_world::operations::Piece;
use cell_world::outside::World;
use global_tables::known::KnownTables;
use global_tables::lookups::piece_at;
use map_ops::refusals::{first_of, is_detached, is_suspect};
use map_ops::stops::stop_of;
use map_ops::words::key_in;
use plain_model::plans::PlanStop;
use plain_model::replies::Refusal;
use std::alloc::Global;

/// A mapping, with the key by which it was found.
#[derive(Clone, Copy)]
pub struct Owned {
    pub key: NormKey,
    pub piece: Piece,
}

/// Whether a kind is wanted, and this is the other one.
fn is_other_kind(wanted: Option<MapKind>, kind: MapKind) -> bool
    ensures { result ≡ is_other_kind wanted kind }
{
    match wanted {
        None => false,
        Some(wanted) => match (wanted, kind) {
            (MapKind::Range, MapKind::List) => true,
            (MapKind::List, MapKind::Range) => true,
            (MapKind::Range, MapKind::Range) => false,
            (MapKind::List, MapKind::List) => false,
        },
    }
}

/// The key of the map that the word is; or `NoMap`, `WrongKind` where another kind is wanted, or `BadKey`.
fn named_key(
    known: &KnownTables,
    wanted: Option<MapKind>,
    name: &Name,
    text: &KeyText,
) -> Result<NormKey, Refusal>
    ensures reads { (image : Image) → known.now ≡ known_of (global image) → ReadsKey wanted name.now text.now result (meaning image) }
    ensures normal { IfOk result (λ key. (s : Store) → known.now ≡ known_of s → IsKeyIfThere s.maps name.now key) }
    ensures short { IfErr result (λ refusal. is_short_refusal refusal ≡ true) }
{
    match known.map(name) {
        None => Err(Refusal::NoMap),
        Some((kind, key_type)) => {
            if is_other_kind(wanted, kind) {
                return Err(Refusal::WrongKind);
            }
            match key_in(key_type, text) {
                Some(key) => Ok(key),
                None => Err(Refusal::BadKey),
            }
        }
    }
}

/// The refusal of a site that isn't attached.
fn away_refusal(known: &KnownTables, at: &Location) -> Option<Refusal>
    ensures first { (image : Image) → known.now ≡ known_of (global image) → result ≡ first_refusal (away_checks (meaning image) at.now) }
    ensures short { IfSome result (λ refusal. is_short_refusal refusal ≡ true) }
{
    first_of(&[
        (is_detached(known, at), Refusal::Detached),
        (is_suspect(known, at), Refusal::Unresolved),
    ])
}

/// The mapping of the key that the word is, by one read of the global store.
///
/// `Refused`: `NoMap`, `WrongKind` where another kind of map is wanted, `BadKey`, `NoMapping`; `Detached` or `Unresolved`
/// where the mapping's site isn't attached. `Store`: the store refused. After an error nothing has changed but counts.
pub fn named_mapping<W: World>(
    alloc: Global,
    world: &mut W,
    known: &KnownTables,
    wanted: Option<MapKind>,
    name: &Name,
    text: &KeyText,
) -> Result<Owned, PlanStop>
    ensures finds { IfContents (W.outside world.old).told (FindsWith known.now wanted name.now text.now result) }
    ensures short { IfErr result IsShortStop }
    ensures reads { (W.outside world.new).global_reads ≤ (W.outside world.old).global_reads + 1 }
    ensures told { (W.outside world.new).told ≡ (W.outside world.old).told }
    ensures later { IsLater (W.outside world.old) (W.outside world.new) }
    ensures cause { IsErrOf result PlanStop.Store → Rose ((W.outside world.old).faults_at 0) ((W.outside world.new).faults_at 0) }
{
    let key = match named_key(known, wanted, name, text) {
        Ok(key) => key,
        Err(refusal) => return Err(PlanStop::Refused(refusal)),
    };
    match piece_at(alloc, world, name, &key) {
        Ok(Some(piece)) => match away_refusal(known, &piece.location) {
            Some(refusal) => Err(PlanStop::Refused(refusal)),
            None => Ok(Owned { key, piece }),
        },
        Ok(None) => Err(PlanStop::Refused(Refusal::NoMapping)),
        Err(fault) => Err(stop_of(fault)),
    }
}
