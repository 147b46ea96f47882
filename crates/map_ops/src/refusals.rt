//! The refusals of maps, shards and tables, in the order of the command table, by the copy of the tables.
#![tactic(auto, unfolding(plain_model::specs::Refusing::refusal))]

ghost use Rattle.std.specs.Prelude.{◌≡◌, true, IfSome};
ghost use Rattle.std.specs.List.{AllByRecursion};
ghost use Rattle.std.specs.FinMap as map;
ghost use Rattle.cell_world.specs.Outside.{IfContents};
ghost use Rattle.cell_world.specs.Plain.{is_location_of};
ghost use Rattle.cell_world.specs.Meaning.{meaning};
ghost use Rattle.cell_world.specs.Stores.{Store};
ghost use Rattle.cell_world.specs.declared.cells.KeyType.{KeyType as AType};
ghost use Rattle.cell_world.specs.declared.cells.MapKind.{MapKind as AKind};
ghost use Rattle.global_tables.specs.Known.{known_of};
ghost use Rattle.plain_model.specs.Refusing.{first_refusal, is_detached, is_suspect};
ghost use Rattle.plain_model.specs.ShortCommands.{is_short_refusal};
ghost use Rattle.map_ops.specs.Planning.{RefusesOf, RefusesWith};

use cell_world::cells::SiteState;
use cell_world::limits::{MOST_MAPS, MOST_TABLES};
use cell_world::locations::Location;
use cell_world::names::Name;
use cell_world::outside::World;
use global_tables::known::KnownTables;
use plain_model::commands::Command;
use plain_model::replies::Refusal;

/// The first refusal of which the test holds. `None` exactly where none does.
pub fn first_of(checks: &[(bool, Refusal)]) -> Option<Refusal>
    ensures first { result ≡ first_refusal checks.now }
    ensures short { AllByRecursion (λ check. is_short_refusal check.1 ≡ true) checks.now → IfSome result (λ refusal. is_short_refusal refusal ≡ true) }
{
    for check in checks {
        if check.0 {
            return Some(check.1);
        }
    }
    None
}

/// Whether a map of this name stands.
pub fn has_map(known: &KnownTables, name: &Name) -> bool
    ensures { (s : Store) → known.now ≡ known_of s → result ≡ map.contains_key s.maps name.now }
{
    known.map(name).is_some()
}

/// Whether the world knows the location.
pub fn is_location<W: World>(world: &W, at: &Location) -> bool
    ensures { IfContents (W.outside world.now).told (λ image. result ≡ is_location_of (meaning image) at.now) }
{
    world.locate(at).is_some()
}

/// Whether the site is Detached.
pub fn is_detached(known: &KnownTables, at: &Location) -> bool
    ensures { (s : Store) → known.now ≡ known_of s → result ≡ is_detached (map.get s.away at.now) }
{
    match known.site_state(at) {
        SiteState::Detached => true,
        SiteState::Suspect | SiteState::Attached => false,
    }
}

/// Whether the site is Suspect.
pub fn is_suspect(known: &KnownTables, at: &Location) -> bool
    ensures { (s : Store) → known.now ≡ known_of s → result ≡ is_suspect (map.get s.away at.now) }
{
    match known.site_state(at) {
        SiteState::Suspect => true,
        SiteState::Detached | SiteState::Attached => false,
    }
}

/// The refusal of `map`, if one holds.
pub fn map_refusal(known: &KnownTables, name: &Name) -> Option<Refusal>
    ensures refuses { (kind : AKind) (type : AType) → RefusesOf known.now (Command.Map name.now kind type) result }
    ensures short { IfSome result (λ refusal. is_short_refusal refusal ≡ true) }
{
    first_of(&[
        (has_map(known, name), Refusal::MapExists),
        (known.map_count() >= MOST_MAPS, Refusal::Full),
    ])
}

/// The refusal of `unmap`, if one holds.
pub fn unmap_refusal(known: &KnownTables, name: &Name) -> Option<Refusal>
    ensures refuses { RefusesOf known.now (Command.Unmap name.now) result }
    ensures short { IfSome result (λ refusal. is_short_refusal refusal ≡ true) }
{
    first_of(&[
        (!has_map(known, name), Refusal::NoMap),
        (known.has_shard(name), Refusal::MapInUse),
    ])
}

/// The refusal of `shard`, if one holds.
pub fn shard_refusal<W: World>(
    world: &W,
    known: &KnownTables,
    name: &Name,
    at: &Location,
) -> Option<Refusal>
    ensures refuses { IfContents (W.outside world.now).told (RefusesWith known.now (Command.Shard name.now at.now) result) }
    ensures short { IfSome result (λ refusal. is_short_refusal refusal ≡ true) }
{
    first_of(&[
        (!has_map(known, name), Refusal::NoMap),
        (!is_location(world, at), Refusal::NoLocation),
        (is_detached(known, at), Refusal::Detached),
        (is_suspect(known, at), Refusal::Unresolved),
        (known.is_shard(name, at), Refusal::ShardExists),
    ])
}

/// The refusal of `table`, if one holds.
pub fn table_refusal(known: &KnownTables, name: &Name, table: &Name) -> Option<Refusal>
    ensures refuses { RefusesOf known.now (Command.Table name.now table.now) result }
    ensures short { IfSome result (λ refusal. is_short_refusal refusal ≡ true) }
{
    first_of(&[
        (!has_map(known, name), Refusal::NoMap),
        (known.is_table(name, table), Refusal::TableExists),
        (known.table_count(name) >= MOST_TABLES, Refusal::Full),
    ])
}
