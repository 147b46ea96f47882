//! Checks: a test, and the refusal where it holds. In the order of the definitions.
ghost use Rattle.std.specs.Prelude.{◌≡◌};
ghost use Rattle.plain_model.specs.Refusing.{first_refusal, no_map, map_exists, map_in_use, no_location, not_a_shard, shard_exists, shard_in_use, wrong_kind, bad_key, bad_range, overlap, no_mapping, not_offline, same_status_already, not_locked, locked, has_token, bad_split, not_mergeable, rows_present, owner_offline, ended, no_table, table_exists, detached, unresolved, no_row, same_shard, number_in_use, no_connection, full_of_maps, full_of_tables, overlaps_in};
ghost use Rattle.plain_model.specs.Refusing.{if_there, is_detached, is_suspect, same_kind, same_status};
ghost use Rattle.cell_world.specs.Keys.{before};
ghost use Rattle.plain_tables.specs.State.{state_of, link_shown};

use cell_world::cells::{Away, MapKind, Status, Token};
use cell_world::limits::{MOST_MAPS, MOST_TABLES};
use cell_world::locations::Location;
use cell_world::names::Name;
use cell_world::norm_keys::NormKey;
use cell_world::operations::Piece;
use cell_world::spans::{High, Span};
use plain_model::replies::Refusal;
use plain_tables::named::{row_of, same_status, same_token};
use plain_tables::state::{Link, PlainTables};

/// A test, and the refusal where it holds.
pub type Check = (bool, Refusal);

/// The first refusal whose test holds.
pub fn first(checks: &[Check]) -> Option<Refusal>
    ensures { result ≡ first_refusal checks.now }
{
    for check in checks {
        if check.0 {
            return Some(check.1);
        }
    }
    None
}

fn is_detached(away: Option<Away>) -> bool
    ensures { result ≡ is_detached away }
{
    match away {
        Some(Away::Detached) => true,
        _ => false,
    }
}

fn is_suspect(away: Option<Away>) -> bool
    ensures { result ≡ is_suspect away }
{
    match away {
        Some(Away::Suspect) => true,
        _ => false,
    }
}

fn same_kind(a: MapKind, b: MapKind) -> bool
    ensures { result ≡ same_kind a b }
{
    match (a, b) {
        (MapKind::Range, MapKind::Range) | (MapKind::List, MapKind::List) => true,
        _ => false,
    }
}

/// The key is before the end.
fn before(key: &NormKey, end: &High) -> bool
    ensures { result ≡ before key.now end.now }
{
    match end {
        High::At(high) => key.cmp(high).is_lt(),
        High::Max => true,
    }
}

/// A key word isn't a key of the map's type.
pub fn bad_key<T>(key: &Option<T>) -> Check
    ensures { result ≡ bad_key key.now }
{
    (key.is_none(), Refusal::BadKey)
}

/// The low key isn't less than the high end.
pub fn bad_range(low: &Option<NormKey>, high: &Option<High>) -> Check
    ensures { result ≡ bad_range low.now high.now }
{
    let holds = match (low, high) {
        (Some(low), Some(high)) => !before(low, high),
        _ => false,
    };
    (holds, Refusal::BadRange)
}

/// The key has no owner.
pub fn no_mapping(piece: &Option<Piece>) -> Check
    ensures { result ≡ no_mapping piece.now }
{
    (piece.is_none(), Refusal::NoMapping)
}

/// Whether the mapping is there and has the status.
fn has_status(wanted: Status, piece: &Option<Piece>) -> bool
    ensures { result ≡ if_there (λ p. same_status wanted p.status) piece.now }
{
    match piece {
        Some(piece) => same_status(wanted, piece.status),
        None => false,
    }
}

/// The mapping is online.
pub fn not_offline(piece: &Option<Piece>) -> Check
    ensures { result ≡ not_offline piece.now }
{
    (has_status(Status::Online, piece), Refusal::NotOffline)
}

/// The mapping has that status.
pub fn same_status_already(wanted: Status, piece: &Option<Piece>) -> Check
    ensures { result ≡ same_status_already wanted piece.now }
{
    (has_status(wanted, piece), Refusal::SameStatus)
}

/// The mapping has no token.
pub fn not_locked(piece: &Option<Piece>) -> Check
    ensures { result ≡ not_locked piece.now }
{
    let holds = match piece {
        Some(piece) => piece.token.is_none(),
        None => false,
    };
    (holds, Refusal::SameStatus)
}

/// The mapping has a token, and the command gives none or another.
pub fn locked(given: &Option<Token>, piece: &Option<Piece>) -> Check
    ensures { result ≡ locked given.now piece.now }
{
    let holds = match piece {
        Some(piece) => piece.token.is_some() && !same_token(given, &piece.token),
        None => false,
    };
    (holds, Refusal::Locked)
}

/// The mapping has a token.
pub fn has_token(piece: &Option<Piece>) -> Check
    ensures { result ≡ has_token piece.now }
{
    let holds = match piece {
        Some(piece) => piece.token.is_some(),
        None => false,
    };
    (holds, Refusal::Locked)
}

/// The key is the low key of its mapping.
pub fn bad_split(key: &Option<NormKey>, piece: &Option<Piece>) -> Check
    ensures { result ≡ bad_split key.now piece.now }
{
    let holds = match (piece, key) {
        (Some(piece), Some(key)) => key.cmp(piece.span.low()).is_eq(),
        _ => false,
    };
    (holds, Refusal::BadSplit)
}

/// The owner is offline.
pub fn owner_offline(piece: &Option<Piece>) -> Check
    ensures { result ≡ owner_offline piece.now }
{
    (has_status(Status::Offline, piece), Refusal::Offline)
}

/// The connection was ended.
pub fn ended(link: &Option<Link>) -> Check
    ensures { result ≡ ended (link_shown link.now) }
{
    let holds = match link {
        Some(link) => !link.live,
        None => false,
    };
    (holds, Refusal::Ended)
}

/// Source and target are one location.
pub fn same_shard(location: &Location, piece: &Option<Piece>) -> Check
    ensures { result ≡ same_shard location.now piece.now }
{
    let holds = match piece {
        Some(piece) => piece.location.cmp(location).is_eq(),
        None => false,
    };
    (holds, Refusal::SameShard)
}

/// The session has a connection of this number, live or ended.
pub fn number_in_use(link: &Option<Link>) -> Check
    ensures { result ≡ number_in_use (link_shown link.now) }
{
    (link.is_some(), Refusal::NumberInUse)
}

/// The session has no connection of this number.
pub fn no_connection(link: &Option<Link>) -> Check
    ensures { result ≡ no_connection (link_shown link.now) }
{
    (link.is_none(), Refusal::NoConnection)
}

/// No map has this name.
pub fn no_map(plain: &PlainTables, name: &Name) -> Check
    ensures { result ≡ no_map (state_of plain.now) name.now }
{
    (plain.map_at(name).is_none(), Refusal::NoMap)
}

/// A map has this name.
pub fn map_exists(plain: &PlainTables, name: &Name) -> Check
    ensures { result ≡ map_exists (state_of plain.now) name.now }
{
    (plain.map_at(name).is_some(), Refusal::MapExists)
}

/// The map has a shard.
pub fn map_in_use(plain: &PlainTables, name: &Name) -> Check
    ensures { result ≡ map_in_use (state_of plain.now) name.now }
{
    (plain.has_shards(name), Refusal::MapInUse)
}

/// The location isn't known.
pub fn no_location(plain: &PlainTables, location: &Location) -> Check
    ensures { result ≡ no_location (state_of plain.now) location.now }
{
    (!plain.is_location(location), Refusal::NoLocation)
}

/// The location is no shard of the map.
pub fn not_a_shard(plain: &PlainTables, name: &Name, location: &Location) -> Check
    ensures { result ≡ not_a_shard (state_of plain.now) name.now location.now }
{
    (!plain.is_shard(name, location), Refusal::NotAShard)
}

/// The location is a shard of the map.
pub fn shard_exists(plain: &PlainTables, name: &Name, location: &Location) -> Check
    ensures { result ≡ shard_exists (state_of plain.now) name.now location.now }
{
    (plain.is_shard(name, location), Refusal::ShardExists)
}

/// A mapping of the map is on it, or a standing job of the map has it as target.
pub fn shard_in_use(plain: &PlainTables, name: &Name, location: &Location) -> Check
    ensures { result ≡ shard_in_use (state_of plain.now) name.now location.now }
{
    let holds = plain.has_mapping_at(name, location) || plain.is_target(name, location);
    (holds, Refusal::ShardInUse)
}

/// The command isn't for this kind of map.
pub fn wrong_kind(plain: &PlainTables, name: &Name, wanted: MapKind) -> Check
    ensures { result ≡ wrong_kind (state_of plain.now) name.now wanted }
{
    let holds = match plain.kind_of_map(name) {
        Some(kind) => !same_kind(wanted, kind),
        None => false,
    };
    (holds, Refusal::WrongKind)
}

/// A mapping of the map shares a key with the new span.
pub fn overlap(plain: &PlainTables, name: &Name, span: &Option<Span>) -> Check
    ensures { result ≡ overlap (state_of plain.now) name.now span.now }
{
    let holds = match span {
        Some(span) => plain.is_overlapped(name, span),
        None => false,
    };
    (holds, Refusal::Overlap)
}

/// No mapping begins at the high end, or it has another location, status or token.
pub fn not_mergeable(plain: &PlainTables, piece: &Option<Piece>) -> Check
    ensures { result ≡ not_mergeable (state_of plain.now) piece.now }
{
    let holds = match piece {
        Some(piece) => plain.next_mapping(piece).is_none(),
        None => false,
    };
    (holds, Refusal::NotMergeable)
}

/// A row stands under a key of the mapping.
pub fn rows_present(plain: &PlainTables, piece: &Option<Piece>) -> Check
    ensures { result ≡ rows_present (state_of plain.now) piece.now }
{
    let holds = match piece {
        Some(piece) => plain.has_rows(piece),
        None => false,
    };
    (holds, Refusal::RowsPresent)
}

/// The connection's map has no such table.
pub fn no_table(plain: &PlainTables, link: &Option<Link>, table: &Name) -> Check
    ensures { result ≡ no_table (state_of plain.now) (link_shown link.now) table.now }
{
    let holds = match link {
        Some(link) => !plain.has_table(&link.map, table),
        None => false,
    };
    (holds, Refusal::NoTable)
}

/// The map has this table.
pub fn table_exists(plain: &PlainTables, name: &Name, table: &Name) -> Check
    ensures { result ≡ table_exists (state_of plain.now) name.now table.now }
{
    (plain.has_table(name, table), Refusal::TableExists)
}

/// The site is Detached.
pub fn detached(plain: &PlainTables, location: &Option<Location>) -> Check
    ensures { result ≡ detached (state_of plain.now) location.now }
{
    let holds = match location {
        Some(location) => is_detached(plain.away_at(location)),
        None => false,
    };
    (holds, Refusal::Detached)
}

/// The site is Suspect.
pub fn unresolved(plain: &PlainTables, location: &Option<Location>) -> Check
    ensures { result ≡ unresolved (state_of plain.now) location.now }
{
    let holds = match location {
        Some(location) => is_suspect(plain.away_at(location)),
        None => false,
    };
    (holds, Refusal::Unresolved)
}

/// The row isn't there.
pub fn no_row(plain: &PlainTables, link: &Option<Link>, table: &Name, number: u64) -> Check
    ensures { result ≡ no_row (state_of plain.now) (link_shown link.now) table.now number }
{
    let holds = match link {
        Some(link) => plain.row_at(&row_of(link, table, number)).is_none(),
        None => false,
    };
    (holds, Refusal::Absent)
}

/// As many maps stand as may.
pub fn full_of_maps(plain: &PlainTables) -> Check
    ensures { result ≡ full_of_maps (state_of plain.now) }
{
    (plain.map_count() >= MOST_MAPS, Refusal::Full)
}

/// The map has as many tables as it may.
pub fn full_of_tables(plain: &PlainTables, name: &Name) -> Check
    ensures { result ≡ full_of_tables (state_of plain.now) name.now }
{
    (plain.table_count(name) >= MOST_TABLES, Refusal::Full)
}
