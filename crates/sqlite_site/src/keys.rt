//! Keys of cells, their kinds and their maps.
ghost use Rattle.std.specs.Prelude.{◌≡◌, ◌↔◌, IfOk, IsTrue};
ghost use Rattle.cell_world.specs.Orders.{kind_number, map_of};
ghost use Rattle.cell_world.specs.Stores.{own_key};
ghost use Rattle.sqlite_site.specs.Entries.{IsWithin, rows_from, first_key};

use crate::refused::Refused;
use cell_world::cells::{Cell, CellKey};
use cell_world::names::Name;
use cell_world::norm_keys::NormKey;
use record_form::ordering::order_bytes;
use std::alloc::Global;

/// The key under which a cell stands.
pub(crate) fn key_of(cell: &Cell) -> CellKey
    ensures { result ≡ own_key cell.now }
{
    match cell {
        Cell::Map(name, _, _) => CellKey::Map(*name),
        Cell::Shard(name, location) => CellKey::Shard(*name, *location),
        Cell::Table(name, table) => CellKey::Table(*name, *table),
        Cell::Piece(piece) => CellKey::Piece(piece.map, *piece.span.low()),
        Cell::Log(op) => CellKey::Log(op.number),
        Cell::Job(job) => CellKey::Job(job.number),
        Cell::Counter(_) => CellKey::Counter,
        Cell::SiteState(location, _) => CellKey::SiteState(*location),
        Cell::Local(row) => CellKey::Local(row.map, *row.span.low(), row.number),
        Cell::Row(row, _) => CellKey::Row(*row),
    }
}

/// The kind of the cells of a key.
pub(crate) fn kind_of(key: &CellKey) -> u32
    ensures { result ≡ kind_number key.now }
{
    match key {
        CellKey::Map(_) => 1,
        CellKey::Shard(_, _) => 2,
        CellKey::Table(_, _) => 3,
        CellKey::Piece(_, _) => 4,
        CellKey::Log(_) => 5,
        CellKey::Job(_) => 6,
        CellKey::Counter => 7,
        CellKey::SiteState(_) => 8,
        CellKey::Local(_, _, _) => 9,
        CellKey::Row(_) => 10,
    }
}

/// The map of a key, for the kinds of which the first field is a map beside others.
fn map_within(key: &CellKey) -> Option<Name>
    ensures { result ≡ map_of key.now }
{
    match key {
        CellKey::Shard(name, _)
        | CellKey::Table(name, _)
        | CellKey::Piece(name, _)
        | CellKey::Local(name, _, _) => Some(*name),
        CellKey::Row(row) => Some(row.map),
        _ => None,
    }
}

/// Whether the cell stands under the key.
pub(crate) fn is_under(key: &CellKey, cell: &Cell) -> bool
    ensures { IsTrue result ↔ own_key cell.now ≡ key.now }
{
    key_of(cell) == *key
}

/// The cell, if it is of the map of the key.
pub(crate) fn within(key: &CellKey, found: Option<Cell>) -> Option<Cell>
    ensures { IsWithin key.now found result }
{
    match found {
        Some(cell) if map_within(&key_of(&cell)) == map_within(key) => Some(cell),
        _ => None,
    }
}

/// The order bytes from which on the rows of a map and a key stand; with `past`, those after them. A row's table
/// comes after its key, and begins with a letter, which is below 255.
pub(crate) fn rows_from(
    alloc: Global,
    map: &Name,
    from: &NormKey,
    past: bool,
) -> Result<Vec<u8>, Refused>
    ensures { IfOk result (λ bytes. bytes.items ≡ rows_from map.now from.now past) }
{
    let mut bytes = order_bytes(alloc, &CellKey::Piece(*map, *from))?;
    if past {
        bytes.push(255)?;
    }
    Ok(bytes)
}

/// The key of the first of the cells, if it is a row of the map.
pub(crate) fn first_key(map: &Name, cells: &[Cell]) -> Option<NormKey>
    ensures { result ≡ first_key map.now cells.now }
{
    match cells.first() {
        Some(Cell::Row(row, _)) if map.cmp(&row.map).is_eq() => Some(row.key),
        _ => None,
    }
}
