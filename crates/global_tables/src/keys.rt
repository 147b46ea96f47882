//! Keys of cells.
ghost use Rattle.std.specs.Prelude.{◌≡◌, option_map};
ghost use Rattle.cell_world.specs.Orders.{kind_number, map_of};
ghost use Rattle.cell_world.specs.Stores.{own_key};

use cell_world::cells::{Cell, CellKey};
use cell_world::names::Name;

/// The key under which a cell stands. Takes no memory.
pub fn key_of(cell: &Cell) -> CellKey
    ensures { result ≡ own_key cell.now }
{
    match cell {
        Cell::Map(name, _, _) => CellKey::Map(*name),
        Cell::Shard(name, location) => CellKey::Shard(*name, *location),
        Cell::Table(name, table) => CellKey::Table(*name, *table),
        Cell::Piece(piece) => CellKey::Piece(piece.map, *piece.span.low()),
        Cell::Log(op) => CellKey::Log(op.number),
        Cell::Job(job) => CellKey::Job(job.number),
        Cell::Counter(_) => CellKey::Counter,
        Cell::SiteState(location, _) => CellKey::SiteState(*location),
        Cell::Local(row) => CellKey::Local(row.map, *row.span.low(), row.number),
        Cell::Row(row, _) => CellKey::Row(*row),
    }
}

/// The place of its kind in cell order, from 1 to 10.
pub fn kind_number(key: &CellKey) -> u8
    ensures { result ≡ kind_number key.now }
{
    match key {
        CellKey::Map(_) => 1,
        CellKey::Shard(_, _) => 2,
        CellKey::Table(_, _) => 3,
        CellKey::Piece(_, _) => 4,
        CellKey::Log(_) => 5,
        CellKey::Job(_) => 6,
        CellKey::Counter => 7,
        CellKey::SiteState(_) => 8,
        CellKey::Local(_, _, _) => 9,
        CellKey::Row(_) => 10,
    }
}

/// The map of a cell of which the key has further fields beside the map's name.
pub fn map_of(key: &CellKey) -> Option<Name>
    ensures { result ≡ map_of key.now }
{
    match key {
        CellKey::Shard(name, _) => Some(*name),
        CellKey::Table(name, _) => Some(*name),
        CellKey::Piece(name, _) => Some(*name),
        CellKey::Local(name, _, _) => Some(*name),
        CellKey::Row(row) => Some(row.map),
        CellKey::Map(_) => None,
        CellKey::Log(_) => None,
        CellKey::Job(_) => None,
        CellKey::Counter => None,
        CellKey::SiteState(_) => None,
    }
}
