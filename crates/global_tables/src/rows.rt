//! What a cell of one kind says.
ghost use Rattle.std.specs.Prelude.{◌≡◌, option_map, IfOk, Err};
ghost use Rattle.std.specs.Option.{MatchOption};
ghost use Rattle.cell_world.specs.Stores.{own_key};
ghost use Rattle.cell_world.specs.declared.cells.Cell.{Cell};
ghost use Rattle.cell_world.specs.declared.cells.Cell.TheVariants as cell;

use crate::faults::StepFault;
use cell_world::cells::{Away, Cell, CellKey, Counters, KeyType, LocalRow, MapKind};
use cell_world::locations::Location;
use cell_world::names::Name;
use cell_world::operations::{JobRow, Op, Piece};

/// What the cells of one kind say.
pub trait Row: Copy + Drop {
    /// Its cell.
    ghost cell_of: { Self → Cell };

    /// What the cell says. `None` exactly for a cell of another kind. Takes no memory.
    fn read(found: &Cell) -> Option<Self>
        ensures { MatchOption result ((row : Self) → found.now ≡ cell_of row → ⊥) (λ row. found.now ≡ cell_of row) };

    /// The key under which its cell stands. Takes no memory.
    fn key(&self) -> CellKey
        ensures { result ≡ own_key (cell_of self.now) };
}

/// A map: its name, its kind and the type of its keys.
#[derive(Clone, Copy, PartialEq, Eq)]
pub struct MapRow {
    pub name: Name,
    pub kind: MapKind,
    pub key_type: KeyType,
}

/// A shard of a map.
#[derive(Clone, Copy, PartialEq, Eq)]
pub struct ShardRow {
    pub map: Name,
    pub location: Location,
}

/// A table of a map.
#[derive(Clone, Copy, PartialEq, Eq)]
pub struct TableRow {
    pub map: Name,
    pub table: Name,
}

/// A site that isn't attached.
#[derive(Clone, Copy, PartialEq, Eq)]
pub struct AwayRow {
    pub location: Location,
    pub state: Away,
}

impl Row for MapRow {
    ghost cell_of = { λ row. cell.Map row.name row.kind row.key_type };

    fn read(found: &Cell) -> Option<MapRow> {
        match found {
            Cell::Map(name, kind, key_type) => Some(MapRow {
                name: *name,
                kind: *kind,
                key_type: *key_type,
            }),
            _ => None,
        }
    }

    fn key(&self) -> CellKey {
        CellKey::Map(self.name)
    }
}

impl Row for ShardRow {
    ghost cell_of = { λ row. cell.Shard row.map row.location };

    fn read(found: &Cell) -> Option<ShardRow> {
        match found {
            Cell::Shard(map, location) => Some(ShardRow {
                map: *map,
                location: *location,
            }),
            _ => None,
        }
    }

    fn key(&self) -> CellKey {
        CellKey::Shard(self.map, self.location)
    }
}

impl Row for TableRow {
    ghost cell_of = { λ row. cell.Table row.map row.table };

    fn read(found: &Cell) -> Option<TableRow> {
        match found {
            Cell::Table(map, table) => Some(TableRow {
                map: *map,
                table: *table,
            }),
            _ => None,
        }
    }

    fn key(&self) -> CellKey {
        CellKey::Table(self.map, self.table)
    }
}

impl Row for AwayRow {
    ghost cell_of = { λ row. cell.SiteState row.location row.state };

    fn read(found: &Cell) -> Option<AwayRow> {
        match found {
            Cell::SiteState(location, state) => Some(AwayRow {
                location: *location,
                state: *state,
            }),
            _ => None,
        }
    }

    fn key(&self) -> CellKey {
        CellKey::SiteState(self.location)
    }
}

impl Row for Piece {
    ghost cell_of = { cell.Piece };

    fn read(found: &Cell) -> Option<Piece> {
        match found {
            Cell::Piece(row) => Some(*row),
            _ => None,
        }
    }

    fn key(&self) -> CellKey {
        CellKey::Piece(self.map, *self.span.low())
    }
}

impl Row for Op {
    ghost cell_of = { cell.Log };

    fn read(found: &Cell) -> Option<Op> {
        match found {
            Cell::Log(row) => Some(*row),
            _ => None,
        }
    }

    fn key(&self) -> CellKey {
        CellKey::Log(self.number)
    }
}

impl Row for JobRow {
    ghost cell_of = { cell.Job };

    fn read(found: &Cell) -> Option<JobRow> {
        match found {
            Cell::Job(row) => Some(*row),
            _ => None,
        }
    }

    fn key(&self) -> CellKey {
        CellKey::Job(self.number)
    }
}

impl Row for Counters {
    ghost cell_of = { cell.Counter };

    fn read(found: &Cell) -> Option<Counters> {
        match found {
            Cell::Counter(row) => Some(*row),
            _ => None,
        }
    }

    fn key(&self) -> CellKey {
        CellKey::Counter
    }
}

impl Row for LocalRow {
    ghost cell_of = { cell.Local };

    fn read(found: &Cell) -> Option<LocalRow> {
        match found {
            Cell::Local(row) => Some(*row),
            _ => None,
        }
    }

    fn key(&self) -> CellKey {
        CellKey::Local(self.map, *self.span.low(), self.number)
    }
}

/// What a cell that was looked for says. A cell of another kind is answered as want of memory. Takes no memory.
pub fn row_in<T: Row>(found: &Option<Cell>) -> Result<Option<T>, StepFault>
    ensures told { IfOk result (λ row. found.now ≡ option_map T.cell_of row) }
    ensures memory { result ≡ Err StepFault.Store → ⊥ }
{
    match found {
        None => Ok(None),
        Some(cell) => match T::read(cell) {
            Some(row) => Ok(Some(row)),
            None => Err(StepFault::Memory),
        },
    }
}
