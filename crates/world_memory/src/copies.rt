//! Copies of cells and changes, and the key of a cell.
ghost use Rattle.std.specs.Prelude.{◌≡◌, IfOk};
ghost use Rattle.cell_world.specs.Stores.{own_key};

use crate::contents::Made;
use cell_world::cells::{Cell, CellKey};
use cell_world::changes::{Change, Edit};
use cell_world::items::Items;
use cell_world::memory::Memory;
use std::alloc::Global;

/// The key under which a cell stands.
pub fn key_of(cell: &Cell) -> CellKey
    ensures { result ≡ own_key cell.now }
{
    match cell {
        Cell::Map(name, _, _) => CellKey::Map(*name),
        Cell::Shard(name, location) => CellKey::Shard(*name, *location),
        Cell::Table(name, table) => CellKey::Table(*name, *table),
        Cell::Piece(piece) => CellKey::Piece(piece.map, *piece.span.low()),
        Cell::Log(op) => CellKey::Log(op.number),
        Cell::Job(job) => CellKey::Job(job.number),
        Cell::Counter(_) => CellKey::Counter,
        Cell::SiteState(location, _) => CellKey::SiteState(*location),
        Cell::Local(row) => CellKey::Local(row.map, *row.span.low(), row.number),
        Cell::Row(row, _) => CellKey::Row(*row),
    }
}

/// The same cell once more.
pub fn cell_copied(cell: &Cell, alloc: Global) -> Result<Cell, Memory>
    ensures { IfOk result (λ copy. copy ≡ cell.now) }
{
    Ok(match cell {
        Cell::Map(name, kind, key_type) => Cell::Map(*name, *kind, *key_type),
        Cell::Shard(name, location) => Cell::Shard(*name, *location),
        Cell::Table(name, table) => Cell::Table(*name, *table),
        Cell::Piece(piece) => Cell::Piece(*piece),
        Cell::Log(op) => Cell::Log(*op),
        Cell::Job(job) => Cell::Job(*job),
        Cell::Counter(counters) => Cell::Counter(*counters),
        Cell::SiteState(location, away) => Cell::SiteState(*location, *away),
        Cell::Local(row) => Cell::Local(*row),
        Cell::Row(row, bytes) => Cell::Row(*row, bytes.copied(alloc)?),
    })
}

/// The same puts and deletes once more.
pub fn change_copied(change: &Change, alloc: Global) -> Result<Change, Memory>
    ensures { IfOk result (λ copy. copy ≡ change.now) }
{
    change.known();
    let edits = change.as_slice();
    let mut copy = Change::empty(alloc);
    for edit in edits {
        match edit {
            Edit::Put(cell) => copy.put(cell_copied(cell, alloc)?)?,
            Edit::Delete(key) => copy.delete(*key)?,
        }
    }
    Ok(copy)
}

/// The same entries once more.
pub fn happened_copied(happened: &[Made], alloc: Global) -> Result<Vec<Made>, Memory>
    ensures { IfOk result (λ copy. copy.items ≡ happened.now) }
{
    let mut copy: Vec<Made> = Vec::new(alloc);
    for entry in happened {
        let pushed = match entry {
            Made::Committed(site, change) => {
                let change = change_copied(change, alloc)?;
                copy.push(Made::Committed(*site, change)).is_ok()
            }
            Made::Tried(site, change) => {
                let change = change_copied(change, alloc)?;
                copy.push(Made::Tried(*site, change)).is_ok()
            }
            Made::Wrote(bytes) => {
                let bytes = bytes_copied(bytes.as_slice(), alloc)?;
                copy.push(Made::Wrote(bytes)).is_ok()
            }
            Made::Reopened(site) => copy.push(Made::Reopened(*site)).is_ok(),
        };
        if !pushed {
            return Err(Memory);
        }
    }
    Ok(copy)
}

/// The same bytes once more.
pub fn bytes_copied(bytes: &[u8], alloc: Global) -> Result<Items<u8>, Memory>
    ensures { IfOk result (λ copy. copy ≡ bytes.now) }
{
    Ok(Items::from_vec(Vec::from_slice(alloc, bytes)?))
}
