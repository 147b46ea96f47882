//! Stores whose cells name locations, and the first that the world doesn't know.
ghost use Rattle.std.specs.Prelude.{◌≡◌, IsTrue};
ghost use Rattle.cell_world.specs.Spelled.{is_spelled};
ghost use Rattle.cell_world.specs.declared.cells.Cell.TheVariants as cell;

use cell_world::cells::{Away, Cell, KeyType, MapKind, Site, Status};
use cell_world::changes::Change;
use cell_world::locations::Location;
use cell_world::names::Name;
use cell_world::norm_keys::NormKey;
use cell_world::operations::{Extra, JobRow, Op, Phase, Piece, Pieces};
use cell_world::outside::World;
use cell_world::spans::{High, Span};
use site_names::unknown::first_unknown;
use std::alloc::Global;
use std::test::Fail;
use world_memory::world::MemoryWorld;

pub(crate) fn name(bytes: &[u8]) -> Result<Name, Fail> {
    Ok(Name::read(bytes).ok_or("a name")?)
}

pub(crate) fn place(bytes: &[u8]) -> Result<Location, Fail> {
    Ok(Location::read(bytes).ok_or("a location")?)
}

/// The one location that the worlds here know.
pub(crate) fn here() -> Result<Location, Fail> {
    place(b"s/m")
}

/// A mapping of the least key, at this location.
fn piece(map: Name, low: NormKey, location: Location) -> Piece
    ensures { result.map ≡ map }
{
    Piece {
        map,
        span: Span::Point(low),
        location,
        status: Status::Online,
        token: None,
    }
}

/// A job of this number between these locations.
fn job(number: u32, map: Name, low: NormKey, source: Location, target: Location) -> JobRow {
    JobRow {
        number,
        map,
        low,
        high: High::Max,
        source,
        target,
        batch: 1,
        cursor: High::At(low),
        phase: Phase::Idle,
    }
}

/// An operation with two old mappings, two new ones and a job that it puts, at these locations in this order.
fn operation(number: u64, map: Name, low: NormKey, at: &[Location; 6]) -> Op
    ensures { IsTrue (is_spelled (cell.Log result)) }
{
    Op {
        number,
        map,
        hull: Span::Point(low),
        olds: Pieces {
            one: Some(piece(map, low, at[0])),
            two: Some(piece(map, low, at[1])),
        },
        news: Pieces {
            one: Some(piece(map, low, at[2])),
            two: Some(piece(map, low, at[3])),
        },
        extra: Extra::JobPut(job(1, map, low, at[4], at[5])),
    }
}

/// Puts an operation with these locations.
pub(crate) fn put_operation(
    change: &mut Change,
    number: u64,
    at: &[Location; 6],
) -> Result<(), Fail> {
    let map = name(b"a")?;
    let low = NormKey::of_bytes(b"").ok_or("a key")?;
    change.put(Cell::Log(operation(number, map, low, at)))?;
    Ok(())
}

/// Puts a job between these locations.
pub(crate) fn put_job(change: &mut Change, source: Location, target: Location) -> Result<(), Fail> {
    let map = name(b"a")?;
    let low = NormKey::of_bytes(b"").ok_or("a key")?;
    change.put(Cell::Job(job(1, map, low, source, target)))?;
    Ok(())
}

/// Puts a mapping at this location.
pub(crate) fn put_piece(change: &mut Change, location: Location) -> Result<(), Fail> {
    let map = name(b"a")?;
    let low = NormKey::of_bytes(b"").ok_or("a key")?;
    change.put(Cell::Piece(piece(map, low, location)))?;
    Ok(())
}

/// Puts a shard of a map at this location.
pub(crate) fn put_shard(change: &mut Change, map: &[u8], location: Location) -> Result<(), Fail> {
    let map = name(map)?;
    change.put(Cell::Shard(map, location))?;
    Ok(())
}

/// Puts a cell of a kind that names locations, at this one: the kinds are counted from 0 in cell order.
pub(crate) fn put_kind(change: &mut Change, kind: usize, location: Location) -> Result<(), Fail> {
    match kind {
        0 => put_shard(change, b"a", location),
        1 => put_piece(change, location),
        2 => put_operation(change, 1, &[location; 6]),
        3 => put_job(change, location, location),
        _ => {
            change.put(Cell::SiteState(location, Away::Suspect))?;
            Ok(())
        }
    }
}

/// Puts cells that name no location.
pub(crate) fn put_others(change: &mut Change) -> Result<(), Fail> {
    let map = name(b"a")?;
    change.put(Cell::Map(map, MapKind::List, KeyType::Bytes))?;
    change.put(Cell::Table(map, map))?;
    Ok(())
}

/// The first unknown location of a world of one location, after this change.
pub(crate) fn first_of(alloc: Global, change: &Change) -> Result<Option<Location>, Fail> {
    let at = here()?;
    let mut world = MemoryWorld::new(alloc, &[at])?;
    world.commit(alloc, Site::GLOBAL, change)?;
    Ok(first_unknown(alloc, &mut world)?)
}

/// Whether it is this one.
pub(crate) fn is_first(alloc: Global, change: &Change, at: &[u8]) -> Result<bool, Fail> {
    let expected = place(at)?;
    match first_of(alloc, change)? {
        None => Ok(false),
        Some(found) => Ok(found == expected),
    }
}
