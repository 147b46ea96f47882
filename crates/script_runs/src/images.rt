//! The rows at the sites of a world, and of the worlds that crashes of a run leave.
use cell_world::cells::{Cell, CellKey, LocalRow, Status};
use cell_world::locations::Location;
use cell_world::names::Name;
use cell_world::norm_keys::NormKey;
use cell_world::outside::World;
use std::alloc::Global;
use std::test::Fail;
use world_memory::world::MemoryWorld;

/// The location that is spelled so.
pub fn location(text: &[u8]) -> Result<Location, Fail> {
    Ok(Location::read(text).ok_or("a location")?)
}

/// The key of the first cell of any map that a local row can have.
fn least() -> Result<CellKey, Fail> {
    let key = NormKey::of_bytes(b"").ok_or("a key")?;
    Ok(CellKey::Local(Name::least(), key, 0))
}

/// The local rows at a location.
pub fn rows_at(alloc: Global, world: &mut MemoryWorld, at: &Location) -> Result<Vec<Cell>, Fail> {
    let from = least()?;
    match world.locate(at) {
        None => Err(Fail::from("no such location")),
        Some(site) => Ok(world.scan(alloc, site, &from, 1000)?),
    }
}

/// How many local rows there are at the location that is spelled so.
pub fn rows_in(alloc: Global, world: &mut MemoryWorld, at: &[u8]) -> Result<usize, Fail> {
    let rows = rows_at(alloc, world, &location(at)?)?;
    Ok(rows.len())
}

/// Whether both rows are online over one key of a map.
fn meet_online(one: &LocalRow, other: &LocalRow) -> bool {
    one.status == Status::Online
        && other.status == Status::Online
        && one.map.cmp(&other.map).is_eq()
        && one.span.overlaps(&other.span)
}

/// Whether no row of the one site and row of the other are online over one key, whether they count or not.
fn are_apart(ours: &[Cell], theirs: &[Cell]) -> bool {
    ours.iter().all(|one| {
        theirs.iter().all(|other| match (one, other) {
            (Cell::Local(one), Cell::Local(other)) => !meet_online(one, other),
            _ => false,
        })
    })
}

/// Whether no key is online at two sites.
fn is_online_once(alloc: Global, world: &mut MemoryWorld) -> Result<bool, Fail> {
    let first = rows_at(alloc, world, &location(b"s/a")?)?;
    let second = rows_at(alloc, world, &location(b"s/b")?)?;
    let third = rows_at(alloc, world, &location(b"s/c")?)?;
    Ok(are_apart(&first, &second) && are_apart(&first, &third) && are_apart(&second, &third))
}

/// The world that a crash at the moment leaves.
pub fn crashed(alloc: Global, world: &MemoryWorld, moment: u64) -> Result<MemoryWorld, Fail> {
    if moment > world.moment() {
        return Err(Fail::from("no moment"));
    }
    Ok(world.crashed(alloc, moment)?)
}

/// The first moment of a run at which a key is online at two sites, if there is one.
pub fn first_online_twice(alloc: Global, world: &MemoryWorld) -> Result<Option<u64>, Fail> {
    for moment in 0..=world.moment() {
        let mut image = crashed(alloc, world, moment)?;
        if !is_online_once(alloc, &mut image)? {
            return Ok(Some(moment));
        }
    }
    Ok(None)
}
