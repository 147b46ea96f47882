//! The calls that take memory, each with enough of it.
use cell_world::cells::{Cell, CellKey, RowName, Site};
use cell_world::changes::Change;
use cell_world::items::RowBytes;
use cell_world::locations::Location;
use cell_world::names::Name;
use cell_world::norm_keys::NormKey;
use cell_world::outside::{Source, World};
use std::alloc::Global;
use std::test::Fail;
use world_memory::source::MemorySource;
use world_memory::world::MemoryWorld;

fn name(bytes: &[u8]) -> Result<Name, Fail> {
    Ok(Name::read(bytes).ok_or("a name")?)
}

fn key(bytes: &[u8]) -> Result<NormKey, Fail> {
    Ok(NormKey::of_bytes(bytes).ok_or("a key")?)
}

fn is_table(found: &Option<Cell>, name: &Name) -> bool {
    match found {
        Some(Cell::Table(_, table)) => table == name,
        _ => false,
    }
}

/// Two tables of a map.
pub fn tables(alloc: Global) -> Result<Change, Fail> {
    let map = name(b"orders")?;
    let mut change = Change::empty(alloc);
    change.put(Cell::Table(map, name(b"notes")?))?;
    change.put(Cell::Table(map, name(b"lines")?))?;
    Ok(change)
}

/// A world of one location, without cells.
pub fn empty_world(alloc: Global) -> Result<MemoryWorld, Fail> {
    let at = Location::read(b"s/a").ok_or("a location")?;
    Ok(MemoryWorld::new(alloc, &[at])?)
}

#[test]
fn what_is_committed_is_read(rt: HostRuntime) -> Result<(), Fail> {
    let mut world = empty_world(rt.alloc())?;
    let lines = name(b"lines")?;
    let at = CellKey::Table(name(b"orders")?, lines);
    let before = world.read(rt.alloc(), Site::GLOBAL, &at)?;
    assert!(rt; before.is_none());
    let change = tables(rt.alloc())?;
    world.commit(rt.alloc(), Site::GLOBAL, &change)?;
    let found = world.read(rt.alloc(), Site::GLOBAL, &at)?;
    assert!(rt; is_table(&found, &lines));
    Ok(())
}

#[test]
fn cells_are_found_by_their_order(rt: HostRuntime) -> Result<(), Fail> {
    let mut world = empty_world(rt.alloc())?;
    let change = tables(rt.alloc())?;
    world.commit(rt.alloc(), Site::GLOBAL, &change)?;
    let map = name(b"orders")?;
    let found = world.floor(rt.alloc(), Site::GLOBAL, &CellKey::Table(map, name(b"m")?))?;
    assert!(rt; is_table(&found, &name(b"lines")?));
    Ok(())
}

#[test]
fn a_scan_stops_at_its_limit(rt: HostRuntime) -> Result<(), Fail> {
    let mut world = empty_world(rt.alloc())?;
    let change = tables(rt.alloc())?;
    world.commit(rt.alloc(), Site::GLOBAL, &change)?;
    let from = CellKey::Table(name(b"a")?, name(b"a")?);
    let one = world.scan(rt.alloc(), Site::GLOBAL, &from, 1)?;
    assert!(rt; one.len() == 1);
    let all = world.scan(rt.alloc(), Site::GLOBAL, &from, 9)?;
    assert!(rt; all.len() == 2);
    Ok(())
}

/// Two rows of one key, and one of a greater key.
fn rows(alloc: Global) -> Result<Change, Fail> {
    let map = name(b"orders")?;
    let table = name(b"zz")?;
    let mut change = Change::empty(alloc);
    for (byte, number) in [(1u8, u64::MAX), (1, 0), (5, 7)] {
        let row = RowName {
            map,
            key: key(&[byte])?,
            table,
            number,
        };
        let bytes = RowBytes::from_vec(Vec::new(alloc)).ok_or("a row")?;
        change.put(Cell::Row(row, bytes))?;
    }
    Ok(change)
}

#[test]
fn the_next_key_is_past_all_rows_of_a_key(rt: HostRuntime) -> Result<(), Fail> {
    let mut world = empty_world(rt.alloc())?;
    let change = rows(rt.alloc())?;
    world.commit(rt.alloc(), Site::GLOBAL, &change)?;
    let map = name(b"orders")?;
    let one = key(&[1])?;
    let at = world.next_key(rt.alloc(), Site::GLOBAL, &map, &one, false)?;
    assert!(rt; at == Some(one));
    let past = world.next_key(rt.alloc(), Site::GLOBAL, &map, &one, true)?;
    assert!(rt; past == Some(key(&[5])?));
    Ok(())
}

#[test]
fn what_is_written_is_the_output(rt: HostRuntime) -> Result<(), Fail> {
    let mut world = empty_world(rt.alloc())?;
    world.write(rt.alloc(), b"ab")?;
    world.reopen(rt.alloc(), Site::GLOBAL)?;
    world.write(rt.alloc(), b"cd")?;
    let bytes = world.output(rt.alloc())?;
    assert!(rt; bytes.as_slice() == b"abcd".as_slice());
    assert!(rt; world.moment() == 3);
    Ok(())
}

#[test]
fn a_crash_leaves_what_stood_then(rt: HostRuntime) -> Result<(), Fail> {
    let mut world = empty_world(rt.alloc())?;
    let change = tables(rt.alloc())?;
    world.commit(rt.alloc(), Site::GLOBAL, &change)?;
    let before = tables_in(rt.alloc(), &world, 0)?;
    assert!(rt; before == 0);
    let after = tables_in(rt.alloc(), &world, 1)?;
    assert!(rt; after == 2);
    Ok(())
}

/// How many tables stand after a crash at the moment.
fn tables_in(alloc: Global, world: &MemoryWorld, moment: u64) -> Result<usize, Fail> {
    if moment > world.moment() {
        return Ok(0);
    }
    let mut crashed = world.crashed(alloc, moment)?;
    let from = CellKey::Table(name(b"a")?, name(b"a")?);
    let found = crashed.scan(alloc, Site::GLOBAL, &from, 9)?;
    Ok(found.len())
}

#[test]
fn input_is_taken_in_parts(rt: HostRuntime) -> Result<(), Fail> {
    let mut source = MemorySource::new(Vec::from_slice(rt.alloc(), b"abc")?);
    let mut buffer = [0u8; 2];
    assert!(rt; source.take(rt.alloc(), &mut buffer)? == 2);
    assert!(rt; buffer == *b"ab");
    assert!(rt; source.take(rt.alloc(), &mut buffer)? == 1);
    assert!(rt; buffer[0] == b'c');
    assert!(rt; source.take(rt.alloc(), &mut buffer)? == 0);
    Ok(())
}
