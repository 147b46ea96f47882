//! Look-ups in a copy of the tables, and the copy after a change.
use crate::globals::{empty_world, here, key, name};
use cell_world::cells::{Away, Cell, CellKey, KeyType, MapKind, Site, SiteState};
use cell_world::changes::Change;
use cell_world::locations::Location;
use cell_world::operations::{JobRow, Phase};
use cell_world::outside::World;
use cell_world::spans::High;
use global_tables::known::KnownTables;
use std::alloc::Global;
use std::test::Fail;
use world_memory::world::MemoryWorld;

fn there() -> Result<Location, Fail> {
    Ok(Location::read(b"s/b").ok_or("a location")?)
}

/// Three maps whose names are prefixes of one another.
fn put_maps(change: &mut Change) -> Result<(), Fail> {
    change.put(Cell::Map(name(b"a")?, MapKind::List, KeyType::Guid))?;
    put_ranges(change)
}

fn put_ranges(change: &mut Change) -> Result<(), Fail> {
    change.put(Cell::Map(name(b"ab")?, MapKind::Range, KeyType::Int))?;
    change.put(Cell::Map(name(b"abc")?, MapKind::Range, KeyType::Bytes))?;
    Ok(())
}

/// A shard of the second map, and a table of the first and of the third.
fn put_members(change: &mut Change) -> Result<(), Fail> {
    change.put(Cell::Shard(name(b"ab")?, here()?))?;
    put_table(change, b"a", b"x")?;
    put_table(change, b"abc", b"x")
}

fn put_table(change: &mut Change, map: &[u8], table: &[u8]) -> Result<(), Fail> {
    change.put(Cell::Table(name(map)?, name(table)?))?;
    Ok(())
}

/// A job of this number, of the second map.
fn put_job(change: &mut Change, number: u32, batch: u32) -> Result<(), Fail> {
    let low = key(b"")?;
    change.put(Cell::Job(JobRow {
        number,
        map: name(b"ab")?,
        low,
        high: High::Max,
        source: here()?,
        target: there()?,
        batch,
        cursor: High::At(low),
        phase: Phase::Idle,
    }))?;
    Ok(())
}

/// The jobs 2 and 4, and the first location detached.
fn put_rest(change: &mut Change) -> Result<(), Fail> {
    put_job(change, 2, 10)?;
    put_job(change, 4, 10)?;
    change.put(Cell::SiteState(here()?, Away::Detached))?;
    Ok(())
}

/// A store with all of them.
fn full_world(alloc: Global) -> Result<MemoryWorld, Fail> {
    let mut world = empty_world(alloc)?;
    let mut change = Change::empty(alloc);
    put_maps(&mut change)?;
    put_members(&mut change)?;
    put_rest(&mut change)?;
    world.commit(alloc, Site::GLOBAL, &change)?;
    Ok(world)
}

/// What is known of it.
fn known(alloc: Global) -> Result<KnownTables, Fail> {
    let mut world = full_world(alloc)?;
    Ok(KnownTables::read(alloc, &mut world)?)
}

/// Whether a map of this name is known, of this kind and key type.
fn is_map(known: &KnownTables, map: &[u8], kind: MapKind, key_type: KeyType) -> Result<bool, Fail> {
    match known.map(&name(map)?) {
        None => Ok(false),
        Some(found) => Ok(found.0 == kind && found.1 == key_type),
    }
}

/// Whether no map of this name is known.
fn is_no_map(known: &KnownTables, map: &[u8]) -> Result<bool, Fail> {
    Ok(known.map(&name(map)?).is_none())
}

fn is_shard(known: &KnownTables, map: &[u8], location: &Location) -> Result<bool, Fail> {
    Ok(known.is_shard(&name(map)?, location))
}

fn is_table(known: &KnownTables, map: &[u8], table: &[u8]) -> Result<bool, Fail> {
    Ok(known.is_table(&name(map)?, &name(table)?))
}

/// The batch of the job; 0 where none stands.
fn batch_of(known: &KnownTables, number: u32) -> u32 {
    match known.job(number) {
        None => 0,
        Some(job) => job.batch,
    }
}

#[test]
fn maps_by_name(rt: HostRuntime) -> Result<(), Fail> {
    let known = known(rt.alloc())?;
    assert!(rt; known.map_count() == 3);
    assert!(rt; is_map(&known, b"a", MapKind::List, KeyType::Guid)?);
    assert!(rt; is_map(&known, b"ab", MapKind::Range, KeyType::Int)?);
    assert!(rt; is_map(&known, b"abc", MapKind::Range, KeyType::Bytes)?);
    Ok(())
}

#[test]
fn maps_that_are_absent(rt: HostRuntime) -> Result<(), Fail> {
    let known = known(rt.alloc())?;
    assert!(rt; is_no_map(&known, b"A")?);
    assert!(rt; is_no_map(&known, b"aa")?);
    assert!(rt; is_no_map(&known, b"abcd")?);
    Ok(())
}

#[test]
fn shards_by_name(rt: HostRuntime) -> Result<(), Fail> {
    let known = known(rt.alloc())?;
    let at = here()?;
    assert!(rt; is_shard(&known, b"ab", &at)?);
    assert!(rt; !is_shard(&known, b"a", &at)?);
    assert!(rt; !is_shard(&known, b"abc", &at)?);
    Ok(())
}

#[test]
fn locations_that_are_no_shards(rt: HostRuntime) -> Result<(), Fail> {
    let known = known(rt.alloc())?;
    let other = there()?;
    assert!(rt; !is_shard(&known, b"ab", &other)?);
    Ok(())
}

#[test]
fn maps_with_shards(rt: HostRuntime) -> Result<(), Fail> {
    let known = known(rt.alloc())?;
    assert!(rt; !known.has_shard(&name(b"a")?));
    assert!(rt; known.has_shard(&name(b"ab")?));
    assert!(rt; !known.has_shard(&name(b"abc")?));
    Ok(())
}

#[test]
fn tables_by_name(rt: HostRuntime) -> Result<(), Fail> {
    let known = known(rt.alloc())?;
    assert!(rt; is_table(&known, b"a", b"x")?);
    assert!(rt; !is_table(&known, b"ab", b"x")?);
    assert!(rt; is_table(&known, b"abc", b"x")?);
    Ok(())
}

#[test]
fn tables_are_counted_in_the_copy(rt: HostRuntime) -> Result<(), Fail> {
    let known = known(rt.alloc())?;
    assert!(rt; known.table_count(&name(b"a")?) == 1);
    assert!(rt; known.table_count(&name(b"ab")?) == 0);
    Ok(())
}

#[test]
fn sites_by_location(rt: HostRuntime) -> Result<(), Fail> {
    let known = known(rt.alloc())?;
    assert!(rt; known.site_state(&here()?) == SiteState::Detached);
    assert!(rt; known.site_state(&there()?) == SiteState::Attached);
    Ok(())
}

#[test]
fn jobs_by_number(rt: HostRuntime) -> Result<(), Fail> {
    let known = known(rt.alloc())?;
    let batches: [u32; 5] = [0, 10, 0, 10, 0];
    for (n, batch) in batches.iter().enumerate() {
        assert!(rt; batch_of(&known, n as u32 + 1) == *batch);
    }
    assert!(rt; known.job_count() == 2);
    Ok(())
}

/// The copy after a change that puts a map between others, and deletes the last one.
fn with_other_maps(alloc: Global) -> Result<KnownTables, Fail> {
    let mut change = Change::empty(alloc);
    change.put(Cell::Map(name(b"aa")?, MapKind::List, KeyType::Long))?;
    change.delete(CellKey::Map(name(b"abc")?))?;
    changed(alloc, &change)
}

/// The copy after a change.
fn changed(alloc: Global, change: &Change) -> Result<KnownTables, Fail> {
    let old = known(alloc)?;
    Ok(old.changed(alloc, change)?)
}

#[test]
fn a_copy_with_other_maps(rt: HostRuntime) -> Result<(), Fail> {
    let next = with_other_maps(rt.alloc())?;
    assert!(rt; next.map_count() == 3);
    assert!(rt; is_map(&next, b"aa", MapKind::List, KeyType::Long)?);
    assert!(rt; is_map(&next, b"ab", MapKind::Range, KeyType::Int)?);
    assert!(rt; is_no_map(&next, b"abc")?);
    Ok(())
}

/// The copy after a change that puts a job over another and one before it, deletes one, and attaches the first location.
fn with_other_jobs(alloc: Global) -> Result<KnownTables, Fail> {
    let mut change = Change::empty(alloc);
    put_job(&mut change, 2, 20)?;
    put_job(&mut change, 1, 30)?;
    change.delete(CellKey::Job(4))?;
    change.delete(CellKey::SiteState(here()?))?;
    changed(alloc, &change)
}

#[test]
fn a_copy_with_other_jobs(rt: HostRuntime) -> Result<(), Fail> {
    let next = with_other_jobs(rt.alloc())?;
    let batches: [u32; 4] = [30, 20, 0, 0];
    for (n, batch) in batches.iter().enumerate() {
        assert!(rt; batch_of(&next, n as u32 + 1) == *batch);
    }
    assert!(rt; next.job_count() == 2);
    assert!(rt; next.site_state(&here()?) == SiteState::Attached);
    Ok(())
}
