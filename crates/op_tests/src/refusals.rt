//! The refusals of each command, in the order of the command table.
use crate::stores::{here, key, name, place, put, refusal, store, store_away};
use cell_world::cells::{Away, Cell, KeyType, MapKind};
use cell_world::key_texts::KeyText;
use cell_world::operations::{JobRow, Phase};
use cell_world::spans::High;
use plain_model::commands::Command;
use plain_model::replies::Refusal;
use std::alloc::Global;
use std::test::Fail;
use world_memory::world::MemoryWorld;

fn of_map(alloc: Global, world: &mut MemoryWorld, map: &[u8]) -> Result<Option<Refusal>, Fail> {
    refusal(
        alloc,
        world,
        &Command::Map(name(map)?, MapKind::Range, KeyType::Guid),
    )
}

fn of_unmap(alloc: Global, world: &mut MemoryWorld, map: &[u8]) -> Result<Option<Refusal>, Fail> {
    refusal(alloc, world, &Command::Unmap(name(map)?))
}

fn of_shard(
    alloc: Global,
    world: &mut MemoryWorld,
    map: &[u8],
    at: &[u8],
) -> Result<Option<Refusal>, Fail> {
    refusal(alloc, world, &Command::Shard(name(map)?, place(at)?))
}

fn of_unshard(
    alloc: Global,
    world: &mut MemoryWorld,
    map: &[u8],
    at: &[u8],
) -> Result<Option<Refusal>, Fail> {
    refusal(alloc, world, &Command::Unshard(name(map)?, place(at)?))
}

fn of_table(
    alloc: Global,
    world: &mut MemoryWorld,
    map: &[u8],
    table: &[u8],
) -> Result<Option<Refusal>, Fail> {
    refusal(alloc, world, &Command::Table(name(map)?, name(table)?))
}

fn of_find(
    alloc: Global,
    world: &mut MemoryWorld,
    map: &[u8],
    text: &[u8],
) -> Result<Option<Refusal>, Fail> {
    let text = KeyText::read(text).ok_or("a key word")?;
    refusal(alloc, world, &Command::Find(name(map)?, text))
}

fn of_list(alloc: Global, world: &mut MemoryWorld, map: &[u8]) -> Result<Option<Refusal>, Fail> {
    refusal(alloc, world, &Command::List(name(map)?))
}

fn of_shards(alloc: Global, world: &mut MemoryWorld, map: &[u8]) -> Result<Option<Refusal>, Fail> {
    refusal(alloc, world, &Command::Shards(name(map)?))
}

/// A job of a map from a location that nobody knows to the one that is known.
fn job_of(map: &[u8]) -> Result<JobRow, Fail> {
    let low = key(0)?;
    Ok(JobRow {
        number: 1,
        map: name(map)?,
        low,
        high: High::Max,
        source: place(b"s/z")?,
        target: here()?,
        batch: 10,
        cursor: High::At(low),
        phase: Phase::Idle,
    })
}

#[test]
fn maps_that_stand(rt: HostRuntime) -> Result<(), Fail> {
    let mut world = store(rt.alloc())?;
    assert!(rt; of_map(rt.alloc(), &mut world, b"m")? == Some(Refusal::MapExists));
    assert!(rt; of_map(rt.alloc(), &mut world, b"mmm")?.is_none());
    Ok(())
}

#[test]
fn maps_that_go(rt: HostRuntime) -> Result<(), Fail> {
    let mut world = store(rt.alloc())?;
    assert!(rt; of_unmap(rt.alloc(), &mut world, b"q")? == Some(Refusal::NoMap));
    assert!(rt; of_unmap(rt.alloc(), &mut world, b"f")? == Some(Refusal::MapInUse));
    assert!(rt; of_unmap(rt.alloc(), &mut world, b"e")?.is_none());
    Ok(())
}

#[test]
fn shards_that_come(rt: HostRuntime) -> Result<(), Fail> {
    let mut world = store(rt.alloc())?;
    assert!(rt; of_shard(rt.alloc(), &mut world, b"q", b"s/z")? == Some(Refusal::NoMap));
    assert!(rt; of_shard(rt.alloc(), &mut world, b"e", b"s/z")? == Some(Refusal::NoLocation));
    assert!(rt; of_shard(rt.alloc(), &mut world, b"f", b"s/a")? == Some(Refusal::ShardExists));
    assert!(rt; of_shard(rt.alloc(), &mut world, b"e", b"s/a")?.is_none());
    Ok(())
}

#[test]
fn shards_that_come_at_a_detached_site(rt: HostRuntime) -> Result<(), Fail> {
    let mut world = store_away(rt.alloc(), Away::Detached)?;
    assert!(rt; of_shard(rt.alloc(), &mut world, b"e", b"s/z")? == Some(Refusal::NoLocation));
    assert!(rt; of_shard(rt.alloc(), &mut world, b"e", b"s/a")? == Some(Refusal::Detached));
    assert!(rt; of_shard(rt.alloc(), &mut world, b"f", b"s/a")? == Some(Refusal::Detached));
    Ok(())
}

#[test]
fn shards_that_come_at_a_suspect_site(rt: HostRuntime) -> Result<(), Fail> {
    let mut world = store_away(rt.alloc(), Away::Suspect)?;
    assert!(rt; of_shard(rt.alloc(), &mut world, b"e", b"s/a")? == Some(Refusal::Unresolved));
    assert!(rt; of_shard(rt.alloc(), &mut world, b"f", b"s/a")? == Some(Refusal::Unresolved));
    Ok(())
}

#[test]
fn shards_that_go(rt: HostRuntime) -> Result<(), Fail> {
    let mut world = store(rt.alloc())?;
    assert!(rt; of_unshard(rt.alloc(), &mut world, b"q", b"s/z")? == Some(Refusal::NoMap));
    assert!(rt; of_unshard(rt.alloc(), &mut world, b"e", b"s/z")? == Some(Refusal::NoLocation));
    assert!(rt; of_unshard(rt.alloc(), &mut world, b"e", b"s/a")? == Some(Refusal::NotAShard));
    assert!(rt; of_unshard(rt.alloc(), &mut world, b"m", b"s/a")? == Some(Refusal::ShardInUse));
    assert!(rt; of_unshard(rt.alloc(), &mut world, b"f", b"s/a")?.is_none());
    Ok(())
}

#[test]
fn shards_that_go_at_a_detached_site(rt: HostRuntime) -> Result<(), Fail> {
    let mut world = store_away(rt.alloc(), Away::Detached)?;
    assert!(rt; of_unshard(rt.alloc(), &mut world, b"e", b"s/a")? == Some(Refusal::NotAShard));
    assert!(rt; of_unshard(rt.alloc(), &mut world, b"f", b"s/a")? == Some(Refusal::Detached));
    assert!(rt; of_unshard(rt.alloc(), &mut world, b"m", b"s/a")? == Some(Refusal::Detached));
    Ok(())
}

#[test]
fn shards_that_go_at_a_suspect_site(rt: HostRuntime) -> Result<(), Fail> {
    let mut world = store_away(rt.alloc(), Away::Suspect)?;
    assert!(rt; of_unshard(rt.alloc(), &mut world, b"f", b"s/a")? == Some(Refusal::Unresolved));
    assert!(rt; of_unshard(rt.alloc(), &mut world, b"m", b"s/a")? == Some(Refusal::Unresolved));
    Ok(())
}

#[test]
fn shards_that_are_the_target_of_a_job(rt: HostRuntime) -> Result<(), Fail> {
    let mut world = store(rt.alloc())?;
    put(rt.alloc(), &mut world, Cell::Job(job_of(b"m")?))?;
    assert!(rt; of_unshard(rt.alloc(), &mut world, b"f", b"s/a")?.is_none());
    put(rt.alloc(), &mut world, Cell::Job(job_of(b"f")?))?;
    assert!(rt; of_unshard(rt.alloc(), &mut world, b"f", b"s/a")? == Some(Refusal::ShardInUse));
    Ok(())
}

#[test]
fn tables_that_come(rt: HostRuntime) -> Result<(), Fail> {
    let mut world = store(rt.alloc())?;
    assert!(rt; of_table(rt.alloc(), &mut world, b"q", b"x")? == Some(Refusal::NoMap));
    assert!(rt; of_table(rt.alloc(), &mut world, b"e", b"x")? == Some(Refusal::TableExists));
    assert!(rt; of_table(rt.alloc(), &mut world, b"m", b"x")?.is_none());
    Ok(())
}

#[test]
fn keys_that_are_looked_for(rt: HostRuntime) -> Result<(), Fail> {
    let mut world = store(rt.alloc())?;
    assert!(rt; of_find(rt.alloc(), &mut world, b"q", b"x")? == Some(Refusal::NoMap));
    assert!(rt; of_find(rt.alloc(), &mut world, b"m", b"x")? == Some(Refusal::BadKey));
    assert!(rt; of_find(rt.alloc(), &mut world, b"m", b"2147483648")? == Some(Refusal::BadKey));
    assert!(rt; of_find(rt.alloc(), &mut world, b"m", b"-1")? == Some(Refusal::NoMapping));
    assert!(rt; of_find(rt.alloc(), &mut world, b"m", b"10")? == Some(Refusal::NoMapping));
    Ok(())
}

#[test]
fn maps_that_are_asked_for(rt: HostRuntime) -> Result<(), Fail> {
    let mut world = store(rt.alloc())?;
    assert!(rt; of_list(rt.alloc(), &mut world, b"q")? == Some(Refusal::NoMap));
    assert!(rt; of_shards(rt.alloc(), &mut world, b"q")? == Some(Refusal::NoMap));
    assert!(rt; of_list(rt.alloc(), &mut world, b"e")?.is_none());
    assert!(rt; of_shards(rt.alloc(), &mut world, b"e")?.is_none());
    Ok(())
}
