//! New mappings of ranges: the refusals of `add` in the order of the command table, and what overlaps.
use crate::stores::{here, name, place, planned, put, put_new, refusal, store, store_away};
use cell_world::cells::{Away, Cell, KeyType, MapKind};
use cell_world::key_texts::KeyText;
use plain_model::commands::{Command, HighText};
use plain_model::replies::Refusal;
use std::alloc::Global;
use std::test::Fail;
use world_memory::world::MemoryWorld;

/// The end that is written so; nothing stands for `max`.
fn end(text: &[u8]) -> Result<HighText, Fail> {
    if text.is_empty() {
        return Ok(HighText::Max);
    }
    Ok(HighText::At(KeyText::read(text).ok_or("a key word")?))
}

fn of_add(
    alloc: Global,
    world: &mut MemoryWorld,
    map: &[u8],
    low: &[u8],
    high: &[u8],
    at: &[u8],
) -> Result<Option<Refusal>, Fail> {
    let low = KeyText::read(low).ok_or("a key word")?;
    let high = end(high)?;
    refusal(
        alloc,
        world,
        &Command::Add(name(map)?, low, high, place(at)?),
    )
}

/// The refusal at the one known location.
fn of_range(
    alloc: Global,
    world: &mut MemoryWorld,
    map: &[u8],
    low: &[u8],
    high: &[u8],
) -> Result<Option<Refusal>, Fail> {
    of_add(alloc, world, map, low, high, b"s/a")
}

/// Adds a mapping of the map `m`.
fn added(alloc: Global, world: &mut MemoryWorld, low: &[u8], high: &[u8]) -> Result<(), Fail> {
    let low = KeyText::read(low).ok_or("a key word")?;
    let high = end(high)?;
    let command = Command::Add(name(b"m")?, low, high, here()?);
    let found = planned(alloc, world, &command)?;
    put_new(alloc, world, &found)
}

/// The store with the range map `g`, which has no shard.
fn with_bare_map(alloc: Global, mut world: MemoryWorld) -> Result<MemoryWorld, Fail> {
    let map = name(b"g")?;
    put(
        alloc,
        &mut world,
        Cell::Map(map, MapKind::Range, KeyType::Int),
    )?;
    Ok(world)
}

#[test]
fn words_of_ranges(rt: HostRuntime) -> Result<(), Fail> {
    let mut world = store(rt.alloc())?;
    assert!(rt; of_add(rt.alloc(), &mut world, b"q", b"x", b"5", b"s/z")? == Some(Refusal::NoMap));
    assert!(rt;
        of_add(rt.alloc(), &mut world, b"f", b"x", b"5", b"s/z")? == Some(Refusal::WrongKind)
    );
    assert!(rt; of_add(rt.alloc(), &mut world, b"m", b"x", b"5", b"s/z")? == Some(Refusal::BadKey));
    assert!(rt; of_add(rt.alloc(), &mut world, b"m", b"6", b"x", b"s/z")? == Some(Refusal::BadKey));
    assert!(rt;
        of_add(rt.alloc(), &mut world, b"m", b"5", b"5", b"s/z")? == Some(Refusal::BadRange)
    );
    assert!(rt;
        of_add(rt.alloc(), &mut world, b"m", b"6", b"5", b"s/z")? == Some(Refusal::BadRange)
    );
    assert!(rt;
        of_add(rt.alloc(), &mut world, b"m", b"5", b"6", b"s/z")? == Some(Refusal::NoLocation)
    );
    Ok(())
}

#[test]
fn sites_of_ranges(rt: HostRuntime) -> Result<(), Fail> {
    let detached = store_away(rt.alloc(), Away::Detached)?;
    let mut world = with_bare_map(rt.alloc(), detached)?;
    assert!(rt; of_range(rt.alloc(), &mut world, b"g", b"5", b"6")? == Some(Refusal::NotAShard));
    assert!(rt; of_range(rt.alloc(), &mut world, b"m", b"5", b"6")? == Some(Refusal::Detached));
    let mut world = store_away(rt.alloc(), Away::Suspect)?;
    assert!(rt; of_range(rt.alloc(), &mut world, b"m", b"5", b"6")? == Some(Refusal::Unresolved));
    Ok(())
}

#[test]
fn ranges_below_and_above(rt: HostRuntime) -> Result<(), Fail> {
    let mut world = store(rt.alloc())?;
    assert!(rt; of_range(rt.alloc(), &mut world, b"m", b"9", b"11")? == Some(Refusal::Overlap));
    assert!(rt; of_range(rt.alloc(), &mut world, b"m", b"-1", b"1")? == Some(Refusal::Overlap));
    assert!(rt; of_range(rt.alloc(), &mut world, b"m", b"-1", b"")? == Some(Refusal::Overlap));
    assert!(rt; of_range(rt.alloc(), &mut world, b"m", b"-1", b"0")?.is_none());
    assert!(rt; of_range(rt.alloc(), &mut world, b"m", b"10", b"")?.is_none());
    assert!(rt;
        of_range(rt.alloc(), &mut world, b"mm", b"2147483647", b"")? == Some(Refusal::Overlap)
    );
    assert!(rt; of_range(rt.alloc(), &mut world, b"mm", b"9", b"10")?.is_none());
    Ok(())
}

#[test]
fn ranges_between_others(rt: HostRuntime) -> Result<(), Fail> {
    let mut world = store(rt.alloc())?;
    added(rt.alloc(), &mut world, b"100", b"200")?;
    added(rt.alloc(), &mut world, b"10", b"100")?;
    assert!(rt; of_range(rt.alloc(), &mut world, b"m", b"99", b"101")? == Some(Refusal::Overlap));
    assert!(rt; of_range(rt.alloc(), &mut world, b"m", b"199", b"200")? == Some(Refusal::Overlap));
    assert!(rt; of_range(rt.alloc(), &mut world, b"m", b"200", b"201")?.is_none());
    added(rt.alloc(), &mut world, b"200", b"")?;
    assert!(rt; of_range(rt.alloc(), &mut world, b"m", b"300", b"")? == Some(Refusal::Overlap));
    Ok(())
}
