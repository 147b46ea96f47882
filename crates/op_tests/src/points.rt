//! New mappings of points: the refusals of `addpoint` in the order of the command table, and which points are one.
use crate::stores::{here, name, place, planned, put, put_new, refusal, store, store_away};
use cell_world::cells::{Away, Cell, KeyType, MapKind};
use cell_world::key_texts::KeyText;
use plain_model::commands::Command;
use plain_model::replies::Refusal;
use std::alloc::Global;
use std::test::Fail;
use world_memory::world::MemoryWorld;

fn of_addpoint(
    alloc: Global,
    world: &mut MemoryWorld,
    map: &[u8],
    text: &[u8],
    at: &[u8],
) -> Result<Option<Refusal>, Fail> {
    let text = KeyText::read(text).ok_or("a key word")?;
    refusal(
        alloc,
        world,
        &Command::Addpoint(name(map)?, text, place(at)?),
    )
}

/// The refusal in the map of bytes `f` at the one known location.
fn of_point(alloc: Global, world: &mut MemoryWorld, text: &[u8]) -> Result<Option<Refusal>, Fail> {
    of_addpoint(alloc, world, b"f", text, b"s/a")
}

/// Adds the mapping of a point.
fn added(alloc: Global, world: &mut MemoryWorld, map: &[u8], text: &[u8]) -> Result<(), Fail> {
    let text = KeyText::read(text).ok_or("a key word")?;
    let command = Command::Addpoint(name(map)?, text, here()?);
    let found = planned(alloc, world, &command)?;
    put_new(alloc, world, &found)
}

/// Puts the list map `u` of guids, with the shard.
fn put_guids(alloc: Global, world: &mut MemoryWorld) -> Result<(), Fail> {
    let map = name(b"u")?;
    put(alloc, world, Cell::Map(map, MapKind::List, KeyType::Guid))?;
    put(alloc, world, Cell::Shard(map, here()?))
}

/// A bytes key with as many digits, all `f`.
fn long_key(alloc: Global, digits: u32) -> Result<Vec<u8>, Fail> {
    let mut text = Vec::new(alloc);
    text.push(b'0')?;
    text.push(b'x')?;
    for _ in 0..digits {
        text.push(b'f')?;
    }
    Ok(text)
}

/// The refusal of such a key.
fn of_long_key(
    alloc: Global,
    world: &mut MemoryWorld,
    digits: u32,
) -> Result<Option<Refusal>, Fail> {
    let text = long_key(alloc, digits)?;
    of_point(alloc, world, &text)
}

#[test]
fn words_of_points(rt: HostRuntime) -> Result<(), Fail> {
    let mut world = store(rt.alloc())?;
    assert!(rt; of_addpoint(rt.alloc(), &mut world, b"q", b"x", b"s/z")? == Some(Refusal::NoMap));
    assert!(rt;
        of_addpoint(rt.alloc(), &mut world, b"m", b"x", b"s/z")? == Some(Refusal::WrongKind)
    );
    assert!(rt; of_addpoint(rt.alloc(), &mut world, b"f", b"x", b"s/z")? == Some(Refusal::BadKey));
    assert!(rt;
        of_addpoint(rt.alloc(), &mut world, b"f", b"0x01", b"s/z")? == Some(Refusal::NoLocation)
    );
    assert!(rt;
        of_addpoint(rt.alloc(), &mut world, b"e", b"0x01", b"s/a")? == Some(Refusal::NotAShard)
    );
    Ok(())
}

#[test]
fn sites_of_points(rt: HostRuntime) -> Result<(), Fail> {
    let mut world = store(rt.alloc())?;
    added(rt.alloc(), &mut world, b"f", b"0x01")?;
    assert!(rt; of_point(rt.alloc(), &mut world, b"0x01")? == Some(Refusal::Overlap));
    put(
        rt.alloc(),
        &mut world,
        Cell::SiteState(here()?, Away::Suspect),
    )?;
    assert!(rt; of_point(rt.alloc(), &mut world, b"0x01")? == Some(Refusal::Unresolved));
    let mut world = store_away(rt.alloc(), Away::Detached)?;
    assert!(rt; of_point(rt.alloc(), &mut world, b"0x01")? == Some(Refusal::Detached));
    Ok(())
}

#[test]
fn points_that_are_one(rt: HostRuntime) -> Result<(), Fail> {
    let mut world = store(rt.alloc())?;
    added(rt.alloc(), &mut world, b"f", b"0x0100")?;
    assert!(rt; of_point(rt.alloc(), &mut world, b"0x01")? == Some(Refusal::Overlap));
    assert!(rt; of_point(rt.alloc(), &mut world, b"0x0101")?.is_none());
    added(rt.alloc(), &mut world, b"f", b"0x")?;
    assert!(rt; of_point(rt.alloc(), &mut world, b"0x00")? == Some(Refusal::Overlap));
    assert!(rt; of_long_key(rt.alloc(), &mut world, 256)?.is_none());
    assert!(rt; of_long_key(rt.alloc(), &mut world, 258)? == Some(Refusal::BadKey));
    Ok(())
}

/// The byte at a place in a guid of zeros.
fn zero_at(index: u32) -> u8 {
    match index {
        8 | 13 | 18 | 23 => b'-',
        _ => b'0',
    }
}

/// A guid that is zeros but for its last two digits.
fn guid(alloc: Global, last: &[u8]) -> Result<Vec<u8>, Fail> {
    let mut text = Vec::new(alloc);
    for index in 0..34 {
        text.push(zero_at(index))?;
    }
    for byte in last {
        text.push(*byte)?;
    }
    Ok(text)
}

fn add_guid(alloc: Global, world: &mut MemoryWorld, last: &[u8]) -> Result<(), Fail> {
    let text = guid(alloc, last)?;
    added(alloc, world, b"u", &text)
}

fn of_guid(alloc: Global, world: &mut MemoryWorld, last: &[u8]) -> Result<Option<Refusal>, Fail> {
    let text = guid(alloc, last)?;
    of_addpoint(alloc, world, b"u", &text, b"s/a")
}

#[test]
fn guids_that_are_one(rt: HostRuntime) -> Result<(), Fail> {
    let mut world = store(rt.alloc())?;
    put_guids(rt.alloc(), &mut world)?;
    add_guid(rt.alloc(), &mut world, b"ab")?;
    assert!(rt; of_guid(rt.alloc(), &mut world, b"AB")? == Some(Refusal::Overlap));
    assert!(rt; of_guid(rt.alloc(), &mut world, b"ac")?.is_none());
    assert!(rt; of_guid(rt.alloc(), &mut world, b"ag")? == Some(Refusal::BadKey));
    Ok(())
}
