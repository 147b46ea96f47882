//! The limits: 64 maps, and 16 tables of a map.
use crate::stores::{done, empty_world, name, refusal, store};
use cell_world::cells::{KeyType, MapKind};
use plain_model::commands::Command;
use plain_model::replies::Refusal;
use std::alloc::Global;
use std::test::Fail;
use world_memory::world::MemoryWorld;

/// The name of a number below 100: two letters.
fn letters(number: u8) -> [u8; 2] {
    [b'A' + number % 10, b'A' + number / 10 % 10]
}

/// Makes the map of a number, or says why not.
fn make_map(alloc: Global, world: &mut MemoryWorld, number: u8) -> Result<(), Fail> {
    let map = name(&letters(number))?;
    let command = Command::Map(map, MapKind::List, KeyType::Timespan);
    done(alloc, world, &command)?;
    Ok(())
}

fn of_map(alloc: Global, world: &mut MemoryWorld, number: u8) -> Result<Option<Refusal>, Fail> {
    let map = name(&letters(number))?;
    refusal(
        alloc,
        world,
        &Command::Map(map, MapKind::List, KeyType::Timespan),
    )
}

fn make_table(alloc: Global, world: &mut MemoryWorld, map: &[u8], number: u8) -> Result<(), Fail> {
    let table = name(&letters(number))?;
    done(alloc, world, &Command::Table(name(map)?, table))?;
    Ok(())
}

fn of_table(
    alloc: Global,
    world: &mut MemoryWorld,
    map: &[u8],
    number: u8,
) -> Result<Option<Refusal>, Fail> {
    let table = name(&letters(number))?;
    refusal(alloc, world, &Command::Table(name(map)?, table))
}

#[test]
fn the_last_map(rt: HostRuntime) -> Result<(), Fail> {
    let mut world = empty_world(rt.alloc())?;
    for number in 0..63 {
        make_map(rt.alloc(), &mut world, number)?;
    }
    assert!(rt; of_map(rt.alloc(), &mut world, 63)?.is_none());
    make_map(rt.alloc(), &mut world, 63)?;
    assert!(rt; of_map(rt.alloc(), &mut world, 64)? == Some(Refusal::Full));
    assert!(rt; of_map(rt.alloc(), &mut world, 63)? == Some(Refusal::MapExists));
    Ok(())
}

#[test]
fn the_last_table(rt: HostRuntime) -> Result<(), Fail> {
    let mut world = store(rt.alloc())?;
    for number in 0..15 {
        make_table(rt.alloc(), &mut world, b"m", number)?;
    }
    assert!(rt; of_table(rt.alloc(), &mut world, b"m", 15)?.is_none());
    make_table(rt.alloc(), &mut world, b"m", 15)?;
    assert!(rt; of_table(rt.alloc(), &mut world, b"m", 16)? == Some(Refusal::Full));
    assert!(rt; of_table(rt.alloc(), &mut world, b"m", 15)? == Some(Refusal::TableExists));
    assert!(rt; of_table(rt.alloc(), &mut world, b"mm", 16)?.is_none());
    Ok(())
}
