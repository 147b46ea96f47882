//! What is answered to `find`, `list` and `shards`.
use crate::stores::{key, name, planned, store};
use cell_world::cells::KeyType;
use cell_world::key_texts::KeyText;
use plain_model::commands::Command;
use plain_model::plans::Plan;
use plain_model::replies::Reply;
use std::alloc::Global;
use std::test::Fail;
use world_memory::world::MemoryWorld;

/// Whether the mapping that `find` answers begins at this number.
fn finds(
    alloc: Global,
    world: &mut MemoryWorld,
    map: &[u8],
    text: &[u8],
    low: u32,
) -> Result<bool, Fail> {
    let text = KeyText::read(text).ok_or("a key word")?;
    let low = key(low)?;
    let found = planned(alloc, world, &Command::Find(name(map)?, text))?;
    match &found {
        Ok(Plan::Answer(Reply::Mapping(KeyType::Int, piece))) => {
            Ok(piece.span.low().cmp(&low).is_eq())
        }
        _ => Ok(false),
    }
}

#[test]
fn the_mapping_of_a_key(rt: HostRuntime) -> Result<(), Fail> {
    let mut world = store(rt.alloc())?;
    assert!(rt; finds(rt.alloc(), &mut world, b"m", b"0", 0)?);
    assert!(rt; finds(rt.alloc(), &mut world, b"m", b"9", 0)?);
    assert!(rt; finds(rt.alloc(), &mut world, b"mm", b"10", 10)?);
    assert!(rt; finds(rt.alloc(), &mut world, b"mm", b"2147483647", 10)?);
    assert!(rt; !finds(rt.alloc(), &mut world, b"mm", b"9", 0)?);
    Ok(())
}

/// How many mappings `list` answers, of int keys.
fn listed(alloc: Global, world: &mut MemoryWorld, map: &[u8]) -> Result<Option<usize>, Fail> {
    let found = planned(alloc, world, &Command::List(name(map)?))?;
    match &found {
        Ok(Plan::Answer(Reply::Mappings(KeyType::Int, pieces))) => Ok(Some(
            pieces.as_slice().len(),
        )),
        _ => Ok(None),
    }
}

/// How many shards `shards` answers.
fn shards(alloc: Global, world: &mut MemoryWorld, map: &[u8]) -> Result<Option<usize>, Fail> {
    let found = planned(alloc, world, &Command::Shards(name(map)?))?;
    match &found {
        Ok(Plan::Answer(Reply::Shards(locations))) => Ok(Some(locations.as_slice().len())),
        _ => Ok(None),
    }
}

#[test]
fn lists_of_one_map(rt: HostRuntime) -> Result<(), Fail> {
    let mut world = store(rt.alloc())?;
    assert!(rt; listed(rt.alloc(), &mut world, b"m")? == Some(1));
    assert!(rt; listed(rt.alloc(), &mut world, b"e")?.is_none());
    assert!(rt; shards(rt.alloc(), &mut world, b"m")? == Some(1));
    assert!(rt; shards(rt.alloc(), &mut world, b"e")? == Some(0));
    Ok(())
}
