//! What the changes of accepted commands leave.
ghost use Rattle.std.specs.Prelude.{◌≡◌, true};
ghost use Rattle.map_ops.specs.Planning.{is_planned_here};

use crate::stores::{done, here, name, planned, refusal, store};
use cell_world::operations::Reach;
use global_tables::known::KnownTables;
use plain_model::commands::Command;
use plain_model::plans::Plan;
use plain_model::replies::Refusal;
use std::alloc::Global;
use std::test::Fail;
use world_memory::world::MemoryWorld;

/// How many tables the map has.
fn tables(alloc: Global, world: &mut MemoryWorld, map: &[u8]) -> Result<usize, Fail> {
    let known = KnownTables::read(alloc, world)?;
    Ok(known.table_count(&name(map)?))
}

#[test]
fn a_map_goes_with_its_tables(rt: HostRuntime) -> Result<(), Fail> {
    let mut world = store(rt.alloc())?;
    assert!(rt; tables(rt.alloc(), &mut world, b"e")? == 2);
    let unmap = Command::Unmap(name(b"e")?);
    assert!(rt; done(rt.alloc(), &mut world, &unmap)? == 3);
    assert!(rt; tables(rt.alloc(), &mut world, b"e")? == 0);
    assert!(rt; refusal(rt.alloc(), &mut world, &unmap)? == Some(Refusal::NoMap));
    Ok(())
}

#[test]
fn a_shard_comes_and_goes(rt: HostRuntime) -> Result<(), Fail> {
    let mut world = store(rt.alloc())?;
    let map = name(b"e")?;
    let at = here()?;
    assert!(rt; done(rt.alloc(), &mut world, &Command::Shard(map, at))? == 1);
    assert!(rt; done(rt.alloc(), &mut world, &Command::Unshard(map, at))? == 1);
    let again = refusal(rt.alloc(), &mut world, &Command::Unshard(map, at))?;
    assert!(rt; again == Some(Refusal::NotAShard));
    Ok(())
}

/// Whether the plan of a command reaches a shard.
fn reaches_shard(alloc: Global, world: &mut MemoryWorld, command: &Command) -> Result<bool, Fail>
    requires { is_planned_here command.now ≡ true }
{
    let found = planned(alloc, world, command)?;
    match &found {
        Ok(Plan::Short(Reach::Shard(_, _), _, _)) => Ok(true),
        _ => Ok(false),
    }
}

#[test]
fn what_is_reached(rt: HostRuntime) -> Result<(), Fail> {
    let mut world = store(rt.alloc())?;
    let unshard = Command::Unshard(name(b"f")?, here()?);
    assert!(rt; reaches_shard(rt.alloc(), &mut world, &unshard)?);
    let shard = Command::Shard(name(b"e")?, here()?);
    assert!(rt; !reaches_shard(rt.alloc(), &mut world, &shard)?);
    Ok(())
}
