//! `lock` and `unlock`: their refusals in the order of the command table, and what they put.
ghost use Rattle.std.specs.Prelude.{◌≡◌, true};
ghost use Rattle.map_ops.specs.Planning.{is_asked};

use crate::stores::{OTHER, TOKEN, is_range, name, planned, refusal, store, word};
use cell_world::cells::{Site, Token};
use cell_world::operations::Reach;
use cell_world::outside::World;
use plain_model::commands::Command;
use plain_model::plans::Plan;
use plain_model::replies::Refusal;
use std::alloc::Global;
use std::test::Fail;
use world_memory::world::MemoryWorld;

fn of_lock(
    alloc: Global,
    world: &mut MemoryWorld,
    text: &[u8],
    token: Token,
) -> Result<Option<Refusal>, Fail> {
    refusal(
        alloc,
        world,
        &Command::Lock(name(b"m")?, word(text)?, token),
    )
}

fn of_unlock(
    alloc: Global,
    world: &mut MemoryWorld,
    text: &[u8],
    token: Token,
) -> Result<Option<Refusal>, Fail> {
    refusal(
        alloc,
        world,
        &Command::Unlock(name(b"m")?, word(text)?, token),
    )
}

/// Does a command: its change is committed. Says whether it reaches the keys from one number up to another.
fn done(
    alloc: Global,
    world: &mut MemoryWorld,
    command: &Command,
    low: u32,
    end: u32,
) -> Result<bool, Fail>
    requires { is_asked command.now ≡ true }
{
    let found = planned(alloc, world, command)?;
    match &found {
        Ok(Plan::Short(Reach::Part(_, span), change, _)) => {
            world.commit(alloc, Site::GLOBAL, change)?;
            is_range(span, low, end)
        }
        _ => Err(Fail::from("no change")),
    }
}

#[test]
fn a_mapping_is_locked(rt: HostRuntime) -> Result<(), Fail> {
    let mut world = store(rt.alloc())?;
    let lock = Command::Lock(name(b"m")?, word(b"3")?, TOKEN);
    assert!(rt; done(rt.alloc(), &mut world, &lock, 0, 10)?);
    assert!(rt; of_lock(rt.alloc(), &mut world, b"9", OTHER)? == Some(Refusal::Locked));
    assert!(rt; of_lock(rt.alloc(), &mut world, b"10", OTHER)?.is_none());
    Ok(())
}

#[test]
fn a_mapping_is_unlocked(rt: HostRuntime) -> Result<(), Fail> {
    let mut world = store(rt.alloc())?;
    assert!(rt; of_unlock(rt.alloc(), &mut world, b"3", TOKEN)? == Some(Refusal::SameStatus));
    assert!(rt; of_unlock(rt.alloc(), &mut world, b"45", OTHER)? == Some(Refusal::Locked));
    let unlock = Command::Unlock(name(b"m")?, word(b"45")?, TOKEN);
    assert!(rt; done(rt.alloc(), &mut world, &unlock, 40, 50)?);
    assert!(rt; of_unlock(rt.alloc(), &mut world, b"45", TOKEN)? == Some(Refusal::SameStatus));
    Ok(())
}
