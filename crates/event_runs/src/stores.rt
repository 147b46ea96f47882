//! Stores in memory that the tests begin with.

use crate::runs::{GOOD, Run};
use crate::turns::{Turn, Verb};
use crate::words::{here, map, there};
use cell_world::cells::{Cell, Counters, KeyType, MapKind, Site};
use cell_world::changes::Change;
use cell_world::outside::World;
use manager_core::manager::Outcome;
use std::alloc::Global;
use std::test::Fail;
use world_memory::world::MemoryWorld;

/// A world of two locations, without cells.
pub fn empty_world(alloc: Global) -> Result<MemoryWorld, Fail> {
    let here = here()?;
    let there = there()?;
    if here.cmp(&there).is_eq() {
        return Err(Fail::from("one location"));
    }
    Ok(MemoryWorld::new(alloc, &[here, there])?)
}

/// One with the range map `m` of int keys, of which both locations are shards.
pub fn store(alloc: Global) -> Result<MemoryWorld, Fail> {
    let mut world = empty_world(alloc)?;
    let mut change = Change::empty(alloc);
    change.put(Cell::Map(map()?, MapKind::Range, KeyType::Int))?;
    change.put(Cell::Shard(map()?, here()?))?;
    change.put(Cell::Shard(map()?, there()?))?;
    world.commit(alloc, Site::GLOBAL, &change)?;
    Ok(world)
}

/// One whose next operation has this number.
pub fn store_at(alloc: Global, operation: u64) -> Result<MemoryWorld, Fail> {
    let mut world = store(alloc)?;
    let mut change = Change::empty(alloc);
    change.put(Cell::Counter(Counters { operation, job: 1 }))?;
    world.commit(alloc, Site::GLOBAL, &change)?;
    Ok(world)
}

/// The world that a crash at the moment leaves.
pub fn crashed(alloc: Global, world: &MemoryWorld, moment: u64) -> Result<MemoryWorld, Fail> {
    if moment > world.moment() {
        return Err(Fail::from("no moment"));
    }
    Ok(world.crashed(alloc, moment)?)
}

/// One in which nothing happened yet, with what stands in this one.
fn afresh(alloc: Global, world: &MemoryWorld) -> Result<MemoryWorld, Fail> {
    crashed(alloc, world, world.moment())
}

/// One in which nothing happened yet, with what one session made of this one by the turns.
fn after(
    alloc: Global,
    world: MemoryWorld,
    turns: &[(u32, Turn, Outcome)],
) -> Result<MemoryWorld, Fail> {
    let run = Run::start(alloc, world, 1, false)?.after(alloc, turns)?;
    afresh(alloc, &run.end(alloc)?.world)
}

/// One in which the ranges from 0 to 10 and from 10 to 20 are here and online, by the operations 1 and 2.
pub fn two_ranges(alloc: Global) -> Result<MemoryWorld, Fail> {
    let turns = [
        (1, Turn::Add(0, 10), Outcome::Going(1)),
        (1, Turn::GoOn, GOOD),
        (1, Turn::Add(10, 20), Outcome::Going(2)),
        (1, Turn::GoOn, GOOD),
    ];
    after(alloc, store(alloc)?, &turns)
}

/// So, and the first of them is offline by operation 3.
pub fn one_offline(alloc: Global) -> Result<MemoryWorld, Fail> {
    let turns = [
        (1, Turn::Ask(Verb::Offline, 0), Outcome::Going(3)),
        (1, Turn::GoOn, GOOD),
    ];
    after(alloc, two_ranges(alloc)?, &turns)
}

/// Two ranges online, of which the first has the token.
pub fn one_locked(alloc: Global) -> Result<MemoryWorld, Fail> {
    let turns = [(1, Turn::Ask(Verb::Lock, 0), GOOD)];
    after(alloc, two_ranges(alloc)?, &turns)
}
