//! A world over `sqlite` in memory answers as the world in memory does.

use crate::asked::step;
use cell_world::locations::Location;
use cell_world::outside::World;
use sqlite::MemStore;
use std::alloc::Global;
use std::test::Fail;
use world_memory::world::MemoryWorld;
use world_sqlite::SqliteWorld;

/// A world in memory of one location.
pub fn plain_world(alloc: Global) -> Result<MemoryWorld, Fail> {
    let at = Location::read(b"s/a").ok_or("a location")?;
    Ok(MemoryWorld::new(alloc, &[at])?)
}

/// A world over `sqlite` in memory of one location.
fn sqlite_world(alloc: Global) -> Result<SqliteWorld<MemStore, Vec<u8>>, Fail> {
    let at = Location::read(b"s/a").ok_or("a location")?;
    Ok(SqliteWorld::in_memory(alloc, Vec::new(alloc), &[at])?)
}

#[test]
fn both_worlds_answer_alike(rt: HostRuntime) -> Result<(), Fail> {
    let alloc = rt.alloc();
    let mut plain = plain_world(alloc)?;
    let mut world = sqlite_world(alloc)?;
    for number in 0..3u8 {
        let expected = step(&mut plain, alloc, number)?;
        let found = step(&mut world, alloc, number)?;
        assert!(rt; expected.as_slice() == found.as_slice(), "step {number}");
    }
    world.write(alloc, b"ab")?;
    world.write(alloc, b"cd")?;
    assert!(rt; world.into_output().as_slice() == b"abcd".as_slice());
    Ok(())
}
