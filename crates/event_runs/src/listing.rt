//! What a new run over stores lists.

use crate::runs::Run;
use crate::stores::crashed;
use crate::words::map;
use cell_world::outside::World;
use global_tables::lists::log_rows;
use plain_model::commands::Command;
use std::alloc::Global;
use std::test::Fail;
use world_memory::world::MemoryWorld;

/// How many operations are logged.
pub fn logged(alloc: Global, world: &mut MemoryWorld) -> Result<usize, Fail> {
    Ok(log_rows(alloc, world)?.len())
}

/// What `list m` writes in a new run over the world, and how many operations are logged after it.
pub fn listed(alloc: Global, world: MemoryWorld) -> Result<(Vec<u8>, usize), Fail> {
    let mut run = Run::start(alloc, world, 1, false)?;
    let _ended = run.ask(alloc, 1, Command::List(map()?))?;
    let written = run.output(alloc)?;
    let mut over = run.end(alloc)?;
    Ok((written, logged(alloc, &mut over.world)?))
}

/// What `list m` writes in a new run over what a run left, and how many operations are logged after it.
pub fn listed_anew(alloc: Global, world: &MemoryWorld) -> Result<(Vec<u8>, usize), Fail> {
    listed(alloc, crashed(alloc, world, world.moment())?)
}
