//! Runs of scripts over stores and sources in memory.
use crate::worlds::world_of;
use cell_world::outside::World;
use plain_model::finish::RunStatus;
use plain_model::history::History;
use script_shell::shell::run_script;
use std::alloc::Global;
use std::test::Fail;
use world_memory::source::MemorySource;
use world_memory::world::MemoryWorld;

/// How a run ended, what was asked and answered in it, and the world after it.
#[derive(Drop)]
pub struct Ran {
    pub status: RunStatus,
    pub history: History,
    pub world: MemoryWorld,
}

impl Ran {
    /// How many moments its world has: one for each commit and each write.
    pub fn moment(&self) -> u64 {
        self.world.moment()
    }

    /// What it wrote.
    pub fn output(&self, alloc: Global) -> Result<Vec<u8>, Fail> {
        Ok(self.world.output(alloc)?)
    }
}

/// Runs the script of a source with words over a world.
pub fn run_from(
    alloc: Global,
    words: &Vec<String>,
    world: MemoryWorld,
    source: MemorySource,
) -> Ran {
    let mut source = source;
    let (finish, world) = run_script(alloc, words, world, &mut source);
    Ran {
        status: finish.status,
        history: finish.history,
        world,
    }
}

/// Runs a script with words over a world.
pub fn run_with(alloc: Global, words: &Vec<String>, world: MemoryWorld, script: Vec<u8>) -> Ran {
    run_from(alloc, words, world, MemorySource::new(script))
}

/// Runs a script without words over a world.
pub fn run_over(alloc: Global, world: MemoryWorld, script: Vec<u8>) -> Ran {
    run_with(alloc, &Vec::new(alloc), world, script)
}

/// Runs a script with words over empty stores at the locations that the words name.
pub fn run_words(alloc: Global, words: &Vec<String>, script: &[u8]) -> Result<Ran, Fail> {
    let world = world_of(alloc, words)?;
    Ok(run_with(alloc, words, world, script.to_vec(alloc)?))
}

/// Whether a run had this status and wrote this.
pub fn is(alloc: Global, ran: &Ran, status: RunStatus, output: &[u8]) -> Result<bool, Fail> {
    Ok(ran.status == status && ran.output(alloc)?.as_slice() == output)
}
