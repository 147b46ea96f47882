//! Scripts with what each of their lines is answered.
use crate::images::crashed;
use crate::runs::{Ran, run_with, run_words};
use crate::worlds::{words_in, world_of};
use command_scripts::Line;
use std::alloc::Global;
use std::test::Fail;
use world_memory::world::MemoryWorld;

/// The locations over which the lines run.
pub const LOCATIONS: &str = "s/a s/b s/c";

/// The words that name these locations.
pub fn locations(alloc: Global) -> Result<Vec<String>, Fail> {
    words_in(alloc, LOCATIONS)
}

/// Empty stores at these locations.
pub fn empty_stores(alloc: Global) -> Result<MemoryWorld, Fail> {
    world_of(alloc, &locations(alloc)?)
}

/// The script of these lines.
pub fn script_of(alloc: Global, lines: &[Line]) -> Result<Vec<u8>, Fail> {
    let mut script: Vec<u8> = Vec::new(alloc);
    for line in lines {
        script.extend_from_slice(line.0.as_bytes())?;
        script.push(b'\n')?;
    }
    Ok(script)
}

/// What is written where each line is answered so.
pub fn answers_to(alloc: Global, lines: &[Line]) -> Result<Vec<u8>, Fail> {
    let mut answers: Vec<u8> = Vec::new(alloc);
    for line in lines {
        answers.extend_from_slice(line.1.as_bytes())?;
        answers.push(b'\n')?;
    }
    Ok(answers)
}

/// Runs the lines over empty stores.
pub fn run_lines(alloc: Global, lines: &[Line]) -> Result<Ran, Fail> {
    run_words(
        alloc,
        &locations(alloc)?,
        script_of(alloc, lines)?.as_slice(),
    )
}

/// Runs the lines over a world at these locations.
pub fn run_on(alloc: Global, world: MemoryWorld, lines: &[Line]) -> Result<Ran, Fail> {
    let words = locations(alloc)?;
    Ok(run_with(alloc, &words, world, script_of(alloc, lines)?))
}

/// Runs the lines over what a crash of a world at the moment leaves.
pub fn run_after(
    alloc: Global,
    world: &MemoryWorld,
    moment: u64,
    lines: &[Line],
) -> Result<Ran, Fail> {
    run_on(alloc, crashed(alloc, world, moment)?, lines)
}

/// Whether the run wrote what the lines tell.
pub fn wrote(alloc: Global, ran: &Ran, lines: &[Line]) -> Result<bool, Fail> {
    let wanted = answers_to(alloc, lines)?;
    Ok(ran.output(alloc)?.as_slice() == wanted.as_slice())
}
