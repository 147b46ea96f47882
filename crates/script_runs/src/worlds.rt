//! Words, and empty stores in memory at the locations that they name.
use script_lang::command_line::{WordsFault, read_words};
use script_lang::programs::Program;
use std::alloc::Global;
use std::test::Fail;
use world_memory::world::MemoryWorld;

/// The words of a line, each behind a blank but the first.
pub fn words_in(alloc: Global, line: &str) -> Result<Vec<String>, Fail> {
    let mut words: Vec<String> = Vec::new(alloc);
    for word in line.split(' ') {
        words.push(format!(in alloc; "{word}")?)?;
    }
    Ok(words)
}

/// A world without locations, in which nothing happened yet.
pub fn empty_world(alloc: Global) -> Result<MemoryWorld, Fail> {
    Ok(MemoryWorld::new(alloc, &[])?)
}

/// A world with the locations that the words name; without locations where the words are bad.
pub fn world_of(alloc: Global, words: &Vec<String>) -> Result<MemoryWorld, Fail> {
    match read_words(alloc, words, Program::Ctl) {
        Ok(says) => Ok(MemoryWorld::new(alloc, says.locations.as_slice())?),
        Err(WordsFault::At(_)) => empty_world(alloc),
        Err(WordsFault::Memory) => Err("out of memory".into()),
    }
}
