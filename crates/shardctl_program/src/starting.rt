//! The start of the program: its words, its three streams, and its exit status.
use crate::program::{run, tell};
use cell_world::memory::Memory;
use plain_model::finish::RunStatus;
use std::alloc::Global;
use std::env::{Env, FillError};
use std::process::ExitCode;
use std::str;

/// The longest word that is read, in bytes. A longer one is in no grammar.
const WORD_BYTES: usize = 512;

/// The word of these bytes. Where they aren't UTF-8 it is the empty word, which is in no grammar either.
pub fn word_of(alloc: Global, bytes: &[u8]) -> Result<String, Memory> {
    match str::from_utf8(bytes) {
        Ok(text) => Ok(String::from_str(alloc, text)?),
        Err(_) => Ok(String::new(alloc)),
    }
}

/// The words of the command line, without the program's name. One that is too long or isn't UTF-8 is the empty word.
fn words_of(rt: &HostRuntime) -> Result<Vec<String>, Memory> {
    let alloc = rt.alloc();
    let mut words = Vec::new(alloc);
    let mut buffer = [0u8; WORD_BYTES];
    for number in 1..usize::MAX {
        let word = match rt.arg(number, &mut buffer) {
            Ok(length) => word_of(alloc, &buffer[..length])?,
            Err(FillError::TooLong) => String::new(alloc),
            Err(FillError::NotPresent) => return Ok(words),
        };
        words.push(word)?;
    }
    Ok(words)
}

/// Runs the script on standard input, and tells on standard error how it ended.
pub fn start(rt: &HostRuntime) -> ExitCode {
    let status = match words_of(rt) {
        Ok(words) => run(rt, &words, rt.stdin(), rt.stdout()),
        Err(Memory) => RunStatus::Memory,
    };
    ExitCode::from(tell(rt.alloc(), &status, &mut rt.stderr()))
}
