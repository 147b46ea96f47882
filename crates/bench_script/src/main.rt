//! Reads many scripts, or writes many replies: `bench_script read BYTES TIMES` or `bench_script write COUNT TIMES`. Writes how many commands it read, or how many bytes it wrote.
#![tactic(auto)]

use anyhow::{Context, Error, bail};
use cell_world::cells::{KeyType, Status};
use cell_world::items::Items;
use cell_world::locations::Location;
use cell_world::names::Name;
use cell_world::norm_keys::NormKey;
use cell_world::operations::Piece;
use cell_world::spans::{High, Span};
use plain_model::replies::Reply;
use script_lang::programs::Program;
use script_lang::replies::write_reply;
use script_lang::scripts::read_lines;
use script_lang::verbs::ALL;
use std::alloc::Global;
use std::env;

/// The lines that a script repeats: four commands, a comment and an empty line.
const LINES: &[u8] =
    b"map m range int\nadd m 0 100 s/a\nsplit m 40\nput 1 t 5 0x00ff\n# comment\n\n";

/// The most bytes of a script, and the most mappings of a reply.
const MOST: u32 = 1_048_576;

/// A script of this number of bytes, less what is left over of the lines that it repeats.
fn script_of(alloc: Global, bytes: u32) -> Result<Vec<u8>, Error> {
    let mut script = Vec::new(alloc);
    for _ in 0..bytes as usize / LINES.len() {
        script.extend_from_slice(LINES)?;
    }
    Ok(script)
}

/// How many commands the script has.
fn commands_in(alloc: Global, bytes: &[u8]) -> Result<u64, Error> {
    if bytes.len() > MOST as usize {
        bail!("the script is too long");
    }
    let Ok(script) = read_lines(alloc, Program::Ctl, &ALL, bytes) else {
        bail!("the bytes are no script");
    };
    Ok(script.lines.as_slice().len() as u64)
}

/// How many commands are read in all.
fn read_often(alloc: Global, bytes: u32, times: u32) -> Result<u64, Error> {
    let script = script_of(alloc, bytes)?;
    let mut sum = 0u64;
    for _ in 0..times {
        let count = commands_in(alloc, script.as_slice())?;
        sum = sum.wrapping_add(count);
    }
    Ok(sum)
}

/// The key of the int 1,000,000 and so many: up to 8,999,999 more it has seven digits.
fn key_of(more: u32) -> Result<NormKey, Error> {
    let number = 0x8000_0000u32.wrapping_add(1_000_000).wrapping_add(more);
    NormKey::of_bytes(&number.to_be_bytes()).context("no key")
}

/// Adds a mapping of one int.
fn add_mapping(
    mappings: &mut Items<Piece>,
    map: Name,
    location: Location,
    more: u32,
) -> Result<(), Error> {
    let low = key_of(more)?;
    let high = key_of(more.wrapping_add(1))?;
    let added = mappings.push(Piece {
        map,
        span: Span::Range(low, High::At(high)),
        location,
        status: Status::Online,
        token: None,
    });
    if added.is_err() {
        bail!("out of memory");
    }
    Ok(())
}

/// The reply that lists so many mappings.
fn reply_of(alloc: Global, count: u32) -> Result<Reply, Error> {
    let map = Name::read(b"m").context("no name")?;
    let location = Location::read(b"s/a").context("no location")?;
    let mut mappings = Items::new(alloc);
    for more in 0..count {
        add_mapping(&mut mappings, map, location, more)?;
    }
    Ok(Reply::Mappings(KeyType::Int, mappings))
}

/// How many bytes the reply has as it is written.
fn bytes_in(alloc: Global, reply: &Reply) -> Result<u64, Error> {
    let Ok(written) = write_reply(alloc, None, reply) else {
        bail!("out of memory");
    };
    Ok(written.len() as u64)
}

/// How many bytes are written in all.
fn write_often(alloc: Global, count: u32, times: u32) -> Result<u64, Error> {
    let reply = reply_of(alloc, count)?;
    let mut sum = 0u64;
    for _ in 0..times {
        let bytes = bytes_in(alloc, &reply)?;
        sum = sum.wrapping_add(bytes);
    }
    Ok(sum)
}

/// What is read or written in all.
fn total(alloc: Global, task: &str, size: u32, times: u32) -> Result<u64, Error> {
    if size > MOST {
        bail!("the size is over 1048576");
    }
    match task {
        "read" => read_often(alloc, size, times),
        "write" => write_often(alloc, size, times),
        _ => bail!("no such task"),
    }
}

/// The number that the word spells.
fn number_in(word: Option<String>) -> Result<u32, Error> {
    let word = word.context("read BYTES TIMES or write COUNT TIMES")?;
    word.parse::<u32>().context("a word is no number")
}

fn main(rt: HostRuntime) -> Result<(), Error> {
    let mut words = env::args(&rt)?;
    let _program = words.next();
    let task = words
        .next()
        .context("read BYTES TIMES or write COUNT TIMES")?;
    let size = number_in(words.next())?;
    let times = number_in(words.next())?;
    let sum = total(rt.alloc(), task.as_str(), size, times)?;
    println!(rt; "{sum}")?;
    Ok(())
}
