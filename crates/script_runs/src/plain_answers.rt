//! The plain map over the locations of the tests: what it answers to the commands of a run, and what it lists.
use crate::images::location;
use cell_world::names::Name;
use plain_map::asking::{PlainMap, is_built};
use plain_model::commands::Command;
use plain_model::history::Entry;
use script_lang::replies::write_reply;
use std::alloc::Global;
use std::test::Fail;

/// A plain map over the locations, in which nothing stands.
pub fn plain_map(alloc: Global) -> Result<PlainMap, Fail> {
    let locations = [location(b"s/a")?, location(b"s/b")?, location(b"s/c")?];
    Ok(PlainMap::empty(alloc, &locations)?)
}

/// What the plain map answers, as it is written.
pub fn plainly(alloc: Global, plain: &mut PlainMap, command: &Command) -> Result<Vec<u8>, Fail> {
    if !is_built(command) {
        return Err(Fail::from("a command that isn't built"));
    }
    let reply = plain.ask(1, command)?;
    Ok(write_reply(alloc, None, &reply)?)
}

/// What the plain map lists of the map `m`, as it is written.
pub fn plain_list(alloc: Global, plain: &mut PlainMap) -> Result<Vec<u8>, Fail> {
    let list = Command::List(Name::read(b"m").ok_or("a name")?);
    plainly(alloc, plain, &list)
}

/// How many of the entries were made by the moment. A reply is written after its entry, so none of another entry is written by then.
pub fn made_by(entries: &[Entry], moment: u64) -> usize {
    entries
        .iter()
        .take_while(|entry| entry.moment <= moment)
        .count()
}
