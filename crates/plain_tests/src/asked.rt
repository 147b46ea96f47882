//! Lines, asked one after the other.
use cell_world::locations::Location;
use command_scripts::Line;
use plain_map::asking::{PlainMap, is_built};
use plain_model::commands::Asked;
use plain_model::replies::Reply;
use script_lang::programs::Program;
use script_lang::replies::write_reply;
use script_lang::scripts::{Script, read_lines};
use script_lang::verbs::Verb;
use std::alloc::Global;
use std::test::Fail;

/// The commands that the plain program has.
const BUILT: [Verb; 23] = [
    Verb::Map,
    Verb::Unmap,
    Verb::Shard,
    Verb::Unshard,
    Verb::Table,
    Verb::Add,
    Verb::Addpoint,
    Verb::Delete,
    Verb::Offline,
    Verb::Online,
    Verb::Move,
    Verb::Split,
    Verb::Merge,
    Verb::Lock,
    Verb::Unlock,
    Verb::Find,
    Verb::List,
    Verb::Shards,
    Verb::Open,
    Verb::Close,
    Verb::Put,
    Verb::Get,
    Verb::Del,
];

fn location(text: &str) -> Result<Location, Fail> {
    Ok(Location::read(text.as_bytes()).ok_or("a location")?)
}

/// Nothing stands, and `s/a`, `s/b` and `s/c` are known.
pub(crate) fn empty(alloc: Global) -> Result<PlainMap, Fail> {
    let locations = [location("s/a")?, location("s/b")?, location("s/c")?];
    Ok(PlainMap::empty(alloc, &locations)?)
}

/// Reads all lines as one script.
fn read(alloc: Global, lines: &[Line]) -> Result<Script, Fail> {
    let mut text: Vec<u8> = Vec::new(alloc);
    for line in lines {
        text.extend_from_slice(line.0.as_bytes())?;
        text.extend_from_slice(b"\n")?;
    }
    if text.len() > 100_000 {
        return Err("a longer script than the tests have".into());
    }
    Ok(read_lines(alloc, Program::Mux, &BUILT, &text)?)
}

/// Asks one command.
fn ask(plain: &mut PlainMap, asked: &Asked) -> Result<Reply, Fail> {
    if !is_built(&asked.command) {
        return Err("a command that isn't built".into());
    }
    Ok(plain.ask(asked.session, &asked.command)?)
}

/// Whether the reply is written as the table tells, where `site` stands for what the site's state answers.
fn is_told(alloc: Global, reply: &Reply, told: &str, site: &str) -> Result<bool, Fail> {
    let written = write_reply(alloc, None, reply)?;
    let wanted = if told == "site" { site } else { told };
    Ok(written.as_slice().strip_suffix(b"\n".as_slice()) == Some(wanted.as_bytes()))
}

/// The first line that isn't answered as the table tells, if there is one. Each line but `session N` has an answer.
pub(crate) fn first_wrong(
    alloc: Global,
    plain: &mut PlainMap,
    lines: &[Line],
    site: &str,
) -> Result<Option<&'static str>, Fail> {
    let script = read(alloc, lines)?;
    let mut told = lines.iter().filter(|line| !line.1.is_empty());
    for asked in script.lines.as_slice() {
        let Some(line) = told.next() else {
            return Err("more commands than answers".into());
        };
        let reply = ask(plain, asked)?;
        if !is_told(alloc, &reply, line.1, site)? {
            return Ok(Some(line.0));
        }
    }
    match told.next() {
        Some(line) => Ok(Some(line.0)),
        None => Ok(None),
    }
}
