//! Lines, each asked of the plain program, and planned over stores that stand for the same.
ghost use Rattle.std.specs.Prelude.{◌≡◌};
ghost use Rattle.map_ops.specs.Planning.{is_asked, is_long};
ghost use Rattle.plain_model.specs.ShortCommands.{is_short};

use crate::told_stores::{locations, stores_of};
use cell_world::cells::Away;
use cell_world::locations::Location;
use command_scripts::{Line, Script};
use global_tables::known::KnownTables;
use mapping_plans::plans::plan;
use plain_map::asking::{PlainMap, is_built};
use plain_model::commands::Command;
use plain_model::plans::{Plan, PlanStop};
use plain_model::replies::Reply;
use script_lang::programs::Program;
use script_lang::replies::write_reply;
use script_lang::scripts::{Script as Lines, read_lines};
use script_lang::verbs::Verb;
use std::alloc::Global;
use std::test::Fail;

/// The commands of the lines: those that are planned, and those that put rows.
const VERBS: [Verb; 23] = [
    Verb::Map,
    Verb::Unmap,
    Verb::Shard,
    Verb::Unshard,
    Verb::Table,
    Verb::Add,
    Verb::Addpoint,
    Verb::Delete,
    Verb::Offline,
    Verb::Online,
    Verb::Move,
    Verb::Split,
    Verb::Merge,
    Verb::Lock,
    Verb::Unlock,
    Verb::Find,
    Verb::List,
    Verb::Shards,
    Verb::Open,
    Verb::Close,
    Verb::Put,
    Verb::Get,
    Verb::Del,
];

/// Whether the command is short.
fn is_short(command: &Command) -> bool
    ensures { result ≡ is_short command.now }
{
    matches!(
        command,
        Command::Map(_, _, _)
            | Command::Unmap(_)
            | Command::Shard(_, _)
            | Command::Unshard(_, _)
            | Command::Table(_, _)
            | Command::Lock(_, _, _)
            | Command::Unlock(_, _, _)
            | Command::Find(_, _)
            | Command::List(_)
            | Command::Shards(_)
    )
}

/// Whether the command is long.
fn is_long(command: &Command) -> bool
    ensures { result ≡ is_long command.now }
{
    matches!(
        command,
        Command::Add(_, _, _, _)
            | Command::Addpoint(_, _, _)
            | Command::Delete(_, _, _)
            | Command::Offline(_, _, _)
            | Command::Online(_, _, _)
            | Command::Move(_, _, _, _)
            | Command::Split(_, _, _)
            | Command::Merge(_, _, _)
    )
}

/// Whether the command is planned.
fn is_asked(command: &Command) -> bool
    ensures { result ≡ is_asked command.now }
{
    is_short(command) || is_long(command)
}

/// Whether the reply is written so.
fn is_told(alloc: Global, reply: &Reply, told: &str) -> Result<bool, Fail> {
    let written = write_reply(alloc, None, reply)?;
    Ok(written.as_slice().strip_suffix(b"\n".as_slice()) == Some(told.as_bytes()))
}

/// Whether the plan's reply is written so. That of an operation is `ok`.
fn is_plan_told(alloc: Global, found: &Result<Plan, PlanStop>, told: &str) -> Result<bool, Fail> {
    match found {
        Ok(Plan::Long(_)) => Ok(told == "ok"),
        Ok(Plan::Short(_, _, reply)) => is_told(alloc, reply, told),
        Ok(Plan::Answer(reply)) => is_told(alloc, reply, told),
        Err(PlanStop::Refused(refusal)) => is_told(alloc, &Reply::Refused(*refusal), told),
        Err(_) => Err(Fail::from("neither a plan nor a refusal")),
    }
}

/// Whether the command, if it is one that is planned, is planned with this reply over stores that stand for the tables.
fn is_planned(
    alloc: Global,
    plain: &PlainMap,
    command: &Command,
    told: &str,
) -> Result<bool, Fail> {
    if !is_asked(command) {
        return Ok(true);
    }
    let mut world = stores_of(alloc, &plain.tables)?;
    let known = KnownTables::read(alloc, &mut world)?;
    let found = plan(alloc, &mut world, &known, command);
    is_plan_told(alloc, &found, told)
}

/// Asks the plain program, and says whether it answers so.
fn is_answered(
    alloc: Global,
    plain: &mut PlainMap,
    command: &Command,
    told: &str,
) -> Result<bool, Fail> {
    if !is_built(command) {
        return Err("a command that isn't built".into());
    }
    let reply = plain.ask(1, command)?;
    is_told(alloc, &reply, told)
}

/// Reads one line as a script.
fn read(alloc: Global, line: &str) -> Result<Lines, Fail> {
    let bytes = line.as_bytes();
    if bytes.len() > 100_000 {
        return Err("a longer line than the tests have".into());
    }
    Ok(read_lines(alloc, Program::Ctl, &VERBS, bytes)?)
}

/// Whether the line's command is planned, and answered by the plain program, as the line tells.
fn is_right(alloc: Global, plain: &mut PlainMap, line: &Line) -> Result<bool, Fail> {
    let script = read(alloc, line.0)?;
    match script.lines.as_slice() {
        [asked] => Ok(
            is_planned(alloc, plain, &asked.command, line.1)?
                && is_answered(alloc, plain, &asked.command, line.1)?,
        ),
        _ => Err("no command".into()),
    }
}

/// The site is in this state from then on, or attached.
fn put_away(plain: &mut PlainMap, at: &[u8], state: Option<Away>) -> Result<(), Fail> {
    let at = Location::read(at).ok_or("a location")?;
    match state {
        Some(away) => {
            plain.tables.away.insert(at, away)?;
        }
        None => {
            plain.tables.away.remove(&at);
        }
    }
    Ok(())
}

/// Does a line that is no command, and has no answer: `detached LOC`, `suspect LOC` or `attached LOC` is what the site is
/// from then on.
fn put_site(plain: &mut PlainMap, line: &str) -> Result<(), Fail> {
    let line = line.as_bytes();
    if let Some(at) = line.strip_prefix(b"detached ".as_slice()) {
        return put_away(plain, at, Some(Away::Detached));
    }
    if let Some(at) = line.strip_prefix(b"suspect ".as_slice()) {
        return put_away(plain, at, Some(Away::Suspect));
    }
    match line.strip_prefix(b"attached ".as_slice()) {
        Some(at) => put_away(plain, at, None),
        None => Err("no line".into()),
    }
}

/// Asks the lines in order. The first that isn't planned and answered as it tells, if there is one.
fn first_wrong(
    alloc: Global,
    plain: &mut PlainMap,
    lines: &[Line],
) -> Result<Option<&'static str>, Fail> {
    for line in lines {
        if line.1.is_empty() {
            put_site(plain, line.0)?;
        } else if !is_right(alloc, plain, line)? {
            return Ok(Some(line.0));
        }
    }
    Ok(None)
}

/// Asks each script after these lines. The first script, and the first line of it, that isn't planned and answered as it
/// tells, if there is one.
pub(crate) fn wrong_of(
    alloc: Global,
    before: &[Line],
    scripts: &[Script],
) -> Result<Option<(&'static str, &'static str)>, Fail> {
    for script in scripts {
        let mut plain = PlainMap::empty(alloc, &locations()?)?;
        if let Some(line) = first_wrong(alloc, &mut plain, before)? {
            return Ok(Some(("before", line)));
        }
        if let Some(line) = first_wrong(alloc, &mut plain, script.lines)? {
            return Ok(Some((script.about, line)));
        }
    }
    Ok(None)
}
