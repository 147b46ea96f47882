//! Runs in which calls fail, and what is so of each of them.
use crate::watched::Watched;
use cell_world::cells::{CellKey, Site};
use cell_world::items::Items;
use cell_world::outside::World;
use command_scripts::Line;
use plain_map::asking::PlainMap;
use plain_model::finish::RunStatus;
use plain_model::history::Entry;
use plain_model::replies::{Reply, Sort};
use script_lang::replies::write_reply;
use script_runs::plain_answers::{plain_list, plain_map, plainly};
use script_runs::runs::Ran;
use script_runs::told::{locations, run_after, script_of};
use script_shell::shell::run_script;
use std::alloc::Global;
use std::test::Fail;
use world_memory::faults::{CallName, FaultPlan, PlannedFault};
use world_memory::source::MemorySource;
use world_memory::world::MemoryWorld;

/// A run in which calls were to fail.
#[derive(Drop)]
pub struct Failing {
    pub ran: Ran,
    /// How many calls failed.
    pub failed: u32,
}

/// The call of this name and number fails. A commit isn't made, and a write writes nothing.
pub fn lost(call: CallName, number: u32) -> PlannedFault {
    PlannedFault {
        call,
        number,
        made: false,
        prefix: 0,
    }
}

/// The commit of this number fails, and is made all the same.
pub fn made(number: u32) -> PlannedFault {
    PlannedFault {
        call: CallName::Commit,
        number,
        made: true,
        prefix: 0,
    }
}

/// The write of this number fails once so many bytes are written.
pub fn cut(number: u32, prefix: u32) -> PlannedFault {
    PlannedFault {
        call: CallName::Write,
        number,
        made: false,
        prefix,
    }
}

/// The plan by which these calls fail.
fn plan_of(alloc: Global, faults: &[PlannedFault]) -> Result<FaultPlan, Fail> {
    let mut calls = Items::new(alloc);
    for fault in faults {
        calls.push(*fault)?;
    }
    Ok(FaultPlan { calls })
}

/// Runs a script over a world whose failing calls are counted.
fn run_watched(alloc: Global, words: &Vec<String>, world: MemoryWorld, script: Vec<u8>) -> Failing {
    let mut source = MemorySource::new(script);
    let (finish, watched) = run_script(alloc, words, Watched::new(world), &mut source);
    let Watched { world, failed } = watched;
    let ran = Ran {
        status: finish.status,
        history: finish.history,
        world,
    };
    Failing { ran, failed }
}

/// Runs the lines over a world in which these calls fail.
pub fn run_failing(
    alloc: Global,
    world: MemoryWorld,
    faults: &[PlannedFault],
    lines: &[Line],
) -> Result<Failing, Fail> {
    let words = locations(alloc)?;
    let script = script_of(alloc, lines)?;
    let plan = plan_of(alloc, faults)?;
    Ok(run_watched(alloc, &words, world.with_faults(plan), script))
}

/// Runs the lines over the world that a run left, in which no call fails.
pub fn run_again(alloc: Global, ran: &Ran, lines: &[Line]) -> Result<Ran, Fail> {
    run_after(alloc, &ran.world, ran.moment(), lines)
}

/// How many operations are logged.
pub fn logged(alloc: Global, world: &mut MemoryWorld) -> Result<usize, Fail> {
    let rows = world.scan(alloc, Site::GLOBAL, &CellKey::Log(0), 1000)?;
    Ok(rows.len())
}

fn is_fault(entry: &Entry) -> bool {
    matches!(&entry.reply, Some(Reply::Fault))
}

fn is_refused(entry: &Entry) -> bool {
    match &entry.reply {
        Some(reply) => reply.sort() == Sort::Refused,
        None => false,
    }
}

/// How many of the entries are answered `fault`.
fn faults_in(entries: &[Entry]) -> usize {
    entries.iter().filter(|entry| is_fault(entry)).count()
}

/// With which status a run ends that has these entries and was not stopped.
fn status_of(entries: &[Entry]) -> RunStatus {
    if faults_in(entries) > 0 {
        RunStatus::StoreFault
    } else if entries.iter().any(is_refused) {
        RunStatus::Refused
    } else {
        RunStatus::Done
    }
}

/// Whether the stores couldn't be opened.
pub fn is_unopened(failing: &Failing) -> bool {
    failing.ran.status == RunStatus::StoreFault && failing.ran.history.len() == 0
}

/// Whether the status has its cause, and each `fault` a call that failed: the stores couldn't be opened, a write failed, or
/// all so many commands were answered.
fn has_causes(failing: &Failing, commands: usize) -> bool {
    let entries = failing.ran.history.as_slice();
    let failed = failing.failed as usize;
    let ended = match failing.ran.status {
        RunStatus::WriteFault => failed > 0,
        status => entries.len() == commands && status == status_of(entries),
    };
    (ended || (is_unopened(failing) && failed > 0)) && faults_in(entries) <= failed
}

/// What is written where the entries are answered so.
fn replies_of(alloc: Global, entries: &[Entry]) -> Result<Vec<u8>, Fail> {
    let mut lines: Vec<u8> = Vec::new(alloc);
    for entry in entries {
        if let Some(reply) = &entry.reply {
            lines.extend_from_slice(write_reply(alloc, None, reply)?.as_slice())?;
        }
    }
    Ok(lines)
}

/// Whether the replies of the entries were written, or a front of them where a write failed.
fn is_written(alloc: Global, ran: &Ran) -> Result<bool, Fail> {
    let lines = replies_of(alloc, ran.history.as_slice())?;
    let output = ran.output(alloc)?;
    if ran.status == RunStatus::WriteFault {
        Ok(lines.as_slice().starts_with(output.as_slice()))
    } else {
        Ok(lines.as_slice() == output.as_slice())
    }
}

/// Whether the plain map goes as the entry tells. One that is answered `fault` is done or not.
fn follows(alloc: Global, plain: &mut PlainMap, entry: &Entry, done: bool) -> Result<bool, Fail> {
    match &entry.reply {
        None => Ok(false),
        Some(Reply::Fault) => {
            if done {
                let _answer = plainly(alloc, plain, &entry.command)?;
            }
            Ok(true)
        }
        Some(reply) => {
            let wanted = plainly(alloc, plain, &entry.command)?;
            Ok(write_reply(alloc, None, reply)?.as_slice() == wanted.as_slice())
        }
    }
}

/// Whether the plain map goes as all the entries tell, where of those that are answered `fault` the chosen ones are done: the
/// first by the lowest digit of the number to base 2, and so on.
fn goes_so(
    alloc: Global,
    plain: &mut PlainMap,
    entries: &[Entry],
    chosen: u32,
) -> Result<bool, Fail> {
    let mut chosen = chosen;
    for entry in entries {
        if !follows(alloc, plain, entry, chosen % 2 == 1)? {
            return Ok(false);
        }
        if is_fault(entry) {
            chosen /= 2;
        }
    }
    Ok(true)
}

/// Whether a plain map that went as the entries tell, with this choice, lists so.
fn lists_so(
    alloc: Global,
    before: &[Entry],
    entries: &[Entry],
    chosen: u32,
    listed: &[u8],
) -> Result<bool, Fail> {
    let mut plain = plain_map(alloc)?;
    if !goes_so(alloc, &mut plain, before, 0)? || !goes_so(alloc, &mut plain, entries, chosen)? {
        return Ok(false);
    }
    Ok(plain_list(alloc, &mut plain)?.as_slice() == listed)
}

/// Whether this is listed by a plain map that went as the entries tell, each of at most two that are answered `fault` done
/// or not. Those before have no `fault`.
fn is_listed(
    alloc: Global,
    before: &[Entry],
    entries: &[Entry],
    listed: &[u8],
) -> Result<bool, Fail> {
    if faults_in(before) > 0 || faults_in(entries) > 2 {
        return Err(Fail::from("too many faults"));
    }
    for chosen in 0..4 {
        if lists_so(alloc, before, entries, chosen, listed)? {
            return Ok(true);
        }
    }
    Ok(false)
}

/// Whether a new run lists what the entries left, and has nothing in the log.
fn leaves_a_front(alloc: Global, before: &[Entry], ran: &Ran) -> Result<bool, Fail> {
    let again = run_again(alloc, ran, &[("list m", "")])?;
    let listed = again.output(alloc)?;
    let mut left = again.world;
    Ok(
        logged(alloc, &mut left)? == 0
            && is_listed(alloc, before, ran.history.as_slice(), listed.as_slice())?,
    )
}

/// Whether a run of so many commands is as it must be. Its world is what the entries before it left.
fn is_right(
    alloc: Global,
    before: &[Entry],
    failing: &Failing,
    commands: usize,
) -> Result<bool, Fail> {
    Ok(
        has_causes(failing, commands)
            && is_written(alloc, &failing.ran)?
            && leaves_a_front(alloc, before, &failing.ran)?,
    )
}

/// Fails where a run of so many commands isn't as it must be. Its world is what the entries before it left.
pub fn expect_right(
    alloc: Global,
    before: &[Entry],
    failing: &Failing,
    commands: usize,
) -> Result<(), Fail> {
    if is_right(alloc, before, failing, commands)? {
        Ok(())
    } else {
        Err(Fail::from("a failing call isn't taken as it must be"))
    }
}
