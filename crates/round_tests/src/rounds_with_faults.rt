//! Three sessions go round by turns while commits fail: what they are answered is what the plain map answers in which each command that was
//! answered `fault` is done or not; each image is judged, and so is what a crash leaves.

use crate::rounds::{begun, go_round, is_plain, made_by, plain_map, plainly};
use cell_world::outside::World;
use event_runs::faults::{commit, faults_in, is_fault, plan_of};
use event_runs::judge::are_sound;
use event_runs::listing::listed;
use event_runs::runs::Over;
use event_runs::stores::crashed;
use event_runs::words::map;
use plain_map::asking::PlainMap;
use plain_model::commands::Command;
use plain_model::history::Entry;
use std::alloc::Global;
use std::test::Fail;
use world_memory::faults::PlannedFault;
use world_memory::world::MemoryWorld;

/// What is left once the sessions had so many turns, in an order that the number says, while these calls failed.
fn take_turns(
    alloc: Global,
    turns: u32,
    order: u32,
    faults: &[PlannedFault],
) -> Result<Over, Fail> {
    let mut run = begun(alloc)?.failing(plan_of(alloc, faults)?);
    go_round(alloc, &mut run, turns, order)?;
    let (over, _tail) = run.stop(alloc);
    Ok(over)
}

/// Whether the plain map goes as the entry tells. One that is answered `fault` is done or not.
fn follows(alloc: Global, plain: &mut PlainMap, entry: &Entry, done: bool) -> Result<bool, Fail> {
    if !is_fault(entry) {
        return is_plain(alloc, plain, entry);
    }
    if done {
        let _answer = plainly(alloc, plain, &entry.command)?;
    }
    Ok(true)
}

/// What a plain map lists that went as the entries tell, where of those that are answered `fault` the chosen ones are done: the first by
/// the lowest digit of the number to base 2, and so on. None where it answers otherwise.
fn lists(alloc: Global, entries: &[Entry], chosen: u32) -> Result<Option<Vec<u8>>, Fail> {
    let mut plain = plain_map(alloc)?;
    let mut chosen = chosen;
    for entry in entries {
        if !follows(alloc, &mut plain, entry, chosen % 2 == 1)? {
            return Ok(None);
        }
        if is_fault(entry) {
            chosen /= 2;
        }
    }
    Ok(Some(plainly(alloc, &mut plain, &Command::List(map()?))?))
}

/// Whether this is listed by a plain map that went as the entries tell, each of at most two that are answered `fault` done or not.
fn is_listed(alloc: Global, entries: &[Entry], listed: &[u8]) -> Result<bool, Fail> {
    if faults_in(entries) > 2 {
        return Err(Fail::from("more faults than calls that failed"));
    }
    for chosen in 0..4 {
        if let Some(wanted) = lists(alloc, entries, chosen)? {
            if wanted.as_slice() == listed {
                return Ok(true);
            }
        }
    }
    Ok(false)
}

/// Whether a new run over the world lists what the entries left, and has nothing in the log.
fn is_kept(alloc: Global, world: MemoryWorld, entries: &[Entry]) -> Result<bool, Fail> {
    let (written, logged) = listed(alloc, world)?;
    Ok(logged == 0 && is_listed(alloc, entries, written.as_slice())?)
}

/// Whether all images were sound, and what is left is what the history tells.
fn is_right(alloc: Global, over: &Over) -> Result<bool, Fail> {
    let world = crashed(alloc, &over.world, over.world.moment())?;
    Ok(are_sound(alloc, &over.world)? && is_kept(alloc, world, over.history.as_slice())?)
}

#[test]
fn whichever_commit_fails_the_plain_map_agrees(rt: HostRuntime) -> Result<(), Fail> {
    let alloc = rt.alloc();
    let mut faults: usize = 0;
    for number in 1..=24 {
        for made in [false, true] {
            let over = take_turns(alloc, 30, number, &[commit(number, made)])?;
            assert!(rt; faults_in(over.history.as_slice()) < 2, "commit {number}");
            assert!(rt; is_right(alloc, &over)?, "commit {number}, made: {made}");
            faults = faults.saturating_add(faults_in(over.history.as_slice()));
        }
    }
    assert!(rt; faults > 10, "only {faults}");
    Ok(())
}

#[test]
fn whichever_two_commits_fail_the_plain_map_agrees(rt: HostRuntime) -> Result<(), Fail> {
    let alloc = rt.alloc();
    let mut faults: usize = 0;
    for number in 1..=12 {
        for more in 1..=3 {
            let fails = [
                commit(number, more % 2 == 0),
                commit(number + more, number % 2 == 0),
            ];
            let over = take_turns(alloc, 30, number, &fails)?;
            assert!(rt;
                is_right(alloc, &over)?,
                "commits {number} and {more} later"
            );
            faults = faults.saturating_add(faults_in(over.history.as_slice()));
        }
    }
    assert!(rt; faults > 10, "only {faults}");
    Ok(())
}

/// The first moment after whose crash something else is left than the entries tell that were made by then.
fn first_lost(alloc: Global, over: &Over) -> Result<Option<u64>, Fail> {
    let entries = over.history.as_slice();
    for moment in 0..=over.world.moment() {
        let made = made_by(entries, moment).min(entries.len());
        if !is_kept(
            alloc,
            crashed(alloc, &over.world, moment)?,
            &entries[..made],
        )? {
            return Ok(Some(moment));
        }
    }
    Ok(None)
}

#[test]
fn whichever_commit_fails_a_crash_keeps_what_was_done(rt: HostRuntime) -> Result<(), Fail> {
    let alloc = rt.alloc();
    for number in 1..=12 {
        let over = take_turns(alloc, 30, number, &[commit(number, number % 2 == 0)])?;
        assert_eq!(rt; first_lost(alloc, &over)?, None, "commit {number}");
    }
    Ok(())
}
