//! Long commands of two sessions side by side: what waits, and what goes.

use event_runs::runs::{GOOD, REFUSED, Run};
use event_runs::stores::{store, store_at};
use event_runs::turns::Turn;
use event_runs::words::{here, map};
use manager_core::manager::Outcome;
use plain_model::commands::Command;
use std::alloc::Global;
use std::test::Fail;

/// Two sessions, of which the first asked for the range from 0 to 10. Its operation is the first.
fn adding(alloc: Global) -> Result<Run, Fail> {
    let run = Run::start(alloc, store(alloc)?, 2, true)?;
    run.after(alloc, &[(1, Turn::Add(0, 10), Outcome::Going(1))])
}

#[test]
fn a_range_in_the_way_waits(rt: HostRuntime) -> Result<(), Fail> {
    let alloc = rt.alloc();
    let mut run = adding(alloc)?;
    assert_eq!(rt; run.take(alloc, 2, Turn::Add(5, 6))?, REFUSED);
    assert!(rt; run.standing(1)?.going);
    assert_eq!(rt; run.go_on(alloc, 1)?, GOOD);
    assert!(rt; !run.standing(1)?.going);
    assert_eq!(rt;
        run.output(alloc)?.as_slice(),
        b"2 pending 1\n1 ok\n".as_slice()
    );
    Ok(())
}

#[test]
fn a_range_beside_it_goes(rt: HostRuntime) -> Result<(), Fail> {
    let alloc = rt.alloc();
    let mut run = adding(alloc)?;
    let turns = [
        (2, Turn::Add(20, 30), Outcome::Going(2)),
        (2, Turn::GoOn, GOOD),
        (1, Turn::GoOn, GOOD),
    ];
    assert_eq!(rt; run.first_other(alloc, &turns)?, None);
    assert_eq!(rt; run.output(alloc)?.as_slice(), b"2 ok\n1 ok\n".as_slice());
    let over = run.end(alloc)?;
    for (entry, number) in over.history.as_slice().iter().zip([2, 1]) {
        assert_eq!(rt; entry.operation, number);
    }
    Ok(())
}

/// Over one core: the range in the way waits, the one beside it goes, and the first one ends last.
#[test]
fn one_waits_and_one_goes(rt: HostRuntime) -> Result<(), Fail> {
    let alloc = rt.alloc();
    let mut run = adding(alloc)?;
    let turns = [
        (2, Turn::Add(5, 6), REFUSED),
        (2, Turn::Add(20, 30), Outcome::Going(2)),
        (2, Turn::GoOn, GOOD),
        (1, Turn::GoOn, GOOD),
    ];
    assert_eq!(rt; run.first_other(alloc, &turns)?, None);
    assert_eq!(rt;
        run.output(alloc)?.as_slice(),
        b"2 pending 1\n2 ok\n1 ok\n".as_slice()
    );
    Ok(())
}

#[test]
fn a_shard_that_is_coming_into_use_waits(rt: HostRuntime) -> Result<(), Fail> {
    let alloc = rt.alloc();
    let mut run = adding(alloc)?;
    let command = Command::Unshard(map()?, here()?);
    assert_eq!(rt; run.ask(alloc, 2, command)?, REFUSED);
    assert_eq!(rt; run.output(alloc)?.as_slice(), b"2 pending 1\n".as_slice());
    Ok(())
}

#[test]
fn the_last_number_is_given_once(rt: HostRuntime) -> Result<(), Fail> {
    let alloc = rt.alloc();
    let last = i64::MAX.cast_unsigned();
    let mut run = Run::start(alloc, store_at(alloc, last)?, 1, false)?;
    let turns = [
        (1, Turn::Add(0, 10), Outcome::Going(last)),
        (1, Turn::GoOn, GOOD),
        (1, Turn::Add(20, 30), REFUSED),
    ];
    assert_eq!(rt; run.first_other(alloc, &turns)?, None);
    assert_eq!(rt; run.output(alloc)?.as_slice(), b"ok\nfull\n".as_slice());
    Ok(())
}
