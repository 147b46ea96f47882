//! `lock` and `unlock` beside a live operation of another session.

use event_runs::commands::{TOKEN, split};
use event_runs::runs::{GOOD, REFUSED, Run};
use event_runs::stores::{one_locked, two_ranges};
use event_runs::turns::{Turn, Verb};
use manager_core::manager::Outcome;
use std::alloc::Global;
use std::test::Fail;

/// Two sessions over two ranges, of which the first asked to split the one from 0 to 10. Its operation is the third.
fn splitting(alloc: Global) -> Result<Run, Fail> {
    let run = Run::start(alloc, two_ranges(alloc)?, 2, true)?;
    run.after(alloc, &[(1, Turn::Ask(Verb::Split, 4), Outcome::Going(3))])
}

/// So, where the range that is split has the token.
fn splitting_locked(alloc: Global) -> Result<Run, Fail> {
    let mut run = Run::start(alloc, one_locked(alloc)?, 2, true)?;
    if run.ask(alloc, 1, split(b"4", Some(TOKEN))?)? == Outcome::Going(3) {
        Ok(run)
    } else {
        Err(Fail::from("it isn't going"))
    }
}

#[test]
fn a_lock_waits_for_its_mapping(rt: HostRuntime) -> Result<(), Fail> {
    let alloc = rt.alloc();
    let mut run = splitting(alloc)?;
    let turns = [
        // the mapping that is split, on both sides of the key
        (2, Turn::Ask(Verb::Lock, 3), REFUSED),
        (2, Turn::Ask(Verb::Lock, 7), REFUSED),
        // the one beside it
        (2, Turn::Ask(Verb::Lock, 12), GOOD),
        (2, Turn::Ask(Verb::Unlock, 12), GOOD),
        (1, Turn::GoOn, GOOD),
        (2, Turn::Ask(Verb::Lock, 7), GOOD),
        (1, Turn::List, GOOD),
    ];
    assert_eq!(rt; run.first_other(alloc, &turns)?, None);
    let wanted = b"2 pending 3
2 pending 3
2 ok
2 ok
1 ok
2 ok
1 mappings 3
1 0 4 s/a online
1 4 10 s/a online 00000000-0000-0001-0000-000000000000
1 10 20 s/a online
";
    assert_eq!(rt; run.output(alloc)?.as_slice(), wanted.as_slice());
    Ok(())
}

/// A lock that waits changes nothing: both parts of the range are without a token.
#[test]
fn a_lock_that_waits_is_not_made(rt: HostRuntime) -> Result<(), Fail> {
    let alloc = rt.alloc();
    let mut run = splitting(alloc)?;
    let turns = [
        (2, Turn::Ask(Verb::Lock, 3), REFUSED),
        (1, Turn::GoOn, GOOD),
        (2, Turn::List, GOOD),
    ];
    assert_eq!(rt; run.first_other(alloc, &turns)?, None);
    assert_eq!(rt;
        run.output(alloc)?.as_slice(),
        b"2 pending 3\n1 ok\n2 mappings 3\n2 0 4 s/a online\n2 4 10 s/a online\n2 10 20 s/a online\n".as_slice()
    );
    Ok(())
}

/// The hull of a merge is both ranges.
#[test]
fn a_lock_waits_for_both_mappings_of_a_merge(rt: HostRuntime) -> Result<(), Fail> {
    let alloc = rt.alloc();
    let mut run = Run::start(alloc, two_ranges(alloc)?, 2, true)?;
    let turns = [
        (1, Turn::Ask(Verb::Merge, 0), Outcome::Going(3)),
        (2, Turn::Ask(Verb::Lock, 0), REFUSED),
        (2, Turn::Ask(Verb::Lock, 19), REFUSED),
        (1, Turn::GoOn, GOOD),
        (2, Turn::Ask(Verb::Lock, 19), GOOD),
        (1, Turn::List, GOOD),
    ];
    assert_eq!(rt; run.first_other(alloc, &turns)?, None);
    assert_eq!(rt;
        run.output(alloc)?.as_slice(),
        b"2 pending 3\n2 pending 3\n1 ok\n2 ok\n1 mappings 1\n1 0 20 s/a online 00000000-0000-0001-0000-000000000000\n".as_slice()
    );
    Ok(())
}

#[test]
fn an_unlock_waits_for_its_mapping(rt: HostRuntime) -> Result<(), Fail> {
    let alloc = rt.alloc();
    let mut run = splitting_locked(alloc)?;
    let turns = [
        (2, Turn::Ask(Verb::Unlock, 3), REFUSED),
        (2, Turn::Ask(Verb::Lock, 12), GOOD),
        (1, Turn::GoOn, GOOD),
        (2, Turn::Ask(Verb::Unlock, 3), GOOD),
        (1, Turn::List, GOOD),
    ];
    assert_eq!(rt; run.first_other(alloc, &turns)?, None);
    let wanted = b"2 pending 3
2 ok
1 ok
2 ok
1 mappings 3
1 0 4 s/a online
1 4 10 s/a online 00000000-0000-0001-0000-000000000000
1 10 20 s/a online 00000000-0000-0001-0000-000000000000
";
    assert_eq!(rt; run.output(alloc)?.as_slice(), wanted.as_slice());
    Ok(())
}

/// Of a refusal and an operation in the way the refusal is the answer.
#[test]
fn a_refusal_comes_before_waiting(rt: HostRuntime) -> Result<(), Fail> {
    let alloc = rt.alloc();
    let mut run = splitting_locked(alloc)?;
    let turns = [
        (2, Turn::Ask(Verb::Lock, 3), REFUSED),
        (2, Turn::Ask(Verb::Unlock, 12), REFUSED),
    ];
    assert_eq!(rt; run.first_other(alloc, &turns)?, None);
    assert_eq!(rt;
        run.output(alloc)?.as_slice(),
        b"2 locked\n2 same-status\n".as_slice()
    );
    Ok(())
}
