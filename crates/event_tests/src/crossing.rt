//! A move of one session beside a split of another.

use event_runs::runs::{GOOD, REFUSED, Run};
use event_runs::stores::one_offline;
use event_runs::turns::{Turn, Verb};
use event_runs::words::{map, there};
use manager_core::manager::Outcome;
use plain_model::commands::Command;
use std::alloc::Global;
use std::test::Fail;

/// Two sessions over two ranges, of which the first asked to move the one from 0 to 10, which is offline. Its operation is the fourth.
fn moving(alloc: Global) -> Result<Run, Fail> {
    let run = Run::start(alloc, one_offline(alloc)?, 2, true)?;
    run.after(
        alloc,
        &[(1, Turn::Ask(Verb::MoveThere, 0), Outcome::Going(4))],
    )
}

/// Each goes on by turns, and the split ends first.
#[test]
fn a_split_beside_a_move_goes(rt: HostRuntime) -> Result<(), Fail> {
    let alloc = rt.alloc();
    let mut run = moving(alloc)?;
    let turns = [
        (2, Turn::Ask(Verb::Split, 14), Outcome::Going(5)),
        (1, Turn::Go, Outcome::Going(4)),
        (2, Turn::Go, Outcome::Going(5)),
        (1, Turn::Go, Outcome::Going(4)),
        (2, Turn::Go, GOOD),
        (1, Turn::Go, GOOD),
        (2, Turn::List, GOOD),
    ];
    assert_eq!(rt; run.first_other(alloc, &turns)?, None);
    let wanted = b"2 ok
1 ok
2 mappings 3
2 0 10 s/b offline
2 10 14 s/a online
2 14 20 s/a online
";
    assert_eq!(rt; run.output(alloc)?.as_slice(), wanted.as_slice());
    let over = run.end(alloc)?;
    for (entry, number) in over.history.as_slice().iter().zip([5, 4, 0]) {
        assert_eq!(rt; entry.operation, number);
    }
    Ok(())
}

/// What is in the way of the move is told so at each of its stages, and goes on once it has ended.
#[test]
fn a_split_of_what_moves_waits(rt: HostRuntime) -> Result<(), Fail> {
    let alloc = rt.alloc();
    let mut run = moving(alloc)?;
    let turns = [
        (2, Turn::Ask(Verb::Split, 5), REFUSED),
        (1, Turn::Go, Outcome::Going(4)),
        (2, Turn::Ask(Verb::Split, 5), REFUSED),
        (1, Turn::Go, Outcome::Going(4)),
        (2, Turn::Ask(Verb::Split, 5), REFUSED),
        (1, Turn::Go, GOOD),
        (2, Turn::Ask(Verb::Split, 5), Outcome::Going(5)),
        (2, Turn::GoOn, GOOD),
        (1, Turn::List, GOOD),
    ];
    assert_eq!(rt; run.first_other(alloc, &turns)?, None);
    let wanted = b"2 pending 4
2 pending 4
2 pending 4
1 ok
2 ok
1 mappings 3
1 0 5 s/b offline
1 5 10 s/b offline
1 10 20 s/a online
";
    assert_eq!(rt; run.output(alloc)?.as_slice(), wanted.as_slice());
    Ok(())
}

/// Session 2 asks `unshard m s/b`.
fn unshard_there(alloc: Global, run: &mut Run) -> Result<Outcome, Fail> {
    run.ask(alloc, 2, Command::Unshard(map()?, there()?))
}

#[test]
fn each_command_on_what_moves_waits(rt: HostRuntime) -> Result<(), Fail> {
    let alloc = rt.alloc();
    let mut run = moving(alloc)?;
    let turns = [
        (2, Turn::Ask(Verb::Online, 9), REFUSED),
        (2, Turn::Ask(Verb::Delete, 0), REFUSED),
        (2, Turn::Ask(Verb::MoveThere, 0), REFUSED),
    ];
    assert_eq!(rt; run.first_other(alloc, &turns)?, None);
    assert_eq!(rt; unshard_there(alloc, &mut run)?, REFUSED);
    // the refusal comes before: the two ranges have other statuses
    assert_eq!(rt; run.take(alloc, 2, Turn::Ask(Verb::Merge, 0))?, REFUSED);
    assert_eq!(rt;
        run.output(alloc)?.as_slice(),
        b"2 pending 4\n2 pending 4\n2 pending 4\n2 pending 4\n2 not-mergeable\n".as_slice()
    );
    assert_eq!(rt; run.go_on(alloc, 1)?, GOOD);
    Ok(())
}
