//! Operations that are abandoned by a call that failed, while their core goes on.

use event_runs::faults::{FAULT, commit, lost, plan_of};
use event_runs::judge::{are_sound, rows_at};
use event_runs::listing::{listed_anew, logged};
use event_runs::runs::{GOOD, Over, Run};
use event_runs::stores::{store, two_ranges};
use event_runs::turns::{Turn, Verb};
use event_runs::words::{here, map};
use manager_core::manager::Outcome;
use plain_model::commands::Command;
use std::alloc::Global;
use std::test::Fail;
use world_memory::faults::{CallName, PlannedFault};
use world_memory::world::MemoryWorld;

/// A core of two sessions in which these calls fail. Its first commit is that of the log row of `add m 0 10 s/a` by session 1, the second
/// that of its row at the shard, which fails: the operation is abandoned.
fn abandoned(alloc: Global, faults: &[PlannedFault]) -> Result<Run, Fail> {
    let run = Run::start(alloc, store(alloc)?, 2, false)?;
    let run = run.failing(plan_of(alloc, faults)?);
    let turns = [
        (1, Turn::Add(0, 10), Outcome::Going(1)),
        (1, Turn::Go, FAULT),
    ];
    run.after(alloc, &turns)
}

/// The numbers of operations that the entries name.
fn named(alloc: Global, over: &Over) -> Result<Vec<u64>, Fail> {
    let mut numbers = Vec::new(alloc);
    for entry in over.history.as_slice() {
        numbers.push(entry.operation)?;
    }
    Ok(numbers)
}

/// How many operations are logged, and how many rows are at the shard.
fn left(alloc: Global, world: &mut MemoryWorld) -> Result<(usize, usize), Fail> {
    let rows = rows_at(alloc, world, &here()?)?;
    Ok((logged(alloc, world)?, rows.len()))
}

/// Ends the core. Whether its entries name these operations, all images were sound, no operation is logged, and one row is at the shard.
fn ends_with(alloc: Global, run: Run, numbers: &[u64]) -> Result<bool, Fail> {
    let mut over = run.end(alloc)?;
    let named = named(alloc, &over)?;
    Ok(
        named.as_slice() == numbers
            && are_sound(alloc, &over.world)?
            && left(alloc, &mut over.world)? == (0, 1),
    )
}

#[test]
fn it_is_live_in_no_session(rt: HostRuntime) -> Result<(), Fail> {
    let alloc = rt.alloc();
    // nobody waits for it, and it is undone
    let turns = [
        (2, Turn::Add(5, 20), Outcome::Going(2)),
        (2, Turn::GoOn, GOOD),
    ];
    for made in [false, true] {
        let mut run = abandoned(alloc, &[commit(2, made)])?;
        let standing = run.standing(1)?;
        assert!(rt; !standing.going);
        assert_eq!(rt; standing.answered, 1);
        assert_eq!(rt; run.first_other(alloc, &turns)?, None);
        assert!(rt; ends_with(alloc, run, &[1, 2])?);
    }
    Ok(())
}

/// What is left once the range from 20 to 30 was added beside it.
fn added_beside(alloc: Global, made: bool) -> Result<Over, Fail> {
    let turns = [
        (2, Turn::Add(20, 30), Outcome::Going(2)),
        (2, Turn::GoOn, GOOD),
    ];
    let run = abandoned(alloc, &[commit(2, made)])?;
    run.after(alloc, &turns)?.end(alloc)
}

#[test]
fn beside_it_all_goes_on(rt: HostRuntime) -> Result<(), Fail> {
    let alloc = rt.alloc();
    for (made, rows) in [(false, 1), (true, 2)] {
        let mut over = added_beside(alloc, made)?;
        assert!(rt; are_sound(alloc, &over.world)?);
        let (written, logged) = listed_anew(alloc, &over.world)?;
        assert_eq!(rt; logged, 0);
        assert_eq!(rt;
            written.as_slice(),
            b"mappings 1\n20 30 s/a online\n".as_slice()
        );
        // until then it stood
        assert_eq!(rt; left(alloc, &mut over.world)?, (1, rows));
    }
    Ok(())
}

#[test]
fn a_short_command_clears_its_way(rt: HostRuntime) -> Result<(), Fail> {
    let alloc = rt.alloc();
    for made in [false, true] {
        let mut run = abandoned(alloc, &[commit(2, made)])?;
        let command = Command::Unshard(map()?, here()?);
        assert!(rt; run.ask(alloc, 2, command)? == GOOD);
        let mut over = run.end(alloc)?;
        assert!(rt; are_sound(alloc, &over.world)?);
        assert_eq!(rt; left(alloc, &mut over.world)?, (0, 0));
    }
    Ok(())
}

/// The third commit undoes it: where its row stands that row goes, else its log row. The command in whose way it is has tried no log row
/// of its own then, and so its entry names none.
#[test]
fn an_undo_that_fails_is_made_up(rt: HostRuntime) -> Result<(), Fail> {
    let alloc = rt.alloc();
    let turns = [
        (2, Turn::Add(5, 20), FAULT),
        (2, Turn::Add(5, 20), Outcome::Going(2)),
        (2, Turn::GoOn, GOOD),
    ];
    for (first, second) in [(false, false), (false, true), (true, false), (true, true)] {
        let mut run = abandoned(alloc, &[commit(2, first), commit(3, second)])?;
        assert_eq!(rt; run.first_other(alloc, &turns)?, None);
        assert!(rt; ends_with(alloc, run, &[1, 0, 2])?);
    }
    Ok(())
}

/// Two sessions over two ranges, of which the second has a move of the one from 10 on going, by operation 4.
fn moving(alloc: Global) -> Result<Run, Fail> {
    let run = Run::start(alloc, two_ranges(alloc)?, 2, false)?;
    let turns = [
        (2, Turn::Ask(Verb::Offline, 10), Outcome::Going(3)),
        (2, Turn::GoOn, GOOD),
        (2, Turn::Ask(Verb::MoveThere, 10), Outcome::Going(4)),
    ];
    run.after(alloc, &turns)
}

/// The same core after these turns, while this call fails, counted from their beginning on.
fn gone_on(
    alloc: Global,
    run: Run,
    fault: PlannedFault,
    turns: &[(u32, Turn, Outcome)],
) -> Result<Run, Fail> {
    let run = run.failing(plan_of(alloc, &[fault])?);
    run.after(alloc, turns)
}

/// Session 2 has a move going, from which session 1 stays away. The tables are read again by session 1 alone.
#[test]
fn what_another_session_has_going_goes_on(rt: HostRuntime) -> Result<(), Fail> {
    let alloc = rt.alloc();
    // the commit of its log row
    let abandons = [
        (1, Turn::Ask(Verb::Offline, 0), FAULT),
        (2, Turn::GoOn, GOOD),
    ];
    let run = gone_on(alloc, moving(alloc)?, commit(1, true), &abandons)?;
    // the tables can't be read, and then they can
    let reads_again = [
        (1, Turn::Shards, FAULT),
        (1, Turn::Ask(Verb::Offline, 0), Outcome::Going(6)),
        (1, Turn::GoOn, GOOD),
    ];
    let run = gone_on(alloc, run, lost(CallName::Scan, 1), &reads_again)?;
    let over = run.end(alloc)?;
    assert!(rt; are_sound(alloc, &over.world)?);
    let (written, logged) = listed_anew(alloc, &over.world)?;
    assert_eq!(rt; logged, 0);
    assert_eq!(rt;
        written.as_slice(),
        b"mappings 2\n0 10 s/a offline\n10 20 s/b offline\n".as_slice()
    );
    Ok(())
}
