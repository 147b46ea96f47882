//! A core of which no settling succeeds: nobody is told, the marks are left, and a later local step sweeps those in its way.
ghost use Rattle.std.specs.Prelude.{◌≡◌, IfOk, true};
ghost use Rattle.map_ops.specs.Planning.{is_asked};

use cell_world::cells::{Cell, Mark};
use event_runs::commands::{add, delete, merge, move_to, offline, online, split};
use event_runs::faults::{commit, lost, plan_of};
use event_runs::judge::{are_sound, rows_at};
use event_runs::listing::listed_anew;
use event_runs::runs::{GOOD, Over, Run};
use event_runs::stores::store;
use event_runs::words::{here, there};
use manager_core::opening::Tail;
use plain_model::commands::Command;
use std::alloc::Global;
use std::test::Fail;
use world_memory::faults::{CallName, PlannedFault};
use world_memory::world::MemoryWorld;

/// How many long commands are asked.
const COMMANDS: u32 = 12;

/// The long command of this place. Each leaves something to settle.
fn asked(place: u32) -> Result<Command, Fail>
    ensures { IfOk result (λ command. is_asked command ≡ true) }
{
    match place {
        0 => add(b"0", b"10", here()?),
        1 => split(b"4", None),
        2 => offline(b"4"),
        3 => move_to(b"4", there()?),
        4 => online(b"4"),
        5 => offline(b"0"),
        6 => move_to(b"0", there()?),
        7 => online(b"0"),
        8 => merge(b"0"),
        9 => offline(b"0"),
        10 => delete(b"0"),
        _ => add(b"2", b"7", there()?),
    }
}

fn is_marked(row: &Cell) -> bool {
    match row {
        Cell::Local(row) => row.mark != Mark::Plain,
        _ => false,
    }
}

/// How many rows have a mark.
fn marked(alloc: Global, world: &mut MemoryWorld) -> Result<usize, Fail> {
    let ours = rows_at(alloc, world, &here()?)?;
    let theirs = rows_at(alloc, world, &there()?)?;
    let both = ours.iter().chain(theirs.iter());
    Ok(both.filter(|row| is_marked(row)).count())
}

/// What the core came to.
#[derive(Drop)]
struct Came {
    over: Over,
    tail: Tail,
    /// After how many of the commands' beginnings, at each of which one was to be settled, rows had marks.
    unsettled: u32,
}

/// Asks the long command of this place, and goes on until it is done. Whether rows had marks after its beginning.
fn finds_marks(alloc: Global, run: &mut Run, place: u32) -> Result<bool, Fail> {
    let _begun = run.ask(alloc, 1, asked(place)?)?;
    let marks = marked(alloc, &mut run.image(alloc)?)?;
    if run.go_on(alloc, 1)? == GOOD {
        Ok(marks > 0)
    } else {
        Err(Fail::from("a settling that failed was told"))
    }
}

/// Asks the long commands, with this call failing in each settling. It is counted from each command's beginning on.
fn run_unsettled(alloc: Global, fault: PlannedFault) -> Result<Came, Fail> {
    let mut run = Run::start(alloc, store(alloc)?, 1, false)?;
    let mut unsettled = 0u32;
    for place in 0..COMMANDS {
        if finds_marks(alloc, &mut run, place)? {
            unsettled = unsettled.saturating_add(1);
        }
        run = run.failing(plan_of(alloc, &[fault])?);
    }
    let (over, tail) = run.stop(alloc);
    Ok(Came {
        over,
        tail,
        unsettled,
    })
}

/// Whether all images were sound, and a new run lists the one mapping that stands.
fn is_right(alloc: Global, over: &Over) -> Result<bool, Fail> {
    let sound = are_sound(alloc, &over.world)?;
    let (written, logged) = listed_anew(alloc, &over.world)?;
    Ok(sound && logged == 0 && written.as_slice() == b"mappings 1\n2 7 s/b online\n".as_slice())
}

/// Neither reads the first call of a settling, nor is its first commit made.
#[test]
fn marks_that_are_left_are_in_no_ones_way(rt: HostRuntime) -> Result<(), Fail> {
    let alloc = rt.alloc();
    for fault in [lost(CallName::Read, 1), commit(1, false)] {
        let came = run_unsettled(alloc, fault)?;
        assert!(rt; came.tail == Tail::Store);
        assert_eq!(rt; came.unsettled, COMMANDS - 1);
        assert!(rt; is_right(alloc, &came.over)?);
    }
    Ok(())
}

/// The first commit of each settling is made, and fails: at another site the marks are left.
#[test]
fn a_settling_that_failed_once_it_was_made_is_no_harm(rt: HostRuntime) -> Result<(), Fail> {
    let alloc = rt.alloc();
    let came = run_unsettled(alloc, commit(1, true))?;
    assert!(rt; came.tail == Tail::Store);
    assert!(rt; came.unsettled > 0);
    assert!(rt; is_right(alloc, &came.over)?);
    Ok(())
}
