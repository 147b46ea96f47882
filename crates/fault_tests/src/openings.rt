//! The opening of what a crash left, with each single call failing.
use crate::kinds::{Kind, MANY, fault_of};
use cell_world::outside::World;
use command_scripts::Line;
use fault_runs::failing::{Failing, expect_right, is_unopened, run_failing};
use plain_model::history::Entry;
use script_runs::fault_scripts::left;
use script_runs::images::crashed;
use script_runs::plain_answers::made_by;
use script_runs::runs::Ran;
use script_runs::told::run_lines;
use std::alloc::Global;
use std::test::Fail;
use world_memory::faults::CallName;
use world_memory::world::MemoryWorld;

/// What is asked afterwards.
const AFTERWARDS: &[Line] = &[("map m range int", ""), ("list m", "")];

/// Opens what a crash left, with the call of this number failing.
fn open_failing(
    alloc: Global,
    kind: Kind,
    number: u32,
    left: &MemoryWorld,
) -> Result<Failing, Fail> {
    let world = crashed(alloc, left, left.moment())?;
    run_failing(alloc, world, &[fault_of(kind, number)], AFTERWARDS)
}

/// Opens what a crash left, with each single call of a kind failing in turn, until none does. In how many runs the stores couldn't be
/// opened.
fn try_openings(
    alloc: Global,
    kind: Kind,
    left: &MemoryWorld,
    before: &[Entry],
) -> Result<u32, Fail> {
    let mut unopened = 0u32;
    for number in 1..MANY {
        let failing = open_failing(alloc, kind, number, left)?;
        expect_right(alloc, before, &failing, AFTERWARDS.len())?;
        if failing.failed == 0 {
            return Ok(unopened);
        }
        if is_unopened(&failing) {
            unopened = unopened.saturating_add(1);
        }
    }
    Err(Fail::from("calls without an end"))
}

/// Opens what a crash at the moment left.
fn try_moment(alloc: Global, kind: Kind, ran: &Ran, moment: u64) -> Result<u32, Fail> {
    let entries = ran.history.as_slice();
    let made = made_by(entries, moment).min(entries.len());
    let left = crashed(alloc, &ran.world, moment)?;
    try_openings(alloc, kind, &left, &entries[..made])
}

/// Opens what a crash at each moment left: in how many runs the stores couldn't be opened.
fn try_moments(alloc: Global, kind: Kind) -> Result<u32, Fail> {
    let ran = run_lines(alloc, left())?;
    let mut unopened = 0u32;
    for moment in 0..=ran.moment() {
        let more = try_moment(alloc, kind, &ran, moment)?;
        unopened = unopened.saturating_add(more);
    }
    Ok(unopened)
}

/// An opening reads by scans alone. The two commands after it make other calls too.
#[test]
fn each_read_of_an_opening_fails(rt: HostRuntime) -> Result<(), Fail> {
    let unopened = try_moments(rt.alloc(), Kind::Lost(CallName::Scan))?;
    assert!(rt; unopened > 10, "{unopened}");
    for call in [CallName::Read, CallName::Floor] {
        assert_eq!(rt; try_moments(rt.alloc(), Kind::Lost(call))?, 0);
    }
    Ok(())
}

#[test]
fn each_commit_of_an_opening_fails(rt: HostRuntime) -> Result<(), Fail> {
    for kind in [Kind::Lost(CallName::Commit), Kind::Made] {
        let unopened = try_moments(rt.alloc(), kind)?;
        assert!(rt; unopened > 10, "{unopened}");
    }
    Ok(())
}
