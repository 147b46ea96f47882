//! Scripts of all built commands in which each single call fails, and shorter ones in which two do. Each run has its causes, writes the
//! replies of its history and no others, and leaves what the plain map lists that went as the history tells; each command that was
//! answered `fault` is done or not.
use crate::kinds::{Kind, MANY, OF_STORES, WRITES, fault_of};
use command_scripts::Line;
use fault_runs::failing::{expect_right, run_failing};
use script_runs::fault_scripts::{points, ranges, short};
use script_runs::told::{empty_stores, wrote};
use std::alloc::Global;
use std::test::Fail;
use world_memory::faults::{CallName, PlannedFault};

/// Runs the lines with the call of this number failing, and tells whether it came to that.
fn try_one(alloc: Global, kind: Kind, number: u32, lines: &[Line]) -> Result<bool, Fail> {
    let faults = [fault_of(kind, number)];
    let failing = run_failing(alloc, empty_stores(alloc)?, &faults, lines)?;
    expect_right(alloc, &[], &failing, lines.len())?;
    let failed = failing.failed == 1;
    if failed || (failing.failed == 0 && wrote(alloc, &failing.ran, lines)?) {
        Ok(failed)
    } else {
        Err(Fail::from("more calls failed, or the lines are answered otherwise"))
    }
}

/// Runs the lines with each single call of a kind failing in turn, until none does. How many did.
fn try_each(alloc: Global, kind: Kind, lines: &[Line]) -> Result<u32, Fail> {
    for number in 1..MANY {
        if !try_one(alloc, kind, number, lines)? {
            return Ok(number - 1);
        }
    }
    Err(Fail::from("calls without an end"))
}

#[test]
fn each_read_of_a_range_script_fails(rt: HostRuntime) -> Result<(), Fail> {
    for call in [CallName::Read, CallName::Floor, CallName::Scan] {
        let calls = try_each(rt.alloc(), Kind::Lost(call), ranges())?;
        assert!(rt; calls > 10, "only {calls}");
    }
    Ok(())
}

#[test]
fn each_search_for_a_row_fails(rt: HostRuntime) -> Result<(), Fail> {
    let search = Kind::Lost(CallName::NextKey);
    assert_eq!(rt; try_each(rt.alloc(), search, ranges())?, 2);
    assert_eq!(rt; try_each(rt.alloc(), search, points())?, 3);
    Ok(())
}

#[test]
fn each_commit_of_a_range_script_fails(rt: HostRuntime) -> Result<(), Fail> {
    for kind in [Kind::Lost(CallName::Commit), Kind::Made] {
        let calls = try_each(rt.alloc(), kind, ranges())?;
        assert!(rt; calls > 40, "only {calls}");
    }
    Ok(())
}

#[test]
fn each_write_of_a_range_script_fails(rt: HostRuntime) -> Result<(), Fail> {
    for kind in WRITES {
        let calls = try_each(rt.alloc(), kind, ranges())?;
        assert_eq!(rt; calls as usize, ranges().len());
    }
    Ok(())
}

#[test]
fn each_call_of_a_point_script_fails(rt: HostRuntime) -> Result<(), Fail> {
    for kind in OF_STORES {
        let calls = try_each(rt.alloc(), kind, points())?;
        assert!(rt; calls > 10, "only {calls}");
    }
    Ok(())
}

#[test]
fn each_write_of_a_point_script_fails(rt: HostRuntime) -> Result<(), Fail> {
    for kind in WRITES {
        let calls = try_each(rt.alloc(), kind, points())?;
        assert_eq!(rt; calls as usize, points().len());
    }
    Ok(())
}

// ---- two calls

/// The faults of a kind: as many as the lines make calls, and some more, since a call that fails may lead to others.
fn faults_of(alloc: Global, kind: Kind, lines: &[Line]) -> Result<Vec<PlannedFault>, Fail> {
    let most = try_each(alloc, kind, lines)?.saturating_add(5);
    let mut faults = Vec::new(alloc);
    for number in 1..=most {
        faults.push(fault_of(kind, number))?;
    }
    Ok(faults)
}

/// Runs the lines with these two faults, and tells whether both calls failed.
fn try_two(alloc: Global, faults: [PlannedFault; 2], lines: &[Line]) -> Result<bool, Fail> {
    let failing = run_failing(alloc, empty_stores(alloc)?, &faults, lines)?;
    expect_right(alloc, &[], &failing, lines.len())?;
    Ok(failing.failed == 2)
}

/// Runs the lines with each fault of the one list and each of the other. In how many runs two calls failed.
fn try_both(
    alloc: Global,
    first: &[PlannedFault],
    second: &[PlannedFault],
    lines: &[Line],
) -> Result<u32, Fail> {
    let mut both = 0u32;
    for one in first {
        for other in second {
            if try_two(alloc, [*one, *other], lines)? {
                both = both.saturating_add(1);
            }
        }
    }
    Ok(both)
}

/// Lets two calls fail, one of a kind and one of another. A failed write ends the run: two of them never fail.
fn try_kinds(alloc: Global, first: Kind, second: Kind) -> Result<u32, Fail> {
    let first = faults_of(alloc, first, short())?;
    let second = faults_of(alloc, second, short())?;
    try_both(alloc, first.as_slice(), second.as_slice(), short())
}

#[test]
fn two_commits_fail(rt: HostRuntime) -> Result<(), Fail> {
    let kinds = [Kind::Lost(CallName::Commit), Kind::Made];
    for first in kinds {
        for second in kinds {
            let both = try_kinds(rt.alloc(), first, second)?;
            assert!(rt; both > 20, "{both}");
        }
    }
    Ok(())
}

#[test]
fn a_commit_and_a_read_fail(rt: HostRuntime) -> Result<(), Fail> {
    for first in [Kind::Lost(CallName::Commit), Kind::Made] {
        for second in [CallName::Read, CallName::Floor, CallName::Scan] {
            let both = try_kinds(rt.alloc(), first, Kind::Lost(second))?;
            assert!(rt; both > 20, "{both}");
        }
    }
    Ok(())
}

#[test]
fn two_reads_fail(rt: HostRuntime) -> Result<(), Fail> {
    let calls = [CallName::Read, CallName::Floor, CallName::Scan];
    for first in calls {
        for second in calls {
            let both = try_kinds(rt.alloc(), Kind::Lost(first), Kind::Lost(second))?;
            assert!(rt; both > 10, "{both}");
        }
    }
    Ok(())
}

#[test]
fn a_call_and_a_write_fail(rt: HostRuntime) -> Result<(), Fail> {
    for first in OF_STORES {
        let both = try_kinds(rt.alloc(), first, Kind::Cut(1))?;
        assert!(rt; both > 0, "{both}");
    }
    Ok(())
}
