//! The scripts that other programs are asked too, all of whose commands are built, and those of runs that crash or fail.
use command_scripts::{
    Line, Script, byte_keys, cuts, guids, limits, locks, maps, merges, new_mappings, numbers,
    statuses, ticks,
};
use plain_model::finish::RunStatus;
use script_runs::told::wrote;
use script_runs::{crash_scripts, fault_scripts};
use sqlite_runs::run_told;
use std::alloc::Global;
use std::test::Fail;

/// Whether the lines are run to their end, and answered as they tell.
fn is_told(alloc: Global, lines: &[Line]) -> Result<bool, Fail> {
    let ran = run_told(alloc, lines)?;
    let ended = ran.status == RunStatus::Done || ran.status == RunStatus::Refused;
    Ok(ended && wrote(alloc, &ran, lines)?)
}

/// The first script that isn't run to its end, or isn't answered as it tells.
fn first_wrong(alloc: Global, scripts: &[Script]) -> Result<Option<&'static str>, Fail> {
    for script in scripts {
        if !is_told(alloc, script.lines)? {
            return Ok(Some(script.about));
        }
    }
    Ok(None)
}

#[test]
fn maps_are_answered_as_told(rt: HostRuntime) -> Result<(), Fail> {
    assert_eq!(rt; first_wrong(rt.alloc(), &maps::SCRIPTS)?, None);
    Ok(())
}

#[test]
fn limits_are_answered_as_told(rt: HostRuntime) -> Result<(), Fail> {
    assert_eq!(rt; first_wrong(rt.alloc(), &limits::SCRIPTS)?, None);
    Ok(())
}

#[test]
fn new_mappings_are_answered_as_told(rt: HostRuntime) -> Result<(), Fail> {
    assert_eq!(rt; first_wrong(rt.alloc(), &new_mappings::SCRIPTS)?, None);
    Ok(())
}

#[test]
fn statuses_are_answered_as_told(rt: HostRuntime) -> Result<(), Fail> {
    assert_eq!(rt; first_wrong(rt.alloc(), &statuses::SCRIPTS)?, None);
    Ok(())
}

#[test]
fn cuts_are_answered_as_told(rt: HostRuntime) -> Result<(), Fail> {
    assert_eq!(rt; first_wrong(rt.alloc(), &cuts::SCRIPTS)?, None);
    Ok(())
}

#[test]
fn merges_are_answered_as_told(rt: HostRuntime) -> Result<(), Fail> {
    assert_eq!(rt; first_wrong(rt.alloc(), &merges::SCRIPTS)?, None);
    Ok(())
}

#[test]
fn locks_are_answered_as_told(rt: HostRuntime) -> Result<(), Fail> {
    assert_eq!(rt; first_wrong(rt.alloc(), &locks::SCRIPTS)?, None);
    Ok(())
}

#[test]
fn numbers_are_answered_as_told(rt: HostRuntime) -> Result<(), Fail> {
    assert_eq!(rt; first_wrong(rt.alloc(), &numbers::SCRIPTS)?, None);
    Ok(())
}

#[test]
fn ticks_are_answered_as_told(rt: HostRuntime) -> Result<(), Fail> {
    assert_eq!(rt; first_wrong(rt.alloc(), &ticks::SCRIPTS)?, None);
    Ok(())
}

#[test]
fn guids_are_answered_as_told(rt: HostRuntime) -> Result<(), Fail> {
    assert_eq!(rt; first_wrong(rt.alloc(), &guids::SCRIPTS)?, None);
    Ok(())
}

#[test]
fn byte_keys_are_answered_as_told(rt: HostRuntime) -> Result<(), Fail> {
    assert_eq!(rt; first_wrong(rt.alloc(), &byte_keys::SCRIPTS)?, None);
    Ok(())
}

#[test]
fn scripts_that_crash_are_answered_as_told(rt: HostRuntime) -> Result<(), Fail> {
    for lines in [
        crash_scripts::offline(),
        crash_scripts::ranges(),
        crash_scripts::rounds(),
        crash_scripts::points(),
    ] {
        assert!(rt; is_told(rt.alloc(), lines)?);
    }
    Ok(())
}

#[test]
fn scripts_that_fail_are_answered_as_told(rt: HostRuntime) -> Result<(), Fail> {
    for lines in [
        fault_scripts::ranges(),
        fault_scripts::points(),
        fault_scripts::short(),
        fault_scripts::left(),
    ] {
        assert!(rt; is_told(rt.alloc(), lines)?);
    }
    Ok(())
}
