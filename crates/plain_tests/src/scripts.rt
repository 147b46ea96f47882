//! Each script over an empty program.
use crate::asked::{empty, first_wrong};
use command_scripts::{
    Script, byte_keys, cuts, deletes, guids, limits, locks, maps, merges, moves, new_mappings,
    numbers, rows, sessions, statuses, ticks, worked,
};
use std::alloc::Global;
use std::test::Fail;

/// The first script, and the first line of it, that isn't answered as it tells.
fn wrong_of(
    alloc: Global,
    scripts: &[Script],
) -> Result<Option<(&'static str, &'static str)>, Fail> {
    for script in scripts {
        let mut plain = empty(alloc)?;
        if let Some(line) = first_wrong(alloc, &mut plain, script.lines, "")? {
            return Ok(Some((script.about, line)));
        }
    }
    Ok(None)
}

#[test]
fn on_maps(rt: HostRuntime) -> Result<(), Fail> {
    assert_eq!(rt; wrong_of(rt.alloc(), &maps::SCRIPTS)?, None);
    Ok(())
}

#[test]
fn at_limits(rt: HostRuntime) -> Result<(), Fail> {
    assert_eq!(rt; wrong_of(rt.alloc(), &limits::SCRIPTS)?, None);
    Ok(())
}

#[test]
fn on_new_mappings(rt: HostRuntime) -> Result<(), Fail> {
    assert_eq!(rt; wrong_of(rt.alloc(), &new_mappings::SCRIPTS)?, None);
    Ok(())
}

#[test]
fn on_deletes(rt: HostRuntime) -> Result<(), Fail> {
    assert_eq!(rt; wrong_of(rt.alloc(), &deletes::SCRIPTS)?, None);
    Ok(())
}

#[test]
fn on_statuses(rt: HostRuntime) -> Result<(), Fail> {
    assert_eq!(rt; wrong_of(rt.alloc(), &statuses::SCRIPTS)?, None);
    Ok(())
}

#[test]
fn on_moves(rt: HostRuntime) -> Result<(), Fail> {
    assert_eq!(rt; wrong_of(rt.alloc(), &moves::SCRIPTS)?, None);
    Ok(())
}

#[test]
fn on_cuts(rt: HostRuntime) -> Result<(), Fail> {
    assert_eq!(rt; wrong_of(rt.alloc(), &cuts::SCRIPTS)?, None);
    Ok(())
}

#[test]
fn on_merges(rt: HostRuntime) -> Result<(), Fail> {
    assert_eq!(rt; wrong_of(rt.alloc(), &merges::SCRIPTS)?, None);
    Ok(())
}

#[test]
fn on_locks(rt: HostRuntime) -> Result<(), Fail> {
    assert_eq!(rt; wrong_of(rt.alloc(), &locks::SCRIPTS)?, None);
    Ok(())
}

#[test]
fn on_numbers(rt: HostRuntime) -> Result<(), Fail> {
    assert_eq!(rt; wrong_of(rt.alloc(), &numbers::SCRIPTS)?, None);
    Ok(())
}

#[test]
fn on_ticks(rt: HostRuntime) -> Result<(), Fail> {
    assert_eq!(rt; wrong_of(rt.alloc(), &ticks::SCRIPTS)?, None);
    Ok(())
}

#[test]
fn on_guids(rt: HostRuntime) -> Result<(), Fail> {
    assert_eq!(rt; wrong_of(rt.alloc(), &guids::SCRIPTS)?, None);
    Ok(())
}

#[test]
fn on_byte_keys(rt: HostRuntime) -> Result<(), Fail> {
    assert_eq!(rt; wrong_of(rt.alloc(), &byte_keys::SCRIPTS)?, None);
    Ok(())
}

#[test]
fn on_rows(rt: HostRuntime) -> Result<(), Fail> {
    assert_eq!(rt; wrong_of(rt.alloc(), &rows::SCRIPTS)?, None);
    Ok(())
}

#[test]
fn of_sessions(rt: HostRuntime) -> Result<(), Fail> {
    assert_eq!(rt; wrong_of(rt.alloc(), &sessions::SCRIPTS)?, None);
    Ok(())
}

#[test]
fn on_one_thing_each(rt: HostRuntime) -> Result<(), Fail> {
    assert_eq!(rt; wrong_of(rt.alloc(), &worked::SCRIPTS)?, None);
    Ok(())
}
