//! The scripts on mappings, of which each line but those on rows is planned as it tells.
use crate::asked::wrong_of;
use command_scripts::{cuts, deletes, locks, merges, moves, statuses};
use std::test::Fail;

#[test]
fn on_deletes(rt: HostRuntime) -> Result<(), Fail> {
    assert_eq!(rt; wrong_of(rt.alloc(), &[], &deletes::SCRIPTS)?, None);
    Ok(())
}

#[test]
fn on_statuses(rt: HostRuntime) -> Result<(), Fail> {
    assert_eq!(rt; wrong_of(rt.alloc(), &[], &statuses::SCRIPTS)?, None);
    Ok(())
}

#[test]
fn on_moves(rt: HostRuntime) -> Result<(), Fail> {
    assert_eq!(rt; wrong_of(rt.alloc(), &[], &moves::SCRIPTS)?, None);
    Ok(())
}

#[test]
fn on_cuts(rt: HostRuntime) -> Result<(), Fail> {
    assert_eq!(rt; wrong_of(rt.alloc(), &[], &cuts::SCRIPTS)?, None);
    Ok(())
}

#[test]
fn on_merges(rt: HostRuntime) -> Result<(), Fail> {
    assert_eq!(rt; wrong_of(rt.alloc(), &[], &merges::SCRIPTS)?, None);
    Ok(())
}

#[test]
fn on_locks(rt: HostRuntime) -> Result<(), Fail> {
    assert_eq!(rt; wrong_of(rt.alloc(), &[], &locks::SCRIPTS)?, None);
    Ok(())
}
