//! Of each mapping command, every two refusals that stand one behind the other in its row of the command table: where both
//! hold the first is answered, and the second once its cause is gone. The plain program is asked the same.
use crate::asked::wrong_of;
use crate::delete_pairs::{DELETE, ROWS};
use crate::lock_pairs::{LOCK, UNLOCK};
use crate::merge_pairs::{CAUSES, MERGE};
use crate::move_pairs::{MOVE, SITES};
use crate::split_pairs::SPLIT;
use crate::status_pairs::{OFFLINE, ONLINE};
use command_scripts::Line;
use std::test::Fail;

/// What stands at first. Of `m`: 0 to 10 is online and has a token, 10 to 20 is online, 20 to 30 is offline, all at `s/a`.
/// `s/c` is known and no shard, and `s/z` isn't known.
static START: [Line; 9] = [
    ("map m range int", "ok"),
    ("shard m s/a", "ok"),
    ("shard m s/b", "ok"),
    ("table m t", "ok"),
    ("add m 0 10 s/a", "ok"),
    ("lock m 0 00000000-0000-0001-0000-000000000000", "ok"),
    ("add m 10 20 s/a", "ok"),
    ("add m 20 30 s/a", "ok"),
    ("offline m 20", "ok"),
];

#[test]
fn of_delete(rt: HostRuntime) -> Result<(), Fail> {
    assert_eq!(rt; wrong_of(rt.alloc(), &START, &DELETE)?, None);
    Ok(())
}

#[test]
fn of_mappings_with_rows(rt: HostRuntime) -> Result<(), Fail> {
    assert_eq!(rt; wrong_of(rt.alloc(), &START, &ROWS)?, None);
    Ok(())
}

#[test]
fn of_offline(rt: HostRuntime) -> Result<(), Fail> {
    assert_eq!(rt; wrong_of(rt.alloc(), &START, &OFFLINE)?, None);
    Ok(())
}

#[test]
fn of_online(rt: HostRuntime) -> Result<(), Fail> {
    assert_eq!(rt; wrong_of(rt.alloc(), &START, &ONLINE)?, None);
    Ok(())
}

#[test]
fn of_move(rt: HostRuntime) -> Result<(), Fail> {
    assert_eq!(rt; wrong_of(rt.alloc(), &START, &MOVE)?, None);
    Ok(())
}

#[test]
fn of_the_sites_of_move(rt: HostRuntime) -> Result<(), Fail> {
    assert_eq!(rt; wrong_of(rt.alloc(), &START, &SITES)?, None);
    Ok(())
}

#[test]
fn of_split(rt: HostRuntime) -> Result<(), Fail> {
    assert_eq!(rt; wrong_of(rt.alloc(), &START, &SPLIT)?, None);
    Ok(())
}

#[test]
fn of_merge(rt: HostRuntime) -> Result<(), Fail> {
    assert_eq!(rt; wrong_of(rt.alloc(), &START, &MERGE)?, None);
    Ok(())
}

#[test]
fn of_mappings_that_differ(rt: HostRuntime) -> Result<(), Fail> {
    assert_eq!(rt; wrong_of(rt.alloc(), &START, &CAUSES)?, None);
    Ok(())
}

#[test]
fn of_lock(rt: HostRuntime) -> Result<(), Fail> {
    assert_eq!(rt; wrong_of(rt.alloc(), &START, &LOCK)?, None);
    Ok(())
}

#[test]
fn of_unlock(rt: HostRuntime) -> Result<(), Fail> {
    assert_eq!(rt; wrong_of(rt.alloc(), &START, &UNLOCK)?, None);
    Ok(())
}
