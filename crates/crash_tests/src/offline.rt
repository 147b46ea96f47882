//! An offline that is committed, and whose settling a crash cuts off.
use command_scripts::Line;
use plain_model::finish::RunStatus;
use script_runs::crash_scripts::offline;
use script_runs::images::{first_online_twice, rows_in};
use script_runs::runs::Ran;
use script_runs::told::{run_after, run_lines, wrote};
use std::alloc::Global;
use std::test::Fail;

/// When each command of the script was committed. Its line comes next.
const COMMITS: [u64; 5] = [1, 3, 5, 9, 14];

/// Whether all lines were done and answered as they tell, and no key was online at two sites.
fn went_well(alloc: Global, ran: &Ran, lines: &[Line]) -> Result<bool, Fail> {
    Ok(
        ran.status == RunStatus::Done
            && wrote(alloc, ran, lines)?
            && first_online_twice(alloc, &ran.world)?.is_none(),
    )
}

#[test]
fn an_offline_is_committed_before_its_line(rt: HostRuntime) -> Result<(), Fail> {
    let ran = run_lines(rt.alloc(), offline())?;
    assert!(rt; went_well(rt.alloc(), &ran, offline())?);
    assert_eq!(rt; ran.moment(), 16);
    assert_eq!(rt; ran.history.len(), 5);
    for (entry, commit) in ran.history.as_slice().iter().zip(COMMITS) {
        assert_eq!(rt; entry.moment, commit);
    }
    Ok(())
}

#[test]
fn an_offline_that_is_not_settled_stands(rt: HostRuntime) -> Result<(), Fail> {
    let alloc = rt.alloc();
    let lines = [
        ("list m", "mappings 1\n0 10 s/a offline"),
        ("move m 0 s/b", "ok"),
        ("online m 0", "ok"),
        ("find m 0", "0 10 s/b online"),
    ];
    let ran = run_lines(alloc, offline())?;
    let again = run_after(alloc, &ran.world, 14, &lines)?;
    assert!(rt; went_well(alloc, &again, &lines)?);
    // the row went with the mapping
    let mut left = again.world;
    assert_eq!(rt; rows_in(alloc, &mut left, b"s/a")?, 0);
    assert_eq!(rt; rows_in(alloc, &mut left, b"s/b")?, 1);
    Ok(())
}
