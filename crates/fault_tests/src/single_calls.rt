//! Calls that fail, one by one: what is answered, with which status the run ends, and what is left.
use command_scripts::Line;
use fault_runs::failing::{Failing, cut, logged, lost, made, run_again, run_failing};
use plain_model::finish::RunStatus;
use script_runs::images::rows_in;
use script_runs::runs::{Ran, is, run_from};
use script_runs::told::{empty_stores, locations, wrote};
use std::alloc::Global;
use std::test::Fail;
use world_memory::faults::{CallName, PlannedFault};
use world_memory::source::MemorySource;

/// Runs the lines over empty stores in which these calls fail.
fn run_lost(alloc: Global, faults: &[PlannedFault], lines: &[Line]) -> Result<Failing, Fail> {
    run_failing(alloc, empty_stores(alloc)?, faults, lines)
}

/// Runs the lines over empty stores in which these calls fail. All of them do, all lines are answered as they tell, and
/// the run ends with status 5.
fn run_faulted(alloc: Global, faults: &[PlannedFault], lines: &[Line]) -> Result<Failing, Fail> {
    let failing = run_lost(alloc, faults, lines)?;
    let told = wrote(alloc, &failing.ran, lines)?;
    if told
        && failing.failed as usize == faults.len()
        && failing.ran.status == RunStatus::StoreFault
        && failing.ran.history.len() == lines.len()
    {
        Ok(failing)
    } else {
        Err(Fail::from("the calls that fail aren't told as they must be"))
    }
}

/// Whether a run had all lines done, and answered as they tell.
fn goes_well(alloc: Global, ran: &Ran, lines: &[Line]) -> Result<bool, Fail> {
    Ok(ran.status == RunStatus::Done && wrote(alloc, ran, lines)?)
}

/// Whether a new run has all lines done, and answered as they tell.
fn goes_on(alloc: Global, ran: &Ran, lines: &[Line]) -> Result<bool, Fail> {
    let again = run_again(alloc, ran, lines)?;
    goes_well(alloc, &again, lines)
}

/// Whether the entries name operations of these numbers.
fn is_named(ran: &Ran, numbers: &[u64]) -> bool {
    let entries = ran.history.as_slice();
    entries.len() == numbers.len()
        && entries
            .iter()
            .zip(numbers)
            .all(|(entry, number)| entry.operation == *number)
}

/// How many operations are logged after a run.
fn logged_after(alloc: Global, ran: Ran) -> Result<usize, Fail> {
    let mut world = ran.world;
    logged(alloc, &mut world)
}

/// How many operations stand in its log, and how many local rows at `s/a`.
fn left_after(alloc: Global, ran: Ran) -> Result<(usize, usize), Fail> {
    let mut world = ran.world;
    let operations = logged(alloc, &mut world)?;
    let rows = rows_in(alloc, &mut world, b"s/a")?;
    Ok((operations, rows))
}

// ---- an operation that was abandoned

/// The fourth commit is that of the row at the shard: the log row stands.
#[test]
fn an_abandoned_operation_in_the_way_is_undone(rt: HostRuntime) -> Result<(), Fail> {
    let alloc = rt.alloc();
    let lines = [
        ("map m range int", "ok"),
        ("shard m s/a", "ok"),
        ("add m 0 10 s/a", "fault"),
        ("add m 5 20 s/a", "ok"),
        ("list m", "mappings 1\n5 20 s/a online"),
    ];
    let failing = run_faulted(alloc, &[lost(CallName::Commit, 4)], &lines)?;
    assert!(rt; is_named(&failing.ran, &[0, 0, 1, 2, 0]));
    assert_eq!(rt; logged_after(alloc, failing.ran)?, 0);
    Ok(())
}

#[test]
fn one_in_no_ones_way_waits_for_the_opening(rt: HostRuntime) -> Result<(), Fail> {
    let alloc = rt.alloc();
    let lines = [
        ("map m range int", "ok"),
        ("shard m s/a", "ok"),
        ("add m 0 10 s/a", "fault"),
        ("add m 20 30 s/a", "ok"),
        ("list m", "mappings 1\n20 30 s/a online"),
    ];
    let failing = run_faulted(alloc, &[lost(CallName::Commit, 4)], &lines)?;
    let again = run_again(alloc, &failing.ran, &lines[4..])?;
    assert!(rt; goes_well(alloc, &again, &lines[4..])?);
    assert_eq!(rt; logged_after(alloc, failing.ran)?, 1);
    assert_eq!(rt; logged_after(alloc, again)?, 0);
    Ok(())
}

/// With the fourth commit made the row at the shard stands too, and is undone with it.
#[test]
fn a_row_of_an_abandoned_operation_is_undone(rt: HostRuntime) -> Result<(), Fail> {
    let alloc = rt.alloc();
    let lines = [
        ("map m range int", "ok"),
        ("shard m s/a", "ok"),
        ("add m 0 10 s/a", "fault"),
        ("list m", "mappings 0"),
        ("unshard m s/a", "ok"),
        ("unmap m", "ok"),
    ];
    let before = run_faulted(alloc, &[made(4)], &lines[..4])?;
    assert_eq!(rt; left_after(alloc, before.ran)?, (1, 1));
    let after = run_faulted(alloc, &[made(4)], &lines)?;
    assert_eq!(rt; left_after(alloc, after.ran)?, (0, 0));
    Ok(())
}

/// The fifth commit is that of the mapping.
#[test]
fn a_commit_that_was_made_stands(rt: HostRuntime) -> Result<(), Fail> {
    let alloc = rt.alloc();
    let lines = [
        ("map m range int", "ok"),
        ("shard m s/a", "ok"),
        ("add m 0 10 s/a", "fault"),
    ];
    let list = [("list m", "mappings 1\n0 10 s/a online")];
    let failing = run_faulted(alloc, &[made(5)], &lines)?;
    assert!(rt; goes_on(alloc, &failing.ran, &list)?);
    Ok(())
}

#[test]
fn a_commit_that_was_not_made_is_no_mapping(rt: HostRuntime) -> Result<(), Fail> {
    let alloc = rt.alloc();
    let lines = [
        ("map m range int", "ok"),
        ("shard m s/a", "ok"),
        ("add m 0 10 s/a", "fault"),
        ("find m 5", "no-mapping"),
        ("add m 0 10 s/a", "ok"),
        ("find m 5", "0 10 s/a online"),
    ];
    let failing = run_faulted(alloc, &[lost(CallName::Commit, 5)], &lines)?;
    assert!(rt; is_named(&failing.ran, &[0, 0, 1, 0, 2, 0]));
    Ok(())
}

/// The third commit is that of the log row: the entry names its number, whether it is put or not.
#[test]
fn a_log_row_that_was_tried_is_named(rt: HostRuntime) -> Result<(), Fail> {
    let alloc = rt.alloc();
    let lines = [
        ("map m range int", "ok"),
        ("shard m s/a", "ok"),
        ("add m 0 10 s/a", "fault"),
        ("add m 0 10 s/a", "ok"),
        ("list m", "mappings 1\n0 10 s/a online"),
    ];
    let failing = run_faulted(alloc, &[lost(CallName::Commit, 3)], &lines)?;
    assert!(rt; is_named(&failing.ran, &[0, 0, 1, 1, 0]));
    let failing = run_faulted(alloc, &[made(3)], &lines)?;
    assert!(rt; is_named(&failing.ran, &[0, 0, 1, 2, 0]));
    Ok(())
}

// ---- the tables after a failed commit

#[test]
fn the_tables_are_read_again(rt: HostRuntime) -> Result<(), Fail> {
    let alloc = rt.alloc();
    let stands = [
        ("map m range int", "fault"),
        ("map m range int", "map-exists"),
        ("shard m s/a", "ok"),
    ];
    let _stands = run_faulted(alloc, &[made(1)], &stands)?;
    let goes = [
        ("map m range int", "fault"),
        ("shard m s/a", "no-map"),
        ("map m range int", "ok"),
    ];
    let _goes = run_faulted(alloc, &[lost(CallName::Commit, 1)], &goes)?;
    Ok(())
}

/// The opening of empty stores makes eleven scans, and the reading of the tables five.
#[test]
fn while_the_tables_cannot_be_read_each_command_is_a_fault(rt: HostRuntime) -> Result<(), Fail> {
    let alloc = rt.alloc();
    let lines = [
        ("map m range int", "fault"),
        ("map m range int", "fault"),
        ("list m", "fault"),
        ("map m range int", "ok"),
        ("list m", "mappings 0"),
    ];
    let faults = [
        lost(CallName::Commit, 1),
        lost(CallName::Scan, 12),
        lost(CallName::Scan, 17),
    ];
    // scans 13 to 17 are those of the third command
    let failing = run_faulted(alloc, &faults, &lines)?;
    assert!(rt; is_named(&failing.ran, &[0; 5]));
    Ok(())
}

// ---- the opening

/// Whether a run ended with this status, and nothing was asked, done or written.
fn did_nothing(alloc: Global, ran: &Ran, status: RunStatus) -> Result<bool, Fail> {
    let nothing = ran.history.len() == 0 && ran.moment() == 0;
    Ok(nothing && is(alloc, ran, status, b"")?)
}

#[test]
fn stores_that_cannot_be_opened_are_left(rt: HostRuntime) -> Result<(), Fail> {
    let alloc = rt.alloc();
    let lines = [("map m range int", "")];
    for number in 1..=11 {
        let failing = run_lost(alloc, &[lost(CallName::Scan, number)], &lines)?;
        assert!(rt;
            did_nothing(alloc, &failing.ran, RunStatus::StoreFault)?,
            "scan {number}"
        );
    }
    Ok(())
}

// ---- the output and the input

/// Runs the lines over empty stores in which these calls fail, the last of them a write. The run stops there, with this
/// written and so many entries.
fn run_cut(
    alloc: Global,
    faults: &[PlannedFault],
    lines: &[Line],
    output: &[u8],
    entries: usize,
) -> Result<Failing, Fail> {
    let failing = run_lost(alloc, faults, lines)?;
    let stopped = is(alloc, &failing.ran, RunStatus::WriteFault, output)?;
    if stopped && failing.failed as usize == faults.len() && failing.ran.history.len() == entries {
        Ok(failing)
    } else {
        Err(Fail::from("the failed write doesn't stop the run so"))
    }
}

#[test]
fn a_reply_that_is_cut_short_stops_the_run(rt: HostRuntime) -> Result<(), Fail> {
    let alloc = rt.alloc();
    let lines = [
        ("map m range int", ""),
        ("shard m s/a", ""),
        ("shards m", ""),
    ];
    let failing = run_cut(alloc, &[cut(2, 1)], &lines, b"ok\no", 2)?;
    let shards = [("shards m", "shards 1\ns/a")];
    assert!(rt; goes_on(alloc, &failing.ran, &shards)?);
    Ok(())
}

/// Once all its bytes are written a failed write stops the run too.
#[test]
fn a_reply_that_is_written_whole_may_stop_the_run(rt: HostRuntime) -> Result<(), Fail> {
    let lines = [("map m range int", ""), ("unmap m", "")];
    let _failing = run_cut(rt.alloc(), &[cut(1, 9)], &lines, b"ok\n", 1)?;
    Ok(())
}

/// A failed write outranks a `fault` before it.
#[test]
fn a_failed_write_after_a_fault_is_told(rt: HostRuntime) -> Result<(), Fail> {
    let lines = [("map m range int", ""), ("map m range int", "")];
    let faults = [lost(CallName::Commit, 1), lost(CallName::Write, 2)];
    let _failing = run_cut(rt.alloc(), &faults, &lines, b"fault\n", 2)?;
    Ok(())
}

/// Runs a script from a source whose taking of this number fails.
fn run_untaken(alloc: Global, taking: u32) -> Result<Ran, Fail> {
    let takes = Vec::from_slice(alloc, &[taking])?;
    let script = b"map m range int\n".to_vec(alloc)?;
    let source = MemorySource::new(script).failing(takes);
    let words = locations(alloc)?;
    Ok(run_from(alloc, &words, empty_stores(alloc)?, source))
}

#[test]
fn a_source_that_fails_does_nothing(rt: HostRuntime) -> Result<(), Fail> {
    let alloc = rt.alloc();
    for taking in [1, 2] {
        let ran = run_untaken(alloc, taking)?;
        assert!(rt;
            did_nothing(alloc, &ran, RunStatus::ReadFault)?,
            "taking {taking}"
        );
    }
    Ok(())
}
