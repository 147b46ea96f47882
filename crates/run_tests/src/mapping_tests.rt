//! Scripts on mappings that stand.
use command_scripts::Line;
use plain_model::finish::RunStatus;
use script_runs::told::wrote;
use sqlite_runs::run_told;
use std::alloc::Global;
use std::test::Fail;

/// Whether the lines are answered as they tell, and a refusal is among the answers.
fn is_told(alloc: Global, lines: &[Line]) -> Result<bool, Fail> {
    let ran = run_told(alloc, lines)?;
    Ok(ran.status == RunStatus::Refused && wrote(alloc, &ran, lines)?)
}

#[test]
fn a_range_is_cut_and_joined(rt: HostRuntime) -> Result<(), Fail> {
    let lines = [
        ("map m range int", "ok"),
        ("shard m s/a", "ok"),
        ("add m 0 10 s/a", "ok"),
        ("split m 0", "bad-split"),
        ("split m 4", "ok"),
        ("list m", "mappings 2\n0 4 s/a online\n4 10 s/a online"),
        ("merge m 0", "ok"),
        ("list m", "mappings 1\n0 10 s/a online"),
        ("merge m 0", "not-mergeable"),
    ];
    assert!(rt; is_told(rt.alloc(), &lines)?);
    Ok(())
}

#[test]
fn a_lock_is_opened_by_its_token(rt: HostRuntime) -> Result<(), Fail> {
    let lines = [
        ("map m range int", "ok"),
        ("shard m s/a", "ok"),
        ("add m 0 10 s/a", "ok"),
        ("lock m 3 6f9619ff-8b86-d011-b42d-00cf4fc964ff", "ok"),
        ("offline m 3", "locked"),
        ("offline m 3 6f9619ff-8b86-d011-b42d-00cf4fc964ff", "ok"),
        (
            "find m 3",
            "0 10 s/a offline 6f9619ff-8b86-d011-b42d-00cf4fc964ff",
        ),
        ("lock m 3 6f9619ff-8b86-d011-b42d-00cf4fc964ff", "locked"),
        ("unlock m 3 6f9619ff-8b86-d011-b42d-00cf4fc964ff", "ok"),
        (
            "unlock m 3 6f9619ff-8b86-d011-b42d-00cf4fc964ff",
            "same-status",
        ),
    ];
    assert!(rt; is_told(rt.alloc(), &lines)?);
    Ok(())
}

/// By text the first of the two comes first, by key order the second.
#[test]
fn guids_are_in_key_order(rt: HostRuntime) -> Result<(), Fail> {
    let lines = [
        ("map g range guid", "ok"),
        ("shard g s/a", "ok"),
        (
            "add g 00000000-0000-0000-0000-000000000002 10000000-0000-0000-0000-000000000001 s/a",
            "bad-range",
        ),
        (
            "add g 10000000-0000-0000-0000-000000000001 00000000-0000-0000-0000-000000000002 s/a",
            "ok",
        ),
    ];
    assert!(rt; is_told(rt.alloc(), &lines)?);
    Ok(())
}
