//! The text of each refusal.
use crate::replies::writes;
use crate::rows::rows_of;
use plain_model::replies::{Refusal, Reply};
use std::test::Fail;

/// Every refusal.
const REFUSALS: [Refusal; 35] = [
    Refusal::NoMap,
    Refusal::MapExists,
    Refusal::MapInUse,
    Refusal::NoLocation,
    Refusal::NotAShard,
    Refusal::ShardExists,
    Refusal::ShardInUse,
    Refusal::WrongKind,
    Refusal::BadRange,
    Refusal::Overlap,
    Refusal::NoMapping,
    Refusal::NotOffline,
    Refusal::SameStatus,
    Refusal::Locked,
    Refusal::BadSplit,
    Refusal::NotMergeable,
    Refusal::RowsPresent,
    Refusal::Offline,
    Refusal::Ended,
    Refusal::NoTable,
    Refusal::TableExists,
    Refusal::Detached,
    Refusal::Unresolved,
    Refusal::Attached,
    Refusal::DifferencesLeft(1),
    Refusal::StrayRows(18_446_744_073_709_551_615),
    Refusal::NoJob,
    Refusal::Absent,
    Refusal::SameShard,
    Refusal::NumberInUse,
    Refusal::Full,
    Refusal::NoConnection,
    Refusal::JobInProgress,
    Refusal::JobRunning,
    Refusal::BadKey,
];

/// Their lines, in the same order, with `|` between them.
const LINES: &[u8] = b"no-map
|map-exists
|map-in-use
|no-location
|not-a-shard
|shard-exists
|shard-in-use
|wrong-kind
|bad-range
|overlap
|no-mapping
|not-offline
|same-status
|locked
|bad-split
|not-mergeable
|rows-present
|offline
|ended
|no-table
|table-exists
|detached
|unresolved
|attached
|differences-left 1
|stray-rows 18446744073709551615
|no-job
|absent
|same-shard
|number-in-use
|full
|no-connection
|job-in-progress
|job-running
|bad-key
";

#[test]
fn refusals(rt: HostRuntime) -> Result<(), Fail> {
    let alloc = rt.alloc();
    let mut refusals = REFUSALS.iter();
    for line in &rows_of(alloc, LINES, b'|')? {
        let refusal = refusals.next().ok_or("too many lines")?;
        assert!(rt; writes(alloc, None, &Reply::Refused(*refusal), line));
    }
    assert!(rt; refusals.next().is_none());
    assert!(rt;
        writes(
            alloc,
            Some(7),
            &Reply::Refused(Refusal::StrayRows(2)),
            b"7 stray-rows 2\n"
        )
    );
    Ok(())
}
