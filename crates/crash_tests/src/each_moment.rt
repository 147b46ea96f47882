//! Scripts that crash at each moment: what a new run lists, and how it goes on.
use command_scripts::Line;
use plain_map::asking::PlainMap;
use plain_model::history::Entry;
use script_runs::crash_scripts::{points, ranges, rounds};
use script_runs::images::first_online_twice;
use script_runs::plain_answers::{made_by, plain_list, plain_map, plainly};
use script_runs::runs::Ran;
use script_runs::told::{run_after, run_lines, wrote};
use std::alloc::Global;
use std::test::Fail;

/// Asks the plain map the commands of the entries from the one number up to the other.
fn ask_more(
    alloc: Global,
    plain: &mut PlainMap,
    entries: &[Entry],
    asked: usize,
    made: usize,
) -> Result<(), Fail> {
    for entry in entries.iter().take(made).skip(asked) {
        let _answer = plainly(alloc, plain, &entry.command)?;
    }
    Ok(())
}

/// Whether a new run after a crash at the moment lists what the plain map lists.
fn lists_alike(alloc: Global, ran: &Ran, moment: u64, plain: &mut PlainMap) -> Result<bool, Fail> {
    let again = run_after(alloc, &ran.world, moment, &[("list m", "")])?;
    let listed = plain_list(alloc, plain)?;
    Ok(again.output(alloc)?.as_slice() == listed.as_slice())
}

/// The first moment after whose crash a new run lists something else than the plain map after the commands that were
/// answered by then.
fn first_unlike(alloc: Global, ran: &Ran) -> Result<Option<u64>, Fail> {
    let entries = ran.history.as_slice();
    let mut plain = plain_map(alloc)?;
    let mut asked = 0;
    for moment in 0..=ran.moment() {
        let made = made_by(entries, moment);
        ask_more(alloc, &mut plain, entries, asked, made)?;
        asked = made;
        if !lists_alike(alloc, ran, moment, &mut plain)? {
            return Ok(Some(moment));
        }
    }
    Ok(None)
}

/// The first moment after whose crash a new run of the other lines is answered otherwise.
fn first_astray(alloc: Global, ran: &Ran, lines: &[Line]) -> Result<Option<u64>, Fail> {
    for moment in 0..=ran.moment() {
        let made = made_by(ran.history.as_slice(), moment).min(lines.len());
        let left = &lines[made..];
        let again = run_after(alloc, &ran.world, moment, left)?;
        if !wrote(alloc, &again, left)? {
            return Ok(Some(moment));
        }
    }
    Ok(None)
}

/// Whether the lines are answered as they tell, no key is online at two sites, and after a crash at each moment a new run
/// lists what the plain map lists.
fn is_kept(alloc: Global, lines: &[Line]) -> Result<bool, Fail> {
    let ran = run_lines(alloc, lines)?;
    Ok(
        wrote(alloc, &ran, lines)?
            && first_online_twice(alloc, &ran.world)?.is_none()
            && first_unlike(alloc, &ran)?.is_none(),
    )
}

/// Whether after a crash at each moment the lines that weren't answered by then are answered as if nothing had been.
fn goes_on(alloc: Global, lines: &[Line]) -> Result<bool, Fail> {
    let ran = run_lines(alloc, lines)?;
    Ok(first_astray(alloc, &ran, lines)?.is_none())
}

#[test]
fn a_crash_keeps_what_became_of_ranges(rt: HostRuntime) -> Result<(), Fail> {
    assert!(rt; is_kept(rt.alloc(), ranges())?);
    Ok(())
}

#[test]
fn a_crash_keeps_where_a_mapping_went(rt: HostRuntime) -> Result<(), Fail> {
    assert!(rt; is_kept(rt.alloc(), rounds())?);
    Ok(())
}

#[test]
fn a_crash_keeps_what_became_of_points(rt: HostRuntime) -> Result<(), Fail> {
    assert!(rt; is_kept(rt.alloc(), points())?);
    Ok(())
}

#[test]
fn ranges_go_on_after_a_crash(rt: HostRuntime) -> Result<(), Fail> {
    assert!(rt; goes_on(rt.alloc(), ranges())?);
    Ok(())
}

#[test]
fn a_mapping_goes_on_after_a_crash(rt: HostRuntime) -> Result<(), Fail> {
    assert!(rt; goes_on(rt.alloc(), rounds())?);
    Ok(())
}

#[test]
fn points_go_on_after_a_crash(rt: HostRuntime) -> Result<(), Fail> {
    assert!(rt; goes_on(rt.alloc(), points())?);
    Ok(())
}
