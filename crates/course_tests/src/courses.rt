//! The course of each command that exchanges mappings: what each of its events makes, and what a crash leaves of it.
ghost use Rattle.std.specs.Prelude.{◌≡◌, true};
ghost use Rattle.map_ops.specs.Planning.{is_asked};

use cell_world::outside::World;
use event_runs::commands::{delete, merge, move_to, offline, online, split};
use event_runs::listing::listed;
use event_runs::runs::{GOOD, Run};
use event_runs::stores::{crashed, one_offline, two_ranges};
use event_runs::told_rows::told;
use event_runs::words::there;
use manager_core::manager::Outcome;
use plain_model::commands::Command;
use std::alloc::Global;
use std::test::Fail;
use world_memory::world::MemoryWorld;

/// The course of a command, with each moment counted from before it.
struct Course {
    /// How much has happened after each event, and once the core has ended.
    moments: &'static [u64],
    /// The moment of its commit. The line comes next.
    commit: u64,
    /// What stands at each moment.
    images: &'static [&'static str],
    /// What `list m` writes before the commit, and from it on.
    before: &'static [u8],
    after: &'static [u8],
}

/// Two ranges, the first of them offline.
const ONE_OFFLINE: &[u8] = b"mappings 2\n0 10 s/a offline\n10 20 s/a online\n";

/// Two ranges.
const TWO_RANGES: &[u8] = b"mappings 2\n0 10 s/a online\n10 20 s/a online\n";

/// `move m 3 s/b`: the log row, the old row, the new one at the other site, the commit and its line; both sites are settled.
const MOVE: Course = Course {
    moments: &[1, 2, 3, 5, 7],
    commit: 4,
    images: &[
        "s/a 0 3 plain offline\ns/a 10 2 plain online\n",
        "log 4\ns/a 0 3 plain offline\ns/a 10 2 plain online\n",
        "log 4\ns/a 0 3 old 4 offline\ns/a 10 2 plain online\n",
        "log 4\ns/a 0 3 old 4 offline\ns/a 10 2 plain online\ns/b 0 4 new offline\n",
        "s/a 0 3 old 4 offline\ns/a 10 2 plain online\ns/b 0 4 new offline\n",
        "s/a 0 3 old 4 offline\ns/a 10 2 plain online\ns/b 0 4 new offline\n",
        "s/a 10 2 plain online\ns/b 0 4 new offline\n",
        "s/a 10 2 plain online\ns/b 0 4 plain offline\n",
    ],
    before: ONE_OFFLINE,
    after: b"mappings 2\n0 10 s/b offline\n10 20 s/a online\n",
};

/// `split m 14`: the log row, the old row and the new ones beside it, the commit and its line; the site is settled.
const SPLIT: Course = Course {
    moments: &[1, 2, 4, 5],
    commit: 3,
    images: &[
        "s/a 0 1 plain online\ns/a 10 2 plain online\n",
        "log 3\ns/a 0 1 plain online\ns/a 10 2 plain online\n",
        "log 3\ns/a 0 1 plain online\ns/a 10 2 old 3 online\ns/a 10 3 new online\ns/a 14 3 new online\n",
        "s/a 0 1 plain online\ns/a 10 2 old 3 online\ns/a 10 3 new online\ns/a 14 3 new online\n",
        "s/a 0 1 plain online\ns/a 10 2 old 3 online\ns/a 10 3 new online\ns/a 14 3 new online\n",
        "s/a 0 1 plain online\ns/a 10 3 plain online\ns/a 14 3 plain online\n",
    ],
    before: TWO_RANGES,
    after: b"mappings 3\n0 10 s/a online\n10 14 s/a online\n14 20 s/a online\n",
};

/// `merge m 3`: as a split, with two old rows and one new one.
const MERGE: Course = Course {
    moments: &[1, 2, 4, 5],
    commit: 3,
    images: &[
        "s/a 0 1 plain online\ns/a 10 2 plain online\n",
        "log 3\ns/a 0 1 plain online\ns/a 10 2 plain online\n",
        "log 3\ns/a 0 1 old 3 online\ns/a 0 3 new online\ns/a 10 2 old 3 online\n",
        "s/a 0 1 old 3 online\ns/a 0 3 new online\ns/a 10 2 old 3 online\n",
        "s/a 0 1 old 3 online\ns/a 0 3 new online\ns/a 10 2 old 3 online\n",
        "s/a 0 3 plain online\n",
    ],
    before: TWO_RANGES,
    after: b"mappings 1\n0 20 s/a online\n",
};

/// `offline m 13`: the new row has the other status.
const OFFLINE: Course = Course {
    moments: &[1, 2, 4, 5],
    commit: 3,
    images: &[
        "s/a 0 1 plain online\ns/a 10 2 plain online\n",
        "log 3\ns/a 0 1 plain online\ns/a 10 2 plain online\n",
        "log 3\ns/a 0 1 plain online\ns/a 10 2 old 3 online\ns/a 10 3 new offline\n",
        "s/a 0 1 plain online\ns/a 10 2 old 3 online\ns/a 10 3 new offline\n",
        "s/a 0 1 plain online\ns/a 10 2 old 3 online\ns/a 10 3 new offline\n",
        "s/a 0 1 plain online\ns/a 10 3 plain offline\n",
    ],
    before: TWO_RANGES,
    after: b"mappings 2\n0 10 s/a online\n10 20 s/a offline\n",
};

/// `online m 3`.
const ONLINE: Course = Course {
    moments: &[1, 2, 4, 5],
    commit: 3,
    images: &[
        "s/a 0 3 plain offline\ns/a 10 2 plain online\n",
        "log 4\ns/a 0 3 plain offline\ns/a 10 2 plain online\n",
        "log 4\ns/a 0 3 old 4 offline\ns/a 0 4 new online\ns/a 10 2 plain online\n",
        "s/a 0 3 old 4 offline\ns/a 0 4 new online\ns/a 10 2 plain online\n",
        "s/a 0 3 old 4 offline\ns/a 0 4 new online\ns/a 10 2 plain online\n",
        "s/a 0 4 plain online\ns/a 10 2 plain online\n",
    ],
    before: ONE_OFFLINE,
    after: TWO_RANGES,
};

/// `delete m 3`: no row is new.
const DELETE: Course = Course {
    moments: &[1, 2, 4, 5],
    commit: 3,
    images: &[
        "s/a 0 3 plain offline\ns/a 10 2 plain online\n",
        "log 4\ns/a 0 3 plain offline\ns/a 10 2 plain online\n",
        "log 4\ns/a 0 3 old 4 offline\ns/a 10 2 plain online\n",
        "s/a 0 3 old 4 offline\ns/a 10 2 plain online\n",
        "s/a 0 3 old 4 offline\ns/a 10 2 plain online\n",
        "s/a 10 2 plain online\n",
    ],
    before: ONE_OFFLINE,
    after: b"mappings 1\n10 20 s/a online\n",
};

/// Asks the command, and goes on with it to its end. Adds how much has happened after each event.
fn go_whole(
    alloc: Global,
    run: &mut Run,
    command: Command,
    moments: &mut Vec<u64>,
) -> Result<Outcome, Fail>
    requires { is_asked command ≡ true }
{
    let mut outcome = run.ask(alloc, 1, command)?;
    moments.push(run.moment())?;
    for _ in 0..3 {
        if let Outcome::Going(_) = outcome {
            outcome = run.go(alloc, 1)?;
            moments.push(run.moment())?;
        }
    }
    Ok(outcome)
}

/// How much has happened after each event of the command, and once the core has ended.
fn run_whole(
    alloc: Global,
    world: MemoryWorld,
    command: Command,
) -> Result<(Vec<u64>, MemoryWorld), Fail>
    requires { is_asked command ≡ true }
{
    let mut run = Run::start(alloc, world, 1, false)?;
    let mut moments = Vec::new(alloc);
    if go_whole(alloc, &mut run, command, &mut moments)? != GOOD {
        return Err(Fail::from("it isn't done"));
    }
    let over = run.end(alloc)?;
    moments.push(over.world.moment())?;
    Ok((moments, over.world))
}

/// Whether what stands after a crash at the moment is the image that the course has there.
fn is_image(alloc: Global, world: &MemoryWorld, moment: u64, image: &str) -> Result<bool, Fail> {
    let mut left = crashed(alloc, world, moment)?;
    Ok(told(alloc, &mut left)?.as_str() == image)
}

/// What stands once a new run has opened the stores that a crash at the moment leaves.
fn told_once_opened(alloc: Global, world: &MemoryWorld, moment: u64) -> Result<String, Fail> {
    let run = Run::start(alloc, crashed(alloc, world, moment)?, 1, false)?;
    let mut over = run.end(alloc)?;
    told(alloc, &mut over.world)
}

/// Whether a crash at the moment leaves what the course tells: what a new run lists, and the rows once it has opened the stores. Before the
/// commit they are those of the beginning.
fn leaves(
    alloc: Global,
    world: &MemoryWorld,
    moment: u64,
    course: &Course,
    image: &str,
) -> Result<bool, Fail> {
    let (written, logged) = listed(alloc, crashed(alloc, world, moment)?)?;
    let opened = told_once_opened(alloc, world, moment)?;
    let undone = moment < course.commit;
    let first = *course.images.first().ok_or("no image")?;
    let rows = if undone { first } else { image };
    let list = if undone { course.before } else { course.after };
    Ok(logged == 0 && written.as_slice() == list && opened.as_str() == rows)
}

/// The first moment at which something else stands than the course tells, or after whose crash something else is left.
fn first_wrong(alloc: Global, world: &MemoryWorld, course: &Course) -> Result<Option<u64>, Fail> {
    for (moment, image) in course.images.iter().enumerate() {
        let moment = moment as u64;
        if !is_image(alloc, world, moment, image)?
            || !leaves(alloc, world, moment, course, image)?
        {
            return Ok(Some(moment));
        }
    }
    Ok(None)
}

/// Whether the command takes the course, from its first event to the end of the core.
fn takes(alloc: Global, world: MemoryWorld, command: Command, course: &Course) -> Result<bool, Fail>
    requires { is_asked command ≡ true }
{
    let (moments, world) = run_whole(alloc, world, command)?;
    Ok(
        moments.as_slice() == course.moments
            && world.moment() < course.images.len() as u64
            && first_wrong(alloc, &world, course)?.is_none(),
    )
}

#[test]
fn a_move_marks_one_site_after_the_other(rt: HostRuntime) -> Result<(), Fail> {
    let alloc = rt.alloc();
    let command = move_to(b"3", there()?)?;
    assert!(rt; takes(alloc, one_offline(alloc)?, command, &MOVE)?);
    Ok(())
}

#[test]
fn a_split_marks_its_site_once(rt: HostRuntime) -> Result<(), Fail> {
    let alloc = rt.alloc();
    assert!(rt; takes(alloc, two_ranges(alloc)?, split(b"14", None)?, &SPLIT)?);
    Ok(())
}

#[test]
fn a_merge_marks_its_site_once(rt: HostRuntime) -> Result<(), Fail> {
    let alloc = rt.alloc();
    assert!(rt; takes(alloc, two_ranges(alloc)?, merge(b"3")?, &MERGE)?);
    Ok(())
}

#[test]
fn a_status_marks_its_site_once(rt: HostRuntime) -> Result<(), Fail> {
    let alloc = rt.alloc();
    assert!(rt; takes(alloc, two_ranges(alloc)?, offline(b"13")?, &OFFLINE)?);
    assert!(rt; takes(alloc, one_offline(alloc)?, online(b"3")?, &ONLINE)?);
    Ok(())
}

#[test]
fn a_delete_marks_its_site_once(rt: HostRuntime) -> Result<(), Fail> {
    let alloc = rt.alloc();
    assert!(rt; takes(alloc, one_offline(alloc)?, delete(b"3")?, &DELETE)?);
    Ok(())
}
