//! Jobs.
ghost use Rattle.record_form.specs.Reading.{Gives};
ghost use Rattle.record_form.specs.Kinds.{phase_at, course_at, job_at, extra_at};

use crate::locations::location;
use crate::names::name;
use crate::numbers::{byte, number_4};
use crate::spans::{end, key};
use crate::stops::Stop;
use cell_world::locations::Location;
use cell_world::operations::{Extra, JobRow, Phase};
use cell_world::spans::High;

/// From where to where a job moves, and how far it has come.
#[derive(Clone, Copy)]
pub(crate) struct JobCourse {
    source: Location,
    target: Location,
    batch: u32,
    cursor: High,
    phase: Phase,
}

/// A phase: 00 Idle, 01 and a high end for Copying, 02 and one for Moved.
#[tactic(auto, unfolding(crate::specs::Kinds::phase_at))]
fn phase(input: &mut &[u8]) -> Result<Phase, Stop>
    ensures { Gives phase_at input.old.now input.new.now result }
{
    match byte(input, 0, 2)? {
        0 => Ok(Phase::Idle),
        1 => Ok(Phase::Copying(end(input)?)),
        _ => Ok(Phase::Moved(end(input)?)),
    }
}

/// The second half of a job: its source, target, batch in 4 bytes, cursor and phase.
#[tactic(auto, unfolding(crate::specs::Kinds::course_at))]
fn course(input: &mut &[u8]) -> Result<JobCourse, Stop>
    ensures { Gives course_at input.old.now input.new.now result }
{
    let source = location(input)?;
    let target = location(input)?;
    let batch = number_4(input)?;
    let cursor = end(input)?;
    let phase = phase(input)?;
    Ok(JobCourse {
        source,
        target,
        batch,
        cursor,
        phase,
    })
}

/// A job: its number in 4 bytes, map, low key and high end, and its course.
#[tactic(auto, unfolding(crate::specs::Kinds::job_at))]
pub(crate) fn job(input: &mut &[u8]) -> Result<JobRow, Stop>
    ensures { Gives job_at input.old.now input.new.now result }
{
    let number = number_4(input)?;
    let map = name(input)?;
    let low = key(input)?;
    let high = end(input)?;
    let course = course(input)?;
    Ok(JobRow {
        number,
        map,
        low,
        high,
        source: course.source,
        target: course.target,
        batch: course.batch,
        cursor: course.cursor,
        phase: course.phase,
    })
}

/// What an operation does to a job: 00 nothing, 01 and the job that it puts, 02 and the number in 4 bytes of the one that it drops.
#[tactic(auto, unfolding(crate::specs::Kinds::extra_at))]
pub(crate) fn extra(input: &mut &[u8]) -> Result<Extra, Stop>
    ensures { Gives extra_at input.old.now input.new.now result }
{
    match byte(input, 0, 2)? {
        0 => Ok(Extra::None),
        1 => Ok(Extra::JobPut(job(input)?)),
        _ => Ok(Extra::JobDrop(number_4(input)?)),
    }
}
