//! Look-ups in the global store, each by one read.
ghost use Rattle.std.specs.Prelude.{◌≡◌, IfOk, IsErrOf};
ghost use Rattle.std.specs.FinMap as map;
ghost use Rattle.cell_world.specs.Counts.{Rose};
ghost use Rattle.cell_world.specs.Images.{global};
ghost use Rattle.cell_world.specs.Meaning.{counters_of, owner_of};
ghost use Rattle.cell_world.specs.Outside.{IfContents};
ghost use Rattle.cell_world.specs.Plain.{state_of};
ghost use Rattle.cell_world.specs.Sound.{Sound};
ghost use Rattle.global_tables.specs.Reads.{IsKeyIfThere, ReadsOnce, if_over};

use crate::faults::StepFault;
use crate::reads::{floor_row, read_row};
use crate::rows::AwayRow;
use cell_world::cells::{Away, CellKey, Counters, Site, SiteState};
use cell_world::locations::Location;
use cell_world::names::Name;
use cell_world::norm_keys::NormKey;
use cell_world::operations::{JobRow, Op, Piece};
use cell_world::outside::World;
use std::alloc::Global;

/// The owner of a key: the one mapping of the map that contains it. `None` exactly where no mapping does. Of a map
/// that stands the key is a normal form of its key type. `Store`: the store refused. After an error nothing has
/// changed but counts.
pub fn piece_at<W: World>(
    alloc: Global,
    world: &mut W,
    map: &Name,
    key: &NormKey,
) -> Result<Option<Piece>, StepFault>
    ensures found { IfOk result (λ piece. IfContents (W.outside world.old).told (λ image. Sound image → IsKeyIfThere (global image).maps map.now key.now → piece ≡ owner_of image map.now key.now)) }
    ensures same { ReadsOnce (W.outside world.old) (W.outside world.new) }
    ensures cause { IsErrOf result StepFault.Store → Rose ((W.outside world.old).faults_at 0) ((W.outside world.new).faults_at 0) }
{
    let below = floor_row(alloc, world, Site::GLOBAL, &CellKey::Piece(*map, *key))?;
    Ok(if_over(&below, key))
}

/// The mapping, if it contains the key.
fn if_over(below: &Option<Piece>, key: &NormKey) -> Option<Piece>
    ensures { result ≡ if_over key.now below.now }
{
    match below {
        None => None,
        Some(piece) => {
            if piece.span.contains(key) {
                Some(*piece)
            } else {
                None
            }
        }
    }
}

/// The operation of this number that isn't committed. `None` exactly where the log has none. `Store`: the store
/// refused. After an error nothing has changed but counts.
pub fn log_row<W: World>(alloc: Global, world: &mut W, number: u64) -> Result<Option<Op>, StepFault>
    ensures found { IfOk result (λ op. IfContents (W.outside world.old).told (λ image. op ≡ map.get (global image).log number)) }
    ensures same { ReadsOnce (W.outside world.old) (W.outside world.new) }
    ensures cause { IsErrOf result StepFault.Store → Rose ((W.outside world.old).faults_at 0) ((W.outside world.new).faults_at 0) }
{
    read_row(alloc, world, Site::GLOBAL, &CellKey::Log(number))
}

/// The job of this number. `None` exactly where none stands. `Store`: the store refused. After an error nothing has
/// changed but counts.
pub fn job_row<W: World>(
    alloc: Global,
    world: &mut W,
    number: u32,
) -> Result<Option<JobRow>, StepFault>
    ensures found { IfOk result (λ job. IfContents (W.outside world.old).told (λ image. job ≡ map.get (global image).jobs number)) }
    ensures same { ReadsOnce (W.outside world.old) (W.outside world.new) }
    ensures cause { IsErrOf result StepFault.Store → Rose ((W.outside world.old).faults_at 0) ((W.outside world.new).faults_at 0) }
{
    read_row(alloc, world, Site::GLOBAL, &CellKey::Job(number))
}

/// The state of a site; one without a cell is attached. `Store`: the store refused. After an error nothing has changed
/// but counts.
pub fn site_state<W: World>(
    alloc: Global,
    world: &mut W,
    at: &Location,
) -> Result<SiteState, StepFault>
    ensures found { IfOk result (λ state. IfContents (W.outside world.old).told (λ image. state ≡ state_of (map.get (global image).away at.now))) }
    ensures same { ReadsOnce (W.outside world.old) (W.outside world.new) }
    ensures cause { IsErrOf result StepFault.Store → Rose ((W.outside world.old).faults_at 0) ((W.outside world.new).faults_at 0) }
{
    let found: Option<AwayRow> = read_row(alloc, world, Site::GLOBAL, &CellKey::SiteState(*at))?;
    Ok(match found {
        None => SiteState::Attached,
        Some(away) => match away.state {
            Away::Detached => SiteState::Detached,
            Away::Suspect => SiteState::Suspect,
        },
    })
}

/// The next numbers that are given; 1 and 1 before any was. `Store`: the store refused. After an error nothing has
/// changed but counts.
pub fn counters<W: World>(alloc: Global, world: &mut W) -> Result<Counters, StepFault>
    ensures found { IfOk result (λ next. IfContents (W.outside world.old).told (λ image. next ≡ counters_of (global image).counter)) }
    ensures same { ReadsOnce (W.outside world.old) (W.outside world.new) }
    ensures cause { IsErrOf result StepFault.Store → Rose ((W.outside world.old).faults_at 0) ((W.outside world.new).faults_at 0) }
{
    let found: Option<Counters> = read_row(alloc, world, Site::GLOBAL, &CellKey::Counter)?;
    Ok(match found {
        None => Counters {
            operation: 1,
            job: 1,
        },
        Some(next) => next,
    })
}
