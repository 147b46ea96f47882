//! The first location that the global store names and the world doesn't know.
ghost use Rattle.std.specs.Prelude.{◌≡◌, false, map, IfOk, IfSome, IsErrOf};
ghost use Rattle.cell_world.specs.Counts.{Rose};
ghost use Rattle.cell_world.specs.Images.{global};
ghost use Rattle.cell_world.specs.Keys.{is_among};
ghost use Rattle.cell_world.specs.Outside.{IfContents, IsLater};
ghost use Rattle.global_tables.specs.Groups.{cells_of};
ghost use Rattle.site_names.specs.Named.{first_named, cells_in, groups_under_way, TellsFirst};

use crate::naming::Naming;
use cell_world::locations::Location;
use cell_world::operations::{JobRow, Op, Piece};
use cell_world::outside::World;
use global_tables::faults::StepFault;
use global_tables::groups::Group;
use global_tables::pieces::rows_of;
use global_tables::rows::{AwayRow, ShardRow};
use std::alloc::Global;

/// The first location that what is listed names and the world doesn't know.
fn first_in<W: World, T: Naming>(world: &W, rows: &[T]) -> Option<Location>
    ensures first { result ≡ first_named (W.outside world.now).locations (map T.cell_of rows.now) }
    ensures unknown { IfSome result (λ location. is_among (W.outside world.now).locations location ≡ false) }
{
    for row in rows {
        if let Some(location) = row.unknown(world) {
            return Some(location);
        }
    }
    None
}

/// The first location that a cell of the group names and the world doesn't know.
fn first_of<W: World, T: Naming>(
    alloc: Global,
    world: &mut W,
    group: &Group,
) -> Result<Option<Location>, StepFault>
    ensures found { IfOk result (λ found. IfContents (W.outside world.old).told (λ image. found ≡ first_named (W.outside world.old).locations (cells_of (global image) group.now))) }
    ensures unknown { IfOk result (λ found. IfSome found (λ location. is_among (W.outside world.old).locations location ≡ false)) }
    ensures told { (W.outside world.new).told ≡ (W.outside world.old).told }
    ensures later { IsLater (W.outside world.old) (W.outside world.new) }
    ensures cause { IsErrOf result StepFault.Store → Rose ((W.outside world.old).faults_at 0) ((W.outside world.new).faults_at 0) }
{
    let rows: Vec<T> = rows_of(alloc, world, group)?;
    Ok(first_in(world, &rows))
}

/// The first location that a cell of what is under way or away names and the world doesn't know.
fn first_under_way<W: World>(alloc: Global, world: &mut W) -> Result<Option<Location>, StepFault>
    ensures found { IfOk result (λ found. IfContents (W.outside world.old).told (λ image. found ≡ first_named (W.outside world.old).locations (cells_in (global image) groups_under_way))) }
    ensures unknown { IfOk result (λ found. IfSome found (λ location. is_among (W.outside world.old).locations location ≡ false)) }
    ensures told { (W.outside world.new).told ≡ (W.outside world.old).told }
    ensures later { IsLater (W.outside world.old) (W.outside world.new) }
    ensures cause { IsErrOf result StepFault.Store → Rose ((W.outside world.old).faults_at 0) ((W.outside world.new).faults_at 0) }
{
    let of_log = first_of::<W, Op>(alloc, world, &Group::Log)?;
    if of_log.is_some() {
        return Ok(of_log);
    }
    let of_jobs = first_of::<W, JobRow>(alloc, world, &Group::Jobs)?;
    if of_jobs.is_some() {
        return Ok(of_jobs);
    }
    first_of::<W, AwayRow>(alloc, world, &Group::Away)
}

/// The first location in cell order that a cell of the global store names and the world doesn't know. `None`: it
/// knows all. `Store`: the store refused. After an error nothing has changed but counts.
pub fn first_unknown<W: World>(alloc: Global, world: &mut W) -> Result<Option<Location>, StepFault>
    ensures found { IfOk result (λ found. IfContents (W.outside world.old).told (λ image. TellsFirst (global image) (W.outside world.old).locations found)) }
    ensures unknown { IfOk result (λ found. IfSome found (λ location. is_among (W.outside world.old).locations location ≡ false)) }
    ensures told { (W.outside world.new).told ≡ (W.outside world.old).told }
    ensures later { IsLater (W.outside world.old) (W.outside world.new) }
    ensures cause { IsErrOf result StepFault.Store → Rose ((W.outside world.old).faults_at 0) ((W.outside world.new).faults_at 0) }
{
    let of_shards = first_of::<W, ShardRow>(alloc, world, &Group::Shards)?;
    if of_shards.is_some() {
        return Ok(of_shards);
    }
    let of_pieces = first_of::<W, Piece>(alloc, world, &Group::Pieces)?;
    if of_pieces.is_some() {
        return Ok(of_pieces);
    }
    first_under_way(alloc, world)
}
