//! Lists of what the global store says of one kind.
ghost use Rattle.std.specs.Prelude.{◌≡◌, map, filter, IfOk, IsErrOf};
ghost use Rattle.std.specs.FinMap as fin;
ghost use Rattle.cell_world.specs.Counts.{Rose};
ghost use Rattle.cell_world.specs.Images.{global};
ghost use Rattle.cell_world.specs.Outside.{IfContents, IsLater};
ghost use Rattle.global_tables.specs.Groups.{pieces_in, locations_in};

use crate::faults::StepFault;
use crate::groups::Group;
use crate::pieces::rows_of;
use crate::rows::ShardRow;
use cell_world::locations::Location;
use cell_world::names::Name;
use cell_world::operations::{Op, Piece};
use cell_world::outside::World;
use std::alloc::Global;

/// All mappings of a map, in key order. `Store`: the store refused. After an error nothing has changed but counts.
pub fn pieces_of<W: World>(
    alloc: Global,
    world: &mut W,
    map: &Name,
) -> Result<Vec<Piece>, StepFault>
    ensures found { IfOk result (λ pieces. IfContents (W.outside world.old).told (λ image. pieces.items ≡ pieces_in (global image).mappings map.now)) }
    ensures told { (W.outside world.new).told ≡ (W.outside world.old).told }
    ensures later { IsLater (W.outside world.old) (W.outside world.new) }
    ensures cause { IsErrOf result StepFault.Store → Rose ((W.outside world.old).faults_at 0) ((W.outside world.new).faults_at 0) }
{
    rows_of(alloc, world, &Group::PiecesOf(*map))
}

/// All shards of a map, in byte order. `Store`: the store refused. After an error nothing has changed but counts.
pub fn shards_of<W: World>(
    alloc: Global,
    world: &mut W,
    map: &Name,
) -> Result<Vec<Location>, StepFault>
    ensures found { IfOk result (λ locations. IfContents (W.outside world.old).told (λ image. locations.items ≡ locations_in (global image).shards map.now)) }
    ensures told { (W.outside world.new).told ≡ (W.outside world.old).told }
    ensures later { IsLater (W.outside world.old) (W.outside world.new) }
    ensures cause { IsErrOf result StepFault.Store → Rose ((W.outside world.old).faults_at 0) ((W.outside world.new).faults_at 0) }
{
    let rows: Vec<ShardRow> = rows_of(alloc, world, &Group::ShardsOf(*map))?;
    locations(alloc, &rows)
}

/// Where they are.
fn locations(alloc: Global, rows: &[ShardRow]) -> Result<Vec<Location>, StepFault>
    ensures listed { IfOk result (λ locations. locations.items ≡ map (λ row. row.location) rows.now) }
    ensures memory { IsErrOf result StepFault.Store → ⊥ }
{
    let mut locations = Vec::new(alloc);
    for row in rows {
        if locations.push(row.location).is_err() {
            return Err(StepFault::Memory);
        }
    }
    Ok(locations)
}

/// The operations that aren't committed, in order of number. `Store`: the store refused. After an error nothing has
/// changed but counts.
pub fn log_rows<W: World>(alloc: Global, world: &mut W) -> Result<Vec<Op>, StepFault>
    ensures found { IfOk result (λ ops. IfContents (W.outside world.old).told (λ image. ops.items ≡ fin.values (global image).log)) }
    ensures told { (W.outside world.new).told ≡ (W.outside world.old).told }
    ensures later { IsLater (W.outside world.old) (W.outside world.new) }
    ensures cause { IsErrOf result StepFault.Store → Rose ((W.outside world.old).faults_at 0) ((W.outside world.new).faults_at 0) }
{
    rows_of(alloc, world, &Group::Log)
}
