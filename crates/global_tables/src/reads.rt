//! One read of a store, as what the found cell says.
ghost use Rattle.std.specs.Prelude.{◌≡◌, option_map, IfOk, IsErrOf};
ghost use Rattle.cell_world.specs.Counts.{Rose};
ghost use Rattle.cell_world.specs.Finding.{IsFloor};
ghost use Rattle.cell_world.specs.Outside.{IsSite, OfStore, SameButFaults, read_at};
ghost use Rattle.cell_world.specs.Stores.{cell_at};

use crate::faults::{StepFault, fault_of};
use crate::rows::{Row, row_in};
use cell_world::cells::{CellKey, Site};
use cell_world::outside::World;
use std::alloc::Global;

/// What the cell under the key says, by one read.
pub fn read_row<W: World, T: Row>(
    alloc: Global,
    world: &mut W,
    site: Site,
    key: &CellKey,
) -> Result<Option<T>, StepFault>
    requires { IsSite (W.outside world.old) site }
    ensures found { IfOk result (λ row. OfStore (W.outside world.old) site (λ s. option_map T.cell_of row ≡ cell_at s key.now)) }
    ensures same { SameButFaults (read_at (W.outside world.old) site) (W.outside world.new) }
    ensures cause { IsErrOf result StepFault.Store → Rose ((W.outside world.old).faults_at site.0) ((W.outside world.new).faults_at site.0) }
{
    match world.read(alloc, site, key) {
        Ok(found) => row_in(&found),
        Err(error) => Err(fault_of(error)),
    }
}

/// What the greatest cell at or below the key says, by one read.
pub fn floor_row<W: World, T: Row>(
    alloc: Global,
    world: &mut W,
    site: Site,
    key: &CellKey,
) -> Result<Option<T>, StepFault>
    requires { IsSite (W.outside world.old) site }
    ensures found { IfOk result (λ row. OfStore (W.outside world.old) site (λ s. IsFloor s key.now (option_map T.cell_of row))) }
    ensures same { SameButFaults (read_at (W.outside world.old) site) (W.outside world.new) }
    ensures cause { IsErrOf result StepFault.Store → Rose ((W.outside world.old).faults_at site.0) ((W.outside world.new).faults_at site.0) }
{
    match world.floor(alloc, site, key) {
        Ok(found) => row_in(&found),
        Err(error) => Err(fault_of(error)),
    }
}
