//! One transaction.
ghost use Rattle.std.specs.Prelude.{◌≡◌, ◌<◌, ◌+◌, Some, IsErrOf, IsSome};
ghost use Rattle.cell_world.specs.Images.{Place};
ghost use Rattle.cell_world.specs.Outside.{IsSite, StoreRoseBy, place_at};
ghost use Rattle.op_steps.specs.Passing.{TriesAt};

use cell_world::cells::Site;
use cell_world::changes::Change;
use cell_world::outside::World;
use global_tables::faults::{StepFault, fault_of};
use std::alloc::Global;

/// Makes a change in one transaction. `Store`: it is made or not made. `Memory`: it isn't made.
pub fn commit<W: World>(
    alloc: Global,
    world: &mut W,
    site: Site,
    change: &Change,
) -> Result<(), StepFault>
    requires { IsSite (W.outside world.old) site }
    ensures tried { (place : Place) → place_at (W.outside world.old).locations site.0 ≡ Some place → TriesAt place change.now result (W.outside world.old) (W.outside world.new) }
    ensures cause { IsErrOf result StepFault.Store → StoreRoseBy 1 (W.outside world.old) (W.outside world.new) }
{
    match world.commit(alloc, site, change) {
        Ok(()) => Ok(()),
        Err(error) => Err(fault_of(error)),
    }
}
