//! How many cells of a group stand.
ghost use Rattle.std.specs.Prelude.{◌≡◌, IfOk, IsErrOf, nat_le};
ghost use Rattle.cell_world.specs.Counts.{Rose};
ghost use Rattle.cell_world.specs.Images.{global};
ghost use Rattle.cell_world.specs.Outside.{IfContents, IsLater};
ghost use Rattle.global_tables.specs.Groups.{count_of};

use crate::faults::{StepFault, fault_of};
use crate::groups::Group;
use cell_world::cells::Site;
use cell_world::outside::World;
use std::alloc::Global;

/// Whether as many cells of a group stand as the limit, by one scan.
pub fn is_full<W: World>(
    alloc: Global,
    world: &mut W,
    group: &Group,
    limit: u32,
) -> Result<bool, StepFault>
    ensures found { IfOk result (λ full. IfContents (W.outside world.old).told (λ image. full ≡ nat_le limit (count_of (global image) group.now))) }
    ensures told { (W.outside world.new).told ≡ (W.outside world.old).told }
    ensures later { IsLater (W.outside world.old) (W.outside world.new) }
    ensures cause { IsErrOf result StepFault.Store → Rose ((W.outside world.old).faults_at 0) ((W.outside world.new).faults_at 0) }
{
    match world.scan(alloc, Site::GLOBAL, &group.least(), limit) {
        Ok(found) => Ok(group.count(&found) >= limit as usize),
        Err(error) => Err(fault_of(error)),
    }
}
