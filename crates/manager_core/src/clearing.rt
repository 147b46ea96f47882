//! The way of a short command is cleared.
ghost use Rattle.std.specs.Prelude.{IsErrOf};
ghost use Rattle.cell_world.specs.Outside.{IsLater, StoreRoseBy};
ghost use Rattle.operation_laws.specs.LiveNumbers.{AreTheLive};
ghost use Rattle.session_laws.specs.Doing.{AllDoing};
ghost use Rattle.manager_core.specs.Asking.{ClearsFor};

use cell_world::operations::Reach;
use cell_world::outside::World;
use global_tables::faults::StepFault;
use op_steps::clearing::clear_way;
use op_steps::live::LiveList;
use std::alloc::Global;

/// Clears the way of what a short command reaches, where these operations are live. `Some`: the number of the live operation in the way, the least
/// one, and nothing was done. `None`: none is, and abandoned ones that were are undone.
///
/// `Store`: a store refused. After an error some abandoned operations may be undone.
pub fn clear<W: World>(
    alloc: Global,
    world: &mut W,
    reach: &Reach,
    live: &LiveList,
) -> Result<Option<u64>, StepFault>
    ensures clears { (before : AllDoing) → AreTheLive live.now before → ClearsFor before reach.now result (W.outside world.old) (W.outside world.new) }
    ensures later { IsLater (W.outside world.old) (W.outside world.new) }
    ensures cause { IsErrOf result StepFault.Store → StoreRoseBy 1 (W.outside world.old) (W.outside world.new) }
{
    match reach {
        Reach::Nothing => Ok(None),
        _ => match clear_way(alloc, world, reach, live) {
            Ok(Some(op)) => Ok(Some(op.number)),
            Ok(None) => Ok(None),
            Err(fault) => Err(fault),
        },
    }
}
