//! The end of a core: what is left is settled.
ghost use Rattle.std.specs.Prelude.{List, Option};
ghost use Rattle.cell_world.specs.Outside.{IsLater};
ghost use Rattle.global_tables.specs.Known.{Known};
ghost use Rattle.plain_model.specs.declared.history.Entry.{Entry};
ghost use Rattle.manager_core.specs.declared.manager.StopCause.{StopCause};
ghost use Rattle.manager_core.specs.Cores.{Finishes, parts};

use crate::doings::Doings;
use crate::opening::Tail;
use crate::settling::settle_all;
use cell_world::outside::World;
use global_tables::faults::StepFault;
use std::alloc::Global;

/// Settles what each session has left, at the end of a core, and says what became of it.
pub fn settle_rest<W: World>(alloc: Global, world: &mut W, doings: &mut Doings) -> Tail
    ensures finishes { (history : List Entry) (known : Option Known) (stop : Option StopCause) → Finishes (parts (W.outside world.old) history doings.old known stop) (W.outside world.new) result }
    ensures later { IsLater (W.outside world.old) (W.outside world.new) }
{
    match settle_all(alloc, world, doings, doings.sessions()) {
        Ok(()) => Tail::Settled,
        Err(StepFault::Store) => Tail::Store,
        Err(StepFault::Memory) => Tail::Memory,
    }
}
