//! How a command is to be done.
ghost use Rattle.std.specs.Prelude.{◌≡◌};

use crate::replies::{Refusal, Reply};
use cell_world::changes::Change;
use cell_world::memory::Memory;
use cell_world::operations::{Op, Reach};
use cell_world::outside::WorldError;

/// What is to be done for a command that isn't refused.
#[derive(Drop)]
pub enum Plan {
    /// A long operation; its reply is `ok`. Its number is given when it begins.
    Long(Op),
    /// One transaction of the global store, once no operation under way conflicts with the reach; then the reply.
    Short(Reach, Change, Reply),
    /// Nothing; the reply is known.
    Answer(Reply),
}

/// Why there is no plan. Nothing was changed.
#[derive(Clone, Copy, Debug, PartialEq, Eq)]
pub enum PlanStop {
    Refused(Refusal),
    /// A store call failed.
    Store,
    /// Want of memory.
    Memory,
}

impl From<WorldError> for PlanStop {
    ghost use Rattle.cell_world.specs.declared.outside.WorldError.TheVariants as error;
    ghost use Rattle.plain_model.specs.declared.plans.PlanStop.TheVariants as stop;

    ghost from_gives = { λ from to. (from ≡ error.Failed → to ≡ stop.Store) × (from ≡ error.Memory → to ≡ stop.Memory) };

    fn from(error: WorldError) -> PlanStop {
        match error {
            WorldError::Failed => PlanStop::Store,
            WorldError::Memory => PlanStop::Memory,
        }
    }
}

impl From<Memory> for PlanStop {
    ghost use Rattle.plain_model.specs.declared.plans.PlanStop.TheVariants as stop;

    ghost from_gives = { λ _ to. to ≡ stop.Memory };

    fn from(_: Memory) -> PlanStop {
        PlanStop::Memory
    }
}
