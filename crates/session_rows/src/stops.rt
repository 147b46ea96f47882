//! Why a command of a connection gave nothing.
ghost use Rattle.std.specs.Prelude.{◌≡◌};

use cell_world::memory::Memory;
use cell_world::outside::WorldError;
use plain_model::replies::Refusal;

/// Why a command of a connection gave nothing. Nothing has changed but counts, except where a call says so.
#[derive(Clone, Copy, Debug, PartialEq, Eq)]
pub enum RowStop {
    /// The first check of the command table that holds.
    Refused(Refusal),
    /// A store refused. Its count of faults rose.
    Store,
    /// Want of memory; also where a world that tells nothing answered what no store holds.
    Memory,
}

impl From<Refusal> for RowStop {
    ghost use Rattle.session_rows.specs.declared.stops.RowStop.TheVariants as stop;

    ghost from_gives = { λ refusal to. to ≡ stop.Refused refusal };

    fn from(refusal: Refusal) -> RowStop {
        RowStop::Refused(refusal)
    }
}

impl From<WorldError> for RowStop {
    ghost use Rattle.cell_world.specs.declared.outside.WorldError.TheVariants as error;
    ghost use Rattle.session_rows.specs.declared.stops.RowStop.TheVariants as stop;

    ghost from_gives = { λ from to. (from ≡ error.Failed → to ≡ stop.Store) × (from ≡ error.Memory → to ≡ stop.Memory) };

    fn from(error: WorldError) -> RowStop {
        match error {
            WorldError::Failed => RowStop::Store,
            WorldError::Memory => RowStop::Memory,
        }
    }
}

impl From<Memory> for RowStop {
    ghost use Rattle.session_rows.specs.declared.stops.RowStop.TheVariants as stop;

    ghost from_gives = { λ _ to. to ≡ stop.Memory };

    fn from(_: Memory) -> RowStop {
        RowStop::Memory
    }
}
