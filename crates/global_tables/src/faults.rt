//! Why a call over the stores gave nothing.
ghost use Rattle.std.specs.Prelude.{◌≡◌};

use cell_world::outside::WorldError;

/// Why a call over the stores gave nothing. Nothing has changed but counts, except where a call says so.
#[derive(Clone, Copy, Debug, PartialEq, Eq)]
pub enum StepFault {
    /// A store refused. Its count of faults rose.
    Store,
    /// Want of memory; also where a world that tells nothing answered what no store holds.
    Memory,
}

/// The fault of a call of a world.
pub fn fault_of(error: WorldError) -> StepFault
    ensures failed { error ≡ WorldError.Failed → result ≡ StepFault.Store }
    ensures memory { error ≡ WorldError.Memory → result ≡ StepFault.Memory }
{
    match error {
        WorldError::Failed => StepFault::Store,
        WorldError::Memory => StepFault::Memory,
    }
}
