//! Why a call of a store gave nothing.
ghost use Rattle.std.specs.Prelude.{◌≡◌};
ghost use Rattle.cell_world.specs.Counts.{one_more};
ghost use Rattle.sqlite_site.specs.Refusals.{refusal_of, fault_of, answer_of, count_after};

use cell_world::memory::Memory;
use cell_world::outside::WorldError;
use record_form::faults::CellFault;
use sqlite::{Error, ErrorCode};
use std::alloc::AllocFailed;

/// Why a call of a store gave nothing.
#[derive(Clone, Copy, Debug, PartialEq, Eq)]
pub enum Refused {
    /// `sqlite` refused, or a row isn't a cell's.
    Store,
    /// Want of memory.
    Memory,
}

impl From<Error> for Refused {
    ghost use Rattle.sqlite_site.specs.Refusals.{refusal_of};

    ghost from_gives = { λ error r. r ≡ refusal_of error };

    fn from(error: Error) -> Refused {
        match error {
            Error::SqliteFailure(ErrorCode::OutOfMemory) => Refused::Memory,
            _ => Refused::Store,
        }
    }
}

impl From<CellFault> for Refused {
    ghost use Rattle.sqlite_site.specs.Refusals.{fault_of};

    ghost from_gives = { λ fault r. r ≡ fault_of fault };

    fn from(fault: CellFault) -> Refused {
        match fault {
            CellFault::Place(_) => Refused::Store,
            CellFault::Memory => Refused::Memory,
        }
    }
}

impl From<Memory> for Refused {
    ghost use Rattle.sqlite_site.specs.declared.refused.Refused.TheVariants as refused;

    ghost from_gives = { λ _ r. r ≡ refused.Memory };

    fn from(_: Memory) -> Refused {
        Refused::Memory
    }
}

impl<T: Drop> From<AllocFailed<T>> for Refused {
    ghost use Rattle.sqlite_site.specs.declared.refused.Refused.TheVariants as refused;

    ghost from_gives = { λ _ r. r ≡ refused.Memory };

    fn from(_: AllocFailed<T>) -> Refused {
        Refused::Memory
    }
}

/// What a world answers, and the count of faults after it: one more where the store refused.
pub(crate) fn counted<T>(faults: &mut u64, done: Result<T, Refused>) -> Result<T, WorldError>
    ensures answer { result ≡ answer_of done }
    ensures count { faults.new ≡ count_after done faults.old }
{
    match done {
        Ok(value) => Ok(value),
        Err(Refused::Memory) => Err(WorldError::Memory),
        Err(Refused::Store) => {
            *faults = faults.saturating_add(1);
            Err(WorldError::Failed)
        }
    }
}
