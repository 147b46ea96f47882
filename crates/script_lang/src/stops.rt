//! Why a line isn't taken.
use cell_world::memory::Memory;
use plain_model::finish::Reason;

/// Why nothing was made of a line.
#[derive(Clone, Copy, Debug, PartialEq, Eq, Drop)]
pub(crate) enum LineStop {
    Faulty(Reason),
    /// Want of memory.
    Memory,
}

impl From<Reason> for LineStop {
    ghost use Rattle.std.specs.Prelude.{◌≡◌};
    ghost use Rattle.script_lang.specs.declared.stops.LineStop.TheVariants as stop;

    ghost from_gives = { λ reason to. to ≡ stop.Faulty reason };

    fn from(reason: Reason) -> LineStop {
        LineStop::Faulty(reason)
    }
}

impl From<Memory> for LineStop {
    ghost use Rattle.std.specs.Prelude.{◌≡◌};
    ghost use Rattle.script_lang.specs.declared.stops.LineStop.TheVariants as stop;

    ghost from_gives = { λ _ to. to ≡ stop.Memory };

    fn from(_memory: Memory) -> LineStop {
        LineStop::Memory
    }
}
