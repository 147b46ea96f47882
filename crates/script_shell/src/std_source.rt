//! A source over any reader of std.
ghost use Rattle.std.specs.Prelude.{◌≡◌, min, None};
ghost use Rattle.cell_world.specs.Counts.{last_count};
ghost use Rattle.std.proofs.Math.Nat.{min-le_right};

use cell_world::outside::{Source, SourceError};
use std::alloc::Global;
use std::io::{Read, Stdin};

/// A reader that tells at all times what is left of it, or never does.
pub trait SteadyRead: Read {
    /// Untold once is untold at any time.
    ghost steady: { (a b : Self) → Self.remaining a ≡ None → Self.remaining b ≡ None };
}

// of standard input nothing is told
impl SteadyRead for Stdin {
    ghost steady = { λ a b untold. untold };
}

// a slice tells its bytes
impl SteadyRead for &[u8] {
    ghost use Rattle.script_shell.specs.Readers.{is_told};

    ghost steady = { λ a b untold. is_told _ _ untold };
}

/// A reader as a source: what is left of it is what is left of the reader. An interrupted read counts as a fault.
#[derive(Drop)]
pub struct StdSource<I: SteadyRead + Drop> {
    /// What is read.
    input: I,
    /// How often reading has failed.
    faults: u64,
}

impl<I: SteadyRead + Drop> StdSource<I> {
    /// A source of which nothing was taken yet.
    pub fn new(input: I) -> StdSource<I>
        ensures { result ≡ record { input = input; faults = 0 } }
    {
        StdSource { input, faults: 0 }
    }
}

impl<I: SteadyRead + Drop> Source for StdSource<I> {
    ghost left = { λ source. I.remaining source.input };

    ghost faults = { λ source. min source.faults last_count };

    ghost laws = { λ source. min-le_right source.faults last_count };

    fn take(&mut self, alloc: Global, into: &mut [u8]) -> Result<usize, SourceError> {
        match self.input.read(into) {
            Ok(taken) => Ok(taken),
            Err(_) => {
                self.faults = self.faults.saturating_add(1);
                Err(SourceError::Failed)
            }
        }
    }
}
