//! Input from memory.
ghost use Rattle.std.specs.Prelude.{◌≡◌, ◌≤◌, Some, vec_len};
ghost use Rattle.cell_world.specs.Counts.{last_count};
ghost use Rattle.std.specs.Prelude.{option_map};
ghost use Rattle.world_memory.specs.Takings.{is_among, is_in};

use cell_world::outside::{Source, SourceError};
use std::alloc::Global;

/// Bytes that are taken from the front. A taking fails exactly where it is listed, and with no list none does.
#[derive(Drop)]
pub struct MemorySource {
    bytes: Vec<u8>,
    taken: usize,
    /// The numbers of the takings that are to fail.
    failing: Option<Vec<u32>>,
    /// How often taking was tried since the list was given.
    calls: u64,
    /// How often taking failed.
    faults: u64,
    ghost within: { taken ≤ vec_len bytes },
    ghost counted: { faults ≤ last_count },
}

/// Whether a number is among these.
fn is_among(numbers: &[u32], number: u64) -> bool
    ensures { result ≡ is_among numbers.now number }
{
    numbers.iter().any(|n| u64::from(*n) == number)
}

/// Whether a number is in the list, if there is one.
fn is_listed(failing: &Option<Vec<u32>>, number: u64) -> bool
    ensures { result ≡ is_in (option_map (λ numbers. numbers.items) failing.now) number }
{
    match failing {
        Some(numbers) => is_among(numbers.as_slice(), number),
        None => false,
    }
}

impl MemorySource {
    ghost use Rattle.std.specs.Prelude.{None};
    ghost use Rattle.world_memory.specs.Input.{left_in, faults_in, takings_of};

    /// All of these bytes are left. Takes no memory.
    pub fn new(bytes: Vec<u8>) -> MemorySource
        ensures left { left_in result ≡ bytes.items }
        ensures faults { faults_in result ≡ 0 }
        ensures takings { takings_of result ≡ record { failing = None; made = 0 } }
    {
        MemorySource {
            bytes,
            taken: 0,
            failing: None,
            calls: 0,
            faults: 0,
        }
    }

    /// The same source, in which the takings of these numbers fail. They are counted from 1 and from now on, and a list
    /// that was given before is void. Takes no memory.
    pub fn failing(self, takes: Vec<u32>) -> MemorySource
        ensures left { left_in result ≡ left_in self }
        ensures faults { faults_in result ≡ faults_in self }
        ensures takings { takings_of result ≡ record { failing = Some takes.items; made = 0 } }
    {
        let mut source = self;
        source.failing = Some(takes);
        source.calls = 0;
        source
    }
}

impl Source for MemorySource {
    ghost use Rattle.std.specs.Prelude.{◌<◌, length, IfOk, OnErr, IsErrOf};
    ghost use Rattle.cell_world.specs.Counts.{Rose};
    ghost use Rattle.cell_world.specs.Outside.{Takes};
    ghost use Rattle.world_memory.specs.Input.{left_in, faults_in, takings_of};
    ghost use Rattle.world_memory.specs.Takings.{TakesByList, is_next_listed, one_taking};

    ghost left = { λ s. Some (left_in s) };

    ghost faults = { faults_in };

    ghost laws = { λ s. s.counted };

    fn take(&mut self, alloc: Global, into: &mut [u8]) -> Result<usize, SourceError>
        requires { 0 < length into.old }
        ensures fits { IfOk result (λ n. n ≤ length into.old) }
        ensures taken { IfOk result (λ n. Takes n (Some (left_in self.old)) (Some (left_in self.new)) into.new) }
        ensures same { OnErr result (Some (left_in self.new) ≡ Some (left_in self.old)) }
        ensures never_falls { faults_in self.old ≤ faults_in self.new }
        ensures cause { IsErrOf result SourceError.Failed → Rose (faults_in self.old) (faults_in self.new) }
        ensures listed { TakesByList result (is_next_listed (takings_of self.old)) (faults_in self.old) (faults_in self.new) }
        ensures counted { takings_of self.new ≡ one_taking (takings_of self.old) }
    {
        self.calls = self.calls.saturating_add(1);
        if is_listed(&self.failing, self.calls) {
            self.faults = self.faults.saturating_add(1);
            return Err(SourceError::Failed);
        }
        let left = self.bytes.len() - self.taken;
        let count = left.min(into.len());
        into[..count].copy_from_slice(&self.bytes[self.taken..self.taken + count]);
        self.taken += count;
        Ok(count)
    }
}
