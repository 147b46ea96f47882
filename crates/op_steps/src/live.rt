//! Which operations are live: those of which some session has a step ahead.
ghost use Rattle.std.specs.Prelude.{◌≡◌, ◌<◌, ◌≤◌, ◌++◌, ◌∷◌, [], length, false};
ghost use Rattle.op_steps.specs.Live.{AreDistinct, all_but, is_live};

use std::marker::Model;

/// The most live operations: one for each session.
pub const MOST_LIVE: usize = 16;

/// The numbers of live operations, each once, in a fixed array. Contracts see the list.
#[derive(Drop)]
pub struct LiveList {
    count: usize,
    numbers: [u64; 16],
}

impl Model for LiveList {
    ghost use Rattle.std.specs.Prelude.{ℕ, List, take};
    ghost use Rattle.op_steps.specs.Live.{IsListing};

    ghost Value = { List ℕ };

    ghost view = { λ live. take live.count live.numbers };

    ghost invariant = { λ live. IsListing live.count live.numbers };
}

impl LiveList {
    /// No operation is live. Takes no memory.
    pub fn new() -> LiveList
        ensures { result ≡ [] }
    {
        LiveList {
            count: 0,
            numbers: [0; 16],
        }
    }

    /// The numbers, in the order in which they came.
    pub fn as_slice(&self) -> &[u64]
        ensures list { result.now ≡ self.now }
        ensures few { length self.now ≤ MOST_LIVE }
        ensures distinct { AreDistinct self.now }
    {
        &self.numbers[..self.count]
    }

    /// Whether the operation of this number is live. Takes no memory.
    pub fn contains(&self, number: u64) -> bool
        ensures { result ≡ is_live self.now number }
    {
        self.as_slice().iter().any(|n| *n == number)
    }

    /// An operation becomes live that isn't yet, where fewer than 16 are. Takes no memory.
    pub fn add(&mut self, number: u64)
        requires room { length self.old < MOST_LIVE }
        requires fresh { is_live self.old number ≡ false }
        ensures { self.new ≡ self.old ++ number ∷ [] }
    {
        self.push(number);
    }

    /// Puts the number at the end.
    fn push(&mut self, number: u64)
        requires room { length self.old < MOST_LIVE }
        requires fresh { is_live self.old number ≡ false }
        ensures { self.new ≡ self.old ++ number ∷ [] }
    {
        self.numbers[self.count] = number;
        self.count += 1;
    }

    /// The operation of this number is live no more. Takes no memory.
    pub fn remove(&mut self, number: u64)
        ensures { self.new ≡ all_but number self.old }
    {
        let mut rest = LiveList::new();
        for n in self.as_slice() {
            if *n != number {
                rest.push(*n);
            }
        }
        *self = rest;
    }
}
