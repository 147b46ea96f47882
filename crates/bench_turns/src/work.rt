//! What stands behind the turn.
ghost use Rattle.std.specs.Prelude.{◌≡◌, ◌+◌, ◌≤◌, length};
ghost use Rattle.turnstile.specs.Entries.{StartsWith};

use turnstile::Historied;

/// A state that each round of work moves on, and the numbers of the threads whose turns it was.
#[derive(Drop)]
pub struct Work {
    pub turns: Vec<u64>,
    pub state: u64,
}

impl Historied for Work {
    type Entry = u64;

    ghost list = { λ w. w.turns.items };

    fn length(&self) -> u64 {
        self.turns.len() as u64
    }
}

impl Work {
    /// A turn: so many rounds of work, and an entry, but for want of memory. The state after it doesn't depend on whose turn it is.
    pub fn turn(&mut self, thread: u64, rounds: u64)
        ensures longer { StartsWith self.new.turns.items self.old.turns.items }
        ensures short { length self.new.turns.items ≤ length self.old.turns.items + 1 }
    {
        self.state = worked(self.state, rounds);
        let _ = self.turns.push(thread);
    }
}

/// The state after so many rounds, each of which needs the one before.
fn worked(state: u64, rounds: u64) -> u64 {
    let mut state = state;
    for _ in 0..rounds {
        state ^= state.wrapping_shl(13);
        state ^= state >> 7;
        state ^= state.wrapping_shl(17);
    }
    state
}
