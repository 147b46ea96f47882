//! Grammars as small state machines.
ghost use Rattle.std.specs.Prelude.{◌≡◌, ℕ, Bool, List, Option, Some, IsTrue};
ghost use Rattle.text_scan.specs.Walks.{accepts};

/// A grammar, told by what is to be known of the bytes read so far. Contracts see its first state, its steps and its ends.
pub trait Machine: Copy {
    /// Where reading begins.
    ghost first: { Self };

    /// Where a byte leads from a state. None where no text goes on with it.
    ghost next: { Self → ℕ → Option Self };

    /// Whether a text may end in this state.
    ghost is_end: { Self → Bool };

    /// Where reading begins.
    fn start() -> Self
        ensures { result ≡ first };

    /// Where a byte leads.
    fn step(self, byte: u8) -> Option<Self>
        ensures { result ≡ next self byte };

    /// Whether a text may end here.
    fn ends(self) -> bool
        ensures { result ≡ is_end self };

    /// The witness for each state: bytes that lead from it to an end. So whatever was read goes on to some text.
    ghost live: { (state : Self) → (more : List ℕ) × IsTrue (accepts next is_end (Some state) more) };
}
