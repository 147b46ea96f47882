//! What may stand behind a turnstile.
ghost use Rattle.std.specs.Prelude.{◌≡◌, ℕ, List, length};

/// A value with a history.
pub trait Historied {
    /// One thing that happened.
    type Entry;

    /// The history, oldest entry first.
    ghost list: { Self → List Self.Entry };

    /// How many entries the history has. Takes no memory.
    fn length(&self) -> u64
        ensures { result ≡ length (list self.now) };
}
