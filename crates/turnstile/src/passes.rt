//! The right to take turns.
ghost use Rattle.std.specs.Prelude.{◌≡◌, ℕ, true, false, []};

use crate::view::View;
use atomic_table::Seat;
use std::marker::Model;

/// The right to take turns at one turnstile, with a number there. A contract sees it as a `PassState`: its turnstile's table, its number, whether it holds the value, the entries
/// that it left, and the whole list as it saw it last. It can't be dropped, only given to `close`.
// It is bound to no trait, so that a struct of another crate can have it as a field.
pub struct Pass<V, E> {
    pub(crate) seat: Seat<Option<V>, View<E>>,
    /// While the pass holds: the length of the list that the value came with.
    pub(crate) entered: u64,
}

impl<V, E> Model for Pass<V, E> {
    ghost use Rattle.turnstile.specs.Steps.{Sits};
    ghost use Rattle.turnstile.specs.States.{PassState, pass_state};

    ghost Value = { PassState E };

    ghost view = { λ p. pass_state p.seat.table_id p.seat.me.0 };

    ghost invariant = { λ p. Sits p.seat.me p.entered };
}

/// Pass 0 while it makes the others, and while it gathers them.
pub(crate) struct FirstPass<V, E> {
    pub(crate) seat: Seat<Option<V>, View<E>>,
    ghost idle: { (seat.me.0.live ≡ true) × (seat.me.0.number ≡ 0) × (seat.me.0.holds ≡ false) },
    ghost slots: { seat.me.1 ≡ [] },
}
