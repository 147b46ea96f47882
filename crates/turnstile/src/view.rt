//! What the turnstile's rule knows of a pass. No value of this type is ever made: it is the view of a seat.
use std::collections::LinkedList;

/// What one pass knows, and what the rule keeps of it.
pub struct View<E> {
    /// The pass is there: it was not gathered by `close`.
    pub live: bool,
    /// It holds the turn.
    pub holds: bool,
    /// Its number, counted from 0.
    pub number: u64,
    /// Of pass 0: the number of the pass that is made next.
    pub next: u64,
    /// Of pass 0: what each pass that `close` has gathered had left, and the whole list that it saw last, pass 1 first.
    pub known: LinkedList<(LinkedList<E>, LinkedList<E>)>,
    /// The entries that it left, oldest first.
    pub mine: LinkedList<E>,
    /// The whole list as it saw it last.
    pub list: LinkedList<E>,
}
