//! The rule of the turnstile's table, and the kinds of step under it that change a view. A step is one of eight kinds: take, exchange, count, give back, park, wake, split
//! seat, join seat. Exchange, park and wake change no view, so they have no name here.
ghost use Rattle.turnstile.specs.Rule.{Kept, opening_view, spent_view};
ghost use Rattle.turnstile.specs.Steps.{Takes, Counts, Gives, after_making, new_view, after_joining};

use crate::historied::Historied;
use crate::view::View;
use atomic_table::{Join, Play, Split, TableRule};
use std::marker::PhantomData;
use std::snapshot::Snapshot;

/// The rule. Its key is the value that the turnstile was made with, and the number of passes.
pub(crate) struct Turns<V> {
    of: PhantomData<V>,
}

impl<V: Historied> TableRule<Option<V>, View<V::Entry>, (Snapshot<V>, u32)> for Turns<V> {
    ghost holds = { λ key. Kept V.list (V.list key.0.value) key.1 };

    ghost first = { λ key. opening_view (V.list key.0.value) };
}

/// The turn word goes from free to taken.
pub(crate) struct Take<V> {
    of: PhantomData<V>,
}

impl<V: Historied> Play<Option<V>, View<V::Entry>> for Take<V> {
    ghost then = { Takes V.list };
}

/// The count word grows by the number of new entries.
pub(crate) struct Count<V> {
    of: PhantomData<V>,
}

impl<V: Historied> Play<Option<V>, View<V::Entry>> for Count<V> {
    ghost then = { Counts V.list };
}

/// The turn word is set to free.
pub(crate) struct Give<V> {
    of: PhantomData<V>,
}

impl<V: Historied> Play<Option<V>, View<V::Entry>> for Give<V> {
    ghost then = { Gives V.list };
}

/// Pass 0 makes the next pass.
pub(crate) struct Make;

impl<E> Split<View<E>> for Make {
    ghost left = { after_making };

    ghost right = { new_view };
}

/// Pass 0 gathers a pass.
pub(crate) struct Gather;

impl<E> Join<View<E>> for Gather {
    ghost both = { after_joining };

    ghost spent = { spent_view };
}
