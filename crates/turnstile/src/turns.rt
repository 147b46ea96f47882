//! The turnstile, and a turn: `enter`, then `leave`.
ghost use Rattle.std.specs.Prelude.{◌≡◌, ◌+◌, ◌≤◌, true, false, [], ◌∷◌, ◌++◌, length, drop, Some, None};
ghost use Rattle.turnstile.specs.Entries.{StartsWith};

use crate::historied::Historied;
use crate::passes::Pass;
use crate::plays::{Count, Give, Take, Turns};
use crate::view::View;
use atomic_table::{Seat, Table};
use std::alloc::Global;
use std::marker::Model;
use std::snapshot::Snapshot;
use std::sync::Wait;

/// The word that says whose turn it is: `FREE` or `TAKEN`.
pub(crate) const TURN: usize = 0;

/// The word that has the length of the value's list.
pub(crate) const COUNT: usize = 1;

/// The slot in which the value stands while the turn is free.
pub(crate) const VALUE: usize = 0;

pub(crate) const FREE: u64 = 0;

pub(crate) const TAKEN: u64 = 1;

/// One value that passes take in turn. A contract sees it as a `TurnstileState`: its table, the list that the value had at first, and the number of passes.
/// Threads share it by reference, each with a pass of its own. It can't be dropped: `close` ends it.
pub struct Turnstile<V: Historied> {
    pub(crate) table: Table<Option<V>, View<V::Entry>, (Snapshot<V>, u32), Turns<V>, Global>,
}

impl<V: Historied> Model for Turnstile<V> {
    ghost use Rattle.std.specs.Prelude.{◌≡◌};
    ghost use Rattle.turnstile.specs.States.{TurnstileState};

    ghost Value = { TurnstileState V.Entry };

    ghost view = { λ t. record { table = t.table.shared.table_id; first = V.list t.table.shared.key.0.value; seats = t.table.shared.key.1 } };

    ghost invariant = { λ t. (t.table.shared.table_id.words ≡ 2) × (t.table.shared.table_id.slots ≡ 1) };
}

impl<V: Historied> Turnstile<V> {
    /// Waits for the turn, and takes what stands in the slot.
    fn take(&self, rt: &impl Wait, seat: &mut Seat<Option<V>, View<V::Entry>>) -> Option<V>
        requires table { seat.old.table_id ≡ self.now.table }
        requires idle { (seat.old.me.0.live ≡ true) × (seat.old.me.0.holds ≡ false) × (seat.old.me.1 ≡ []) }
        ensures table { (seat.new.table_id ≡ seat.old.table_id) × (seat.new.id ≡ seat.old.id) }
        ensures taken { (value : V) × (result ≡ Some value) × (seat.new.me ≡ (record seat.old.me.0 { holds = true; list = V.list value }, (0, None) ∷ [])) × StartsWith (V.list value) seat.old.me.0.list }
    {
        let shared = &self.table.shared;
        for _ in rt.forever() {
            let found = shared.compare_exchange::<Take<V>>(seat, TURN, FREE, TAKEN);
            if found == FREE {
                return shared.exchange(seat, VALUE, None);
            }
            shared.park(rt, TURN, TAKEN as u32);
        }
        unreachable!()
    }

    /// Waits for the turn, and takes the value out. The value's list begins with the one that this pass saw last. Takes no memory.
    pub fn enter(&self, rt: &impl Wait, pass: &mut Pass<V, V::Entry>) -> V
        requires table { pass.old.table ≡ self.now.table }
        requires idle { pass.old.holds ≡ false }
        ensures same { (pass.new.table ≡ pass.old.table) × (pass.new.number ≡ pass.old.number) × (pass.new.mine ≡ pass.old.mine) }
        ensures holds { pass.new.holds ≡ true }
        ensures list { pass.new.list ≡ V.list result }
        ensures later { StartsWith (V.list result) pass.old.list }
    {
        let Some(value) = self.take(rt, &mut pass.seat) else {
            unreachable!()
        };
        pass.entered = value.length();
        value
    }

    /// Puts the value back and gives the turn to another. The value's list goes on from the one at `enter` by at most two entries, which are this pass's. Takes no memory.
    pub fn leave(&self, pass: &mut Pass<V, V::Entry>, value: V)
        requires table { pass.old.table ≡ self.now.table }
        requires holds { pass.old.holds ≡ true }
        requires longer { StartsWith (V.list value) pass.old.list }
        requires short { length (V.list value) ≤ length pass.old.list + 2 }
        ensures same { (pass.new.table ≡ pass.old.table) × (pass.new.number ≡ pass.old.number) }
        ensures holds { pass.new.holds ≡ false }
        ensures mine { pass.new.mine ≡ pass.old.mine ++ drop (length pass.old.list) (V.list value) }
        ensures list { pass.new.list ≡ V.list value }
    {
        let entered = pass.entered;
        let added = value.length() - entered;
        let shared = &self.table.shared;
        // the value first, so that the count step can name its list
        let found = shared.exchange(&mut pass.seat, VALUE, Some(value));
        let None = found else { unreachable!() };
        let count = shared.fetch_add::<Count<V>>(&mut pass.seat, COUNT, added);
        prove!(count == entered);
        shared.swap::<Give<V>>(&mut pass.seat, TURN, FREE);
        shared.wake_one(TURN);
    }
}
