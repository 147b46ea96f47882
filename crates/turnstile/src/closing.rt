//! How a turnstile ends.
ghost use Rattle.std.specs.Prelude.{◌≡◌, ◌+◌, ◌<◌, [], ◌∷◌, ◌++◌, length, map, vec_len};
ghost use Rattle.turnstile.specs.Rule.{Woven};
ghost use Rattle.turnstile.specs.States.{EachAt, IsIdle};

use crate::historied::Historied;
use crate::passes::{FirstPass, Pass};
use crate::plays::Gather;
use crate::turns::{Turnstile, VALUE};

impl<V: Historied> Turnstile<V> {
    /// Takes in one pass, the next by number.
    fn absorb(&self, first: &mut FirstPass<V, V::Entry>, pass: Pass<V, V::Entry>)
        requires table { first.old.seat.table_id ≡ self.now.table }
        requires pass { IsIdle self.now.table (length first.old.seat.me.0.known + 1) pass }
        ensures { (first.new.seat.table_id ≡ first.old.seat.table_id) × (first.new.seat.me.0 ≡ record first.old.seat.me.0 { known = first.old.seat.me.0.known ++ (pass.mine, pass.list) ∷ [] }) }
    {
        let Pass { seat, entered: _ } = pass;
        self.table.shared.join_seat::<Gather>(&mut first.seat, seat);
    }

    /// Takes in the passes after the first, in order.
    fn gather(&self, first: &mut FirstPass<V, V::Entry>, mut passes: Vec<Pass<V, V::Entry>>)
        requires table { first.old.seat.table_id ≡ self.now.table }
        requires known { first.old.seat.me.0.known ≡ [] }
        requires each { EachAt (IsIdle self.now.table) 1 passes.items }
        ensures table { first.new.seat.table_id ≡ first.old.seat.table_id }
        ensures mine { (first.new.seat.me.0.mine ≡ first.old.seat.me.0.mine) × (first.new.seat.me.0.list ≡ first.old.seat.me.0.list) }
        ensures known { first.new.seat.me.0.known ≡ map (λ p. (p.mine, p.list)) passes.items }
    {
        while !passes.is_empty() {
            let pass = passes.remove(0);
            self.absorb(first, pass);
        }
        passes.destroy_empty();
    }

    /// Takes the value out of the table, once the first pass has taken in all others.
    fn end(self, first: FirstPass<V, V::Entry>) -> V
        requires table { first.seat.table_id ≡ self.table }
        requires all { self.seats ≡ length first.seat.me.0.known + 1 }
        ensures { Woven self.first ((first.seat.me.0.mine, first.seat.me.0.list) ∷ first.seat.me.0.known) (V.list result) }
    {
        let Turnstile { table } = self;
        let FirstPass { seat } = first;
        let mut closed = table.close_with(seat);
        let found = closed.take(VALUE);
        closed.free();
        let Some(value) = found else { unreachable!() };
        value
    }

    /// Ends the turnstile with all its passes, pass k at index k, none of which holds, and gives the value. Its list has the first list and then, for each pass, that pass's entries,
    /// each once and in the order in which the pass left them; and it begins with the list that each pass saw last. Takes no memory.
    pub fn close(self, mut passes: Vec<Pass<V, V::Entry>>) -> V
        requires len { (0 < vec_len passes) × (vec_len passes ≡ self.seats) }
        requires each { EachAt (IsIdle self.table) 0 passes.items }
        ensures { Woven self.first (map (λ p. (p.mine, p.list)) passes.items) (V.list result) }
    {
        let Pass { seat, entered: _ } = passes.remove(0);
        let mut first = FirstPass { seat };
        self.gather(&mut first, passes);
        self.end(first)
    }
}
