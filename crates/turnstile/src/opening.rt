//! How a turnstile and its passes are made.
ghost use Rattle.std.specs.Prelude.{◌≡◌, ◌<◌, ◌≤◌, [], IfOk, IfErr, vec_len, vec_capacity};
ghost use Rattle.turnstile.specs.Rule.{opening_view};
ghost use Rattle.turnstile.specs.Steps.{after_making, new_view};
ghost use Rattle.turnstile.specs.States.{EachAt, IsNew, pass_state};

use crate::historied::Historied;
use crate::passes::{FirstPass, Pass};
use crate::plays::Make;
use crate::turns::{FREE, Turnstile};
use atomic_table::{Refused, Table};
use std::alloc::{AllocError, Global};
use std::snapshot::Snapshot;

impl<V: Historied> Turnstile<V> {
    /// A turnstile with its first pass, or the value where memory runs out.
    fn open(
        alloc: Global,
        value: V,
        seats: u32,
    ) -> Result<(Turnstile<V>, FirstPass<V, V::Entry>), V>
        requires { 0 < seats }
        ensures opened { IfOk result (λ t. (t.0.first ≡ V.list value) × (t.0.seats ≡ seats)) }
        ensures pass { IfOk result (λ t. (t.1.seat.table_id ≡ t.0.table) × (t.1.seat.me.0 ≡ opening_view (V.list value))) }
        ensures err { IfErr result (λ back. back ≡ value) }
    {
        let Ok(mut slots) = Vec::with_capacity(alloc, 1) else {
            return Err(value);
        };
        let length = value.length();
        let start = (Snapshot::of(&value), seats);
        slots.push_reserved(Some(value));
        match Table::new(alloc, &[FREE, length], slots, &start) {
            Ok((table, seat)) => Ok((Turnstile { table }, FirstPass { seat })),
            Err(Refused { slots }) => {
                let mut slots = slots;
                let found = slots.pop();
                slots.destroy_empty();
                let Some(Some(value)) = found else {
                    unreachable!()
                };
                Err(value)
            }
        }
    }

    /// The next pass.
    fn another(&self, first: &mut FirstPass<V, V::Entry>) -> Pass<V, V::Entry>
        requires table { first.old.seat.table_id ≡ self.now.table }
        requires room { first.old.seat.me.0.next < self.now.seats }
        ensures first { (first.new.seat.table_id ≡ first.old.seat.table_id) × (first.new.seat.me.0 ≡ after_making first.old.seat.me.0) }
        ensures new { result ≡ pass_state first.old.seat.table_id (new_view first.old.seat.me.0) }
    {
        let seat = self.table.shared.split_seat::<Make>(&mut first.seat);
        Pass { seat, entered: 0 }
    }

    /// Makes the other passes, and puts all into the `Vec`, which has the room.
    fn fill(
        &self,
        mut first: FirstPass<V, V::Entry>,
        seats: u32,
        passes: &mut Vec<Pass<V, V::Entry>>,
    )
        requires table { first.seat.table_id ≡ self.now.table }
        requires first { first.seat.me.0 ≡ opening_view self.now.first }
        requires seats { (0 < seats) × (seats ≡ self.now.seats) }
        requires room { (passes.old.items ≡ []) × (vec_capacity passes.old ≡ seats) }
        ensures len { vec_len passes.new ≡ seats }
        ensures each { EachAt (IsNew self.now.table self.now.first) 0 passes.new.items }
    {
        for _ in 1..seats {
            let pass = self.another(&mut first);
            passes.push_reserved(pass);
        }
        let FirstPass { seat } = first;
        let put = passes.insert(0, Pass { seat, entered: 0 });
        let Ok(()) = put else { unreachable!() };
    }

    /// A turnstile round a value, with as many passes as there are to be seats, pass k at index k. Each has seen the value's list, and left nothing.
    /// Where memory runs out, the value comes back. This call alone takes memory.
    pub fn new(
        alloc: Global,
        value: V,
        seats: u32,
    ) -> Result<(Turnstile<V>, Vec<Pass<V, V::Entry>>), (V, AllocError)>
        requires { 0 < seats }
        ensures opened { IfOk result (λ t. (t.0.first ≡ V.list value) × (t.0.seats ≡ seats)) }
        ensures len { IfOk result (λ t. vec_len t.1 ≡ seats) }
        ensures each { IfOk result (λ t. EachAt (IsNew t.0.table t.0.first) 0 t.1.items) }
        ensures err { IfErr result (λ e. e.0 ≡ value) }
    {
        let Ok(mut passes) = Vec::with_capacity(alloc, seats as usize) else {
            return Err((value, AllocError));
        };
        match Turnstile::open(alloc, value, seats) {
            Ok((turnstile, first)) => {
                turnstile.fill(first, seats, &mut passes);
                Ok((turnstile, passes))
            }
            Err(value) => {
                passes.destroy_empty();
                Err((value, AllocError))
            }
        }
    }
}
