//! A command of one operation begins.
ghost use Rattle.std.specs.Prelude.{◌≡◌, IfOk, IsErrOf, IsTrue};
ghost use Rattle.cell_world.specs.Counts.{Rose};
ghost use Rattle.cell_world.specs.Images.{global};
ghost use Rattle.cell_world.specs.Meaning.{counters_of};
ghost use Rattle.cell_world.specs.Outside.{IfContents, IsLater, StoreRoseBy};
ghost use Rattle.cell_world.specs.Spelled.{is_spelled};
ghost use Rattle.manager_core.specs.Beginnings.{FailsByStore, TakesUp, TakesUpBelow, taken_of};

use cell_world::cells::{Cell, Counters};
use cell_world::operations::Op;
use cell_world::outside::World;
use global_tables::faults::StepFault;
use global_tables::lookups::counters;
use op_steps::beginning::{BeginFault, Begun, begin};
use op_steps::live::LiveList;
use op_steps::stages::Stage;
use std::alloc::Global;

/// The number that is never given to an operation: 2^63.
const NO_NUMBER: u64 = 9_223_372_036_854_775_808;

/// What the taking up of a planned operation came to.
#[derive(Drop)]
pub enum Taken {
    /// It is logged: the operation with its number, and its stage.
    Going(Op, Stage),
    /// No number is left. Nothing was done.
    Full,
    /// The live operation of this number is in its way. Nothing was done.
    Pending(u64),
    /// The store refused the log row of this number. It is put or not put.
    Tried(u64),
    /// A store refused before the log row was tried.
    Store,
    /// Want of memory. The log row wasn't tried.
    Memory,
}

/// What a beginning came to.
fn taken_of(begun: Result<Begun, BeginFault>) -> Taken
    ensures { result ≡ taken_of begun }
{
    match begun {
        Ok(Begun::Going(op, stage)) => Taken::Going(op, stage),
        Ok(Begun::Pending(other)) => Taken::Pending(other.number),
        Err(BeginFault::Tried(number)) => Taken::Tried(number),
        Err(BeginFault::Store) => Taken::Store,
        Err(BeginFault::Memory) => Taken::Memory,
    }
}

/// The next numbers, by one read.
fn next_numbers<W: World>(alloc: Global, world: &mut W) -> Result<Counters, StepFault>
    ensures found { IfOk result (λ next. IfContents (W.outside world.old).told (λ image. next ≡ counters_of (global image).counter)) }
    ensures told { (W.outside world.new).told ≡ (W.outside world.old).told }
    ensures later { IsLater (W.outside world.old) (W.outside world.new) }
    ensures cause { IsErrOf result StepFault.Store → Rose ((W.outside world.old).faults_at 0) ((W.outside world.new).faults_at 0) }
{
    counters(alloc, world)
}

/// Begins a planned operation where the counter stands below 2^63.
fn take_up_below<W: World>(alloc: Global, world: &mut W, op: &Op, live: &LiveList) -> Taken
    requires { IsTrue (is_spelled (Cell.Log op.now)) }
    ensures takes { TakesUpBelow live.now op.now result (W.outside world.old) (W.outside world.new) }
    ensures later { IsLater (W.outside world.old) (W.outside world.new) }
    ensures cause { FailsByStore result → StoreRoseBy 1 (W.outside world.old) (W.outside world.new) }
{
    taken_of(begin(alloc, world, op, live))
}

/// Takes up a planned operation, whose number is ignored: `Full` exactly where the counter stands at 2^63, before conflicts are looked for.
pub fn take_up<W: World>(alloc: Global, world: &mut W, op: &Op, live: &LiveList) -> Taken
    requires { IsTrue (is_spelled (Cell.Log op.now)) }
    ensures takes { TakesUp live.now op.now result (W.outside world.old) (W.outside world.new) }
    ensures later { IsLater (W.outside world.old) (W.outside world.new) }
    ensures cause { FailsByStore result → StoreRoseBy 1 (W.outside world.old) (W.outside world.new) }
{
    match next_numbers(alloc, world) {
        Ok(next) => {
            if next.operation >= NO_NUMBER {
                Taken::Full
            } else {
                take_up_below(alloc, world, op, live)
            }
        }
        Err(StepFault::Store) => Taken::Store,
        Err(StepFault::Memory) => Taken::Memory,
    }
}
