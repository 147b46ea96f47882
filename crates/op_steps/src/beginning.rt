//! The beginning of a long operation.
ghost use Rattle.std.specs.Prelude.{◌≡◌, ℕ, List, IfOk, IsErrOf, IsTrue};
ghost use Rattle.cell_world.specs.Counts.{Rose};
ghost use Rattle.cell_world.specs.Images.{global};
ghost use Rattle.cell_world.specs.Meaning.{counters_of};
ghost use Rattle.cell_world.specs.Outside.{IfContents, IsLater, StoreRoseBy};
ghost use Rattle.cell_world.specs.Spelled.{is_spelled};
ghost use Rattle.op_steps.specs.Beginning.{Begins, FailsByStore, Goes, LogsOp, SaysBegun, fault_at, fault_before, log_edits, numbered};
ghost use Rattle.op_steps.specs.Passing.{Passes};

use crate::clearing::clear_way;
use crate::commits::commit;
use crate::live::LiveList;
use crate::stages::Stage;
use cell_world::cells::{Cell, Counters, Site};
use cell_world::changes::Change;
use cell_world::memory::Memory;
use cell_world::operations::Op;
use cell_world::outside::World;
use global_tables::faults::StepFault;
use global_tables::lookups::counters;
use op_log::reaches::reach_of;
use std::alloc::Global;

/// The number that is never given to an operation: 2^63.
const NO_NUMBER: u64 = 9_223_372_036_854_775_808;

/// What the beginning of an operation came to.
#[derive(Drop)]
pub enum Begun {
    /// It is logged: the operation with its number, and its stage.
    Going(Op, Stage),
    /// This live operation is in its way.
    Pending(Op),
}

/// Why an operation hasn't begun.
#[derive(Clone, Copy, Debug, PartialEq, Eq)]
pub enum BeginFault {
    /// Want of memory, or the counter of operations stands at 2^63 or above. The log row wasn't tried.
    Memory,
    /// A store refused before the log row was tried.
    Store,
    /// The store refused the log row of this number. It is put or not put.
    Tried(u64),
}

/// The fault of a call before the log row was tried.
fn fault_before(fault: StepFault) -> BeginFault
    ensures { result ≡ fault_before fault }
{
    match fault {
        StepFault::Store => BeginFault::Store,
        StepFault::Memory => BeginFault::Memory,
    }
}

/// The fault of the transaction that puts the log row of this number.
fn fault_at(number: u64, fault: StepFault) -> BeginFault
    ensures { result ≡ fault_at number fault }
{
    match fault {
        StepFault::Store => BeginFault::Tried(number),
        StepFault::Memory => BeginFault::Memory,
    }
}

/// The operation with this number.
fn numbered(op: &Op, number: u64) -> Op
    ensures { result ≡ numbered op.now number }
{
    Op {
        number,
        map: op.map,
        hull: op.hull,
        olds: op.olds,
        news: op.news,
        extra: op.extra,
    }
}

/// The change that puts the log row of an operation, and raises the counter past its number. `Memory`: also where the
/// counter stands at 2^63 or above.
fn log_change(alloc: Global, op: &Op, next: &Counters) -> Result<Change, Memory>
    requires { IsTrue (is_spelled (Cell.Log op.now)) }
    ensures { IfOk result (λ change. change ≡ log_edits op.now next.now) }
{
    if next.operation >= NO_NUMBER {
        return Err(Memory);
    }
    let mut change = Change::empty(alloc);
    change.put(Cell::Log(*op))?;
    change.put(Cell::Counter(Counters {
        operation: next.operation + 1,
        job: next.job,
    }))?;
    Ok(change)
}

/// The next numbers, by one read.
fn next_numbers<W: World>(alloc: Global, world: &mut W) -> Result<Counters, StepFault>
    ensures found { IfOk result (λ next. IfContents (W.outside world.old).told (λ image. next ≡ counters_of (global image).counter)) }
    ensures told { (W.outside world.new).told ≡ (W.outside world.old).told }
    ensures later { IsLater (W.outside world.old) (W.outside world.new) }
    ensures cause { IsErrOf result StepFault.Store → Rose ((W.outside world.old).faults_at 0) ((W.outside world.new).faults_at 0) }
{
    counters(alloc, world)
}

/// Logs an operation under the next number.
fn log_under<W: World>(
    alloc: Global,
    world: &mut W,
    op: &Op,
    next: &Counters,
) -> Result<Op, BeginFault>
    requires { IsTrue (is_spelled (Cell.Log op.now)) }
    ensures passes { Passes (λ image hs. next.now ≡ counters_of (global image).counter → LogsOp op.now result image hs) (W.outside world.old) (W.outside world.new) }
    ensures asked { IfOk result (λ made. made ≡ numbered op.now made.number) }
    ensures cause { FailsByStore result → StoreRoseBy 1 (W.outside world.old) (W.outside world.new) }
{
    let made = numbered(op, next.operation);
    match log_change(alloc, &made, next) {
        Ok(change) => match commit(alloc, world, Site::GLOBAL, &change) {
            Ok(()) => Ok(made),
            Err(fault) => Err(fault_at(next.operation, fault)),
        },
        Err(Memory) => Err(BeginFault::Memory),
    }
}

/// Logs an operation that conflicts with none that is logged.
fn log_operation<W: World>(alloc: Global, world: &mut W, op: &Op) -> Result<Op, BeginFault>
    requires { IsTrue (is_spelled (Cell.Log op.now)) }
    ensures passes { Passes (LogsOp op.now result) (W.outside world.old) (W.outside world.new) }
    ensures asked { IfOk result (λ made. made ≡ numbered op.now made.number) }
    ensures cause { FailsByStore result → StoreRoseBy 1 (W.outside world.old) (W.outside world.new) }
{
    match next_numbers(alloc, world) {
        Ok(next) => log_under(alloc, world, op, &next),
        Err(fault) => Err(fault_before(fault)),
    }
}

/// Logs an operation that conflicts with none that is logged, and gives its first stage.
fn go<W: World>(alloc: Global, world: &mut W, op: &Op) -> Result<Begun, BeginFault>
    requires { IsTrue (is_spelled (Cell.Log op.now)) }
    ensures passes { Passes (Goes op.now result) (W.outside world.old) (W.outside world.new) }
    ensures says { (live : List ℕ) → SaysBegun live op.now result }
    ensures cause { FailsByStore result → StoreRoseBy 1 (W.outside world.old) (W.outside world.new) }
{
    match log_operation(alloc, world, op) {
        Ok(made) => Ok(Begun::Going(made, Stage::logged(made.number))),
        Err(fault) => Err(fault),
    }
}

/// Begins a long operation. It is lawful on what the stores stand for, its number is ignored, and the counter of operations stands below 2^63.
///
/// `Pending`: the live operation of least number that conflicts with it, and nothing was done. `Going`: the abandoned operations that conflict were undone, and it is logged under the number that stood; the counter is one more.
///
/// What the stores stand for stays, whatever is answered. `Tried`: the log row of this number was tried and refused; it is put or not put, and the number is that of the operation from then on. `Store`, `Memory`: it wasn't tried. After any of them abandoned operations may be undone, and after `Tried` all that conflict are.
pub fn begin<W: World>(
    alloc: Global,
    world: &mut W,
    op: &Op,
    live: &LiveList,
) -> Result<Begun, BeginFault>
    requires { IsTrue (is_spelled (Cell.Log op.now)) }
    ensures passes { Passes (Begins live.now op.now result) (W.outside world.old) (W.outside world.new) }
    ensures says { SaysBegun live.now op.now result }
    ensures cause { FailsByStore result → StoreRoseBy 1 (W.outside world.old) (W.outside world.new) }
{
    match clear_way(alloc, world, &reach_of(op), live) {
        Ok(Some(other)) => Ok(Begun::Pending(other)),
        Ok(None) => go(alloc, world, op),
        Err(fault) => Err(fault_before(fault)),
    }
}
