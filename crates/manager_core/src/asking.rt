//! A command is asked.
ghost use Rattle.std.specs.Prelude.{◌≡◌, ◌≤◌, Some, None, Ok, true, length, IsTrue, IfSome, IfOk, IsErrOf};
ghost use Rattle.cell_world.specs.Images.{Image, global};
ghost use Rattle.cell_world.specs.Outside.{IfContents, IsLater, StoreRoseBy};
ghost use Rattle.cell_world.specs.Sound.{Sound};
ghost use Rattle.cell_world.specs.Spelled.{is_spelled};
ghost use Rattle.global_tables.specs.Known.{Known, known_of};
ghost use Rattle.map_ops.specs.Planning.{PlansLong, is_asked, is_long};
ghost use Rattle.session_laws.specs.Doing as laws;
ghost use Rattle.manager_core.specs.Answering.{AreLines, IsCopy};
ghost use Rattle.manager_core.specs.Coming.{ComesOfAsking, HasLines, reply_of};
ghost use Rattle.manager_core.specs.Concluding.{ComesWithTables};
ghost use Rattle.manager_core.specs.Doings.{all_doing};
ghost use Rattle.manager_core.specs.Events.{IsResting};

use crate::answers::{Answer, answer_change, answer_with, no_memory};
use crate::beginning::{Taken, take_up};
use crate::coming::Came;
use crate::doings::{Doing, Doings};
use crate::settling::settle_session;
use cell_world::cells::Cell;
use cell_world::items::Items;
use cell_world::memory::Memory;
use cell_world::operations::Op;
use cell_world::outside::World;
use global_tables::faults::StepFault;
use global_tables::known::KnownTables;
use mapping_plans::plans::plan;
use plain_model::commands::Command;
use plain_model::history::Journal;
use plain_model::plans::{Plan, PlanStop};
use plain_model::replies::{Refusal, Reply};
use script_lang::replies::write_reply;
use std::alloc::Global;

/// Takes up the planned operation of a long command. The answer `fault` is ready.
fn begin_ready<W: World>(
    alloc: Global,
    world: &mut W,
    doings: &mut Doings,
    session: u32,
    tag: Option<u32>,
    command: Command,
    op: &Op,
    fault: Answer,
) -> Came
    requires session { (1 ≤ session) × (session ≤ length doings.old) }
    requires rests { all_doing doings.old session ≡ laws.Resting None }
    requires long { is_long command ≡ true }
    requires spelled { IsTrue (is_spelled (Cell.Log op.now)) }
    requires fault { fault.reply ≡ Reply.Fault }
    requires lines { AreLines tag fault.reply fault.lines }
    ensures comes { (known : Known) → IfContents (W.outside world.old).told (λ (image : Image). Sound image → known ≡ known_of (global image) → PlansLong command op.now image) →
        ComesOfAsking session command result known known (all_doing doings.old) (all_doing doings.new) (W.outside world.old) (W.outside world.new) }
    ensures lines { HasLines tag result }
    ensures sessions { length doings.new ≡ length doings.old }
    ensures later { IsLater (W.outside world.old) (W.outside world.new) }
{
    match take_up(alloc, world, op, &doings.live()) {
        Taken::Going(made, stage) => {
            let number = made.number;
            doings.put(session, Doing::Operating(command, made, stage));
            Came::Going(number)
        }
        Taken::Full => Came::Ended(
            command,
            answer_with(alloc, tag, Reply::Refused(Refusal::Full)),
            0,
        ),
        Taken::Pending(number) => Came::Ended(
            command,
            answer_with(alloc, tag, Reply::Pending(number)),
            0,
        ),
        Taken::Tried(number) => Came::Ended(command, fault, number),
        Taken::Store => Came::Ended(command, fault, 0),
        Taken::Memory => Came::Ended(command, no_memory(), 0),
    }
}

/// The operation of a long command begins. Room for the lines of `fault` is made before its log row is tried.
fn begin_long<W: World>(
    alloc: Global,
    world: &mut W,
    doings: &mut Doings,
    session: u32,
    tag: Option<u32>,
    command: Command,
    op: &Op,
) -> Came
    requires session { (1 ≤ session) × (session ≤ length doings.old) }
    requires rests { all_doing doings.old session ≡ laws.Resting None }
    requires long { is_long command ≡ true }
    requires spelled { IsTrue (is_spelled (Cell.Log op.now)) }
    ensures comes { (known : Known) → IfContents (W.outside world.old).told (λ (image : Image). Sound image → known ≡ known_of (global image) → PlansLong command op.now image) →
        ComesOfAsking session command result known known (all_doing doings.old) (all_doing doings.new) (W.outside world.old) (W.outside world.new) }
    ensures lines { HasLines tag result }
    ensures sessions { length doings.new ≡ length doings.old }
    ensures later { IsLater (W.outside world.old) (W.outside world.new) }
{
    match write_reply(alloc, tag, &Reply::Fault) {
        Ok(lines) => {
            let fault = Answer {
                reply: Reply::Fault,
                lines: Some(Items::from_vec(lines)),
            };
            begin_ready(alloc, world, doings, session, tag, command, op, fault)
        }
        Err(Memory) => Came::Ended(command, no_memory(), 0),
    }
}

/// What a command comes to by its plan, where its session has nothing left to settle.
fn ask_planned<W: World>(
    alloc: Global,
    world: &mut W,
    known: &mut KnownTables,
    doings: &mut Doings,
    session: u32,
    tag: Option<u32>,
    command: Command,
) -> Came
    requires session { (1 ≤ session) × (session ≤ length doings.old) }
    requires rests { all_doing doings.old session ≡ laws.Resting None }
    requires asked { is_asked command ≡ true }
    ensures comes { ComesOfAsking session command result known.old known.new (all_doing doings.old) (all_doing doings.new) (W.outside world.old) (W.outside world.new) }
    ensures lines { HasLines tag result }
    ensures sessions { length doings.new ≡ length doings.old }
    ensures later { IsLater (W.outside world.old) (W.outside world.new) }
{
    match plan(alloc, world, known, &command) {
        Ok(Plan::Short(reach, change, _)) => {
            let answer = answer_change(alloc, world, known, doings, tag, &command, &reach, &change);
            Came::Ended(command, answer, 0)
        }
        Ok(Plan::Long(op)) => begin_long(alloc, world, doings, session, tag, command, &op),
        Ok(Plan::Answer(reply)) => Came::Ended(command, answer_with(alloc, tag, reply), 0),
        Err(PlanStop::Refused(refusal)) => Came::Ended(
            command,
            answer_with(alloc, tag, Reply::Refused(refusal)),
            0,
        ),
        Err(PlanStop::Store) => Came::Ended(command, answer_with(alloc, tag, Reply::Fault), 0),
        Err(PlanStop::Memory) => Came::Ended(command, no_memory(), 0),
    }
}

/// The copy of the tables that the core has; where it has none, what is read.
///
/// `Store`: the store refused. Nothing changes but counts.
fn kept_or_read<W: World>(
    alloc: Global,
    world: &mut W,
    known: Option<KnownTables>,
) -> Result<KnownTables, StepFault>
    ensures copy { IfSome known (λ kept. IsCopy kept (W.outside world.old).told) → IfOk result (λ copy. IsCopy copy (W.outside world.old).told) }
    ensures kept { IfSome known (λ kept. result ≡ Ok kept) }
    ensures told { (W.outside world.new).told ≡ (W.outside world.old).told }
    ensures later { IsLater (W.outside world.old) (W.outside world.new) }
    ensures cause { IsErrOf result StepFault.Store → StoreRoseBy 1 (W.outside world.old) (W.outside world.new) }
{
    match known {
        Some(kept) => Ok(kept),
        None => KnownTables::read(alloc, world),
    }
}

/// What a command comes to with the copy of the tables that the core has. Where it has none they are read, and where that
/// fails the command is answered `fault`, or `memory`.
fn ask_with_tables<W: World>(
    alloc: Global,
    world: &mut W,
    known: &mut Option<KnownTables>,
    doings: &mut Doings,
    session: u32,
    tag: Option<u32>,
    command: Command,
) -> Came
    requires session { (1 ≤ session) × (session ≤ length doings.old) }
    requires rests { all_doing doings.old session ≡ laws.Resting None }
    requires asked { is_asked command ≡ true }
    ensures comes { ComesWithTables session command result known.old known.new (all_doing doings.old) (all_doing doings.new) (W.outside world.old) (W.outside world.new) }
    ensures lines { HasLines tag result }
    ensures sessions { length doings.new ≡ length doings.old }
    ensures later { IsLater (W.outside world.old) (W.outside world.new) }
{
    match kept_or_read(alloc, world, known.take()) {
        Ok(copy) => {
            let mut copy = copy;
            let came = ask_planned(alloc, world, &mut copy, doings, session, tag, command);
            *known = Some(copy);
            came
        }
        Err(StepFault::Store) => Came::Ended(command, answer_with(alloc, tag, Reply::Fault), 0),
        Err(StepFault::Memory) => Came::Ended(command, no_memory(), 0),
    }
}

/// What a command comes to where there is room for its entry and for one more; else `memory`, for whose entry there is room at all times.
fn ask_in_room<W: World>(
    alloc: Global,
    world: &mut W,
    journal: &mut Journal,
    known: &mut Option<KnownTables>,
    doings: &mut Doings,
    session: u32,
    tag: Option<u32>,
    command: Command,
) -> Came
    requires session { (1 ≤ session) × (session ≤ length doings.old) }
    requires rests { all_doing doings.old session ≡ laws.Resting None }
    requires asked { is_asked command ≡ true }
    requires room { 1 ≤ journal.old.room }
    ensures comes { ComesWithTables session command result known.old known.new (all_doing doings.old) (all_doing doings.new) (W.outside world.old) (W.outside world.new) }
    ensures lines { HasLines tag result }
    ensures entries { journal.new.entries ≡ journal.old.entries }
    ensures room { (1 ≤ journal.new.room) × ((reply_of result ≡ Some Reply.Memory → ⊥) → 2 ≤ journal.new.room) }
    ensures sessions { length doings.new ≡ length doings.old }
    ensures later { IsLater (W.outside world.old) (W.outside world.new) }
{
    match journal.make_room(2) {
        Ok(()) => ask_with_tables(alloc, world, known, doings, session, tag, command),
        Err(Memory) => Came::Ended(command, no_memory(), 0),
    }
}

/// A session that rests asks a command.
///
/// What the session left is settled first. A short command is answered; where the plan reaches something, a live operation of another
/// session may be in the way, and abandoned ones that are in the way are undone. The operation of a long one begins.
///
/// Room for the entry and for one more, and for the lines of both outcomes, is made before the command's own transaction. The
/// tables are read before the plan, where there is no copy.
pub fn ask_command<W: World>(
    alloc: Global,
    world: &mut W,
    journal: &mut Journal,
    known: &mut Option<KnownTables>,
    doings: &mut Doings,
    session: u32,
    tag: Option<u32>,
    command: Command,
) -> Came
    requires session { (1 ≤ session) × (session ≤ length doings.old) }
    requires rests { IsResting (all_doing doings.old session) }
    requires asked { is_asked command ≡ true }
    requires room { 1 ≤ journal.old.room }
    ensures comes { ComesWithTables session command result known.old known.new (all_doing doings.old) (all_doing doings.new) (W.outside world.old) (W.outside world.new) }
    ensures lines { HasLines tag result }
    ensures entries { journal.new.entries ≡ journal.old.entries }
    ensures room { (1 ≤ journal.new.room) × ((reply_of result ≡ Some Reply.Memory → ⊥) → 2 ≤ journal.new.room) }
    ensures sessions { length doings.new ≡ length doings.old }
    ensures later { IsLater (W.outside world.old) (W.outside world.new) }
{
    match settle_session(alloc, world, doings, session) {
        Ok(()) => ask_in_room(alloc, world, journal, known, doings, session, tag, command),
        // The marks that are left are in no one's way.
        Err(StepFault::Store) => ask_in_room(
            alloc, world, journal, known, doings, session, tag, command,
        ),
        Err(StepFault::Memory) => Came::Ended(command, no_memory(), 0),
    }
}
