//! The core: a world, the history of what was asked of it, and a copy of its tables. One call is one event.
ghost use Rattle.std.specs.Prelude.{◌≡◌, ◌≤◌, Bool, Some, None, IfSome, IsErrOf, length};
ghost use Rattle.cell_world.specs.Counts.{Rose};
ghost use Rattle.cell_world.specs.Outside.{IsLater};
ghost use Rattle.plain_model.specs.Lines.{reply_lines, tag_of};
ghost use Rattle.plain_model.specs.declared.replies.Reply.{Reply};
ghost use Rattle.manager_core.specs.Answering.{AreLines, WritesText};
ghost use Rattle.manager_core.specs.Coming.{HasLines, reply_of};
ghost use Rattle.manager_core.specs.Concluding.{ComesOf, Waiting, known_after};
ghost use Rattle.manager_core.specs.Cores.{HasRoom, Parts, parts};
ghost use Rattle.manager_core.specs.Doings.{all_doing};
ghost use Rattle.manager_core.specs.Events.{MayCome, Comes, ComesAfter, StaysReady, stop_after};
ghost use Rattle.manager_core.specs.declared.manager.Event.{Event};

use crate::answers::Answer;
use crate::asking::ask_command;
use crate::coming::Came;
use crate::doings::Doings;
use crate::going::go_command;
use cell_world::items::Items;
use cell_world::outside::{World, WorldError};
use global_tables::known::KnownTables;
use plain_model::commands::Command;
use plain_model::history::{Entry, Journal};
use plain_model::replies::{Reply, Sort};
use script_lang::memory_lines::memory_line;
use std::alloc::Global;

/// What comes to a core.
#[derive(Drop)]
pub enum Event {
    /// A command of a session that has nothing going.
    Ask(Command),
    /// One step more of the command that the session has going.
    Go,
}

/// Why a core takes no more events.
#[derive(Clone, Copy, Debug, PartialEq, Eq)]
pub enum StopCause {
    /// A writing failed.
    Sink,
    /// An entry is `memory`, or a writing found no memory.
    Memory,
}

/// What became of an event.
#[derive(Clone, Copy, Debug, PartialEq, Eq)]
pub enum Outcome {
    /// The command goes on: its session has another `Go` to come. The number is that of its live operation.
    Going(u64),
    /// The command has an entry with a reply of this sort, whose lines are written.
    Ended(Sort),
    /// The core takes no more events. At the event that stopped it the command has an entry with a reply, whose lines are
    /// not written, or not all of them; at each later one nothing was done.
    Stopped(StopCause),
}

/// A world, the history of what was asked of it, and the copy of its tables.
#[derive(Drop)]
pub struct Core<W: World> {
    /// The stores and the output.
    pub world: W,
    /// The commands so far with their replies, in order; and until the core stops room for one entry more.
    pub journal: Journal,
    /// What the global cells say of maps, shards, tables, sites and jobs, until the core stops. None after a `fault`: then
    /// a call may have failed that changes them or not, and they are read again before they are next used.
    pub known: Option<KnownTables>,
    /// What each session does. Sessions are numbered from 1, at most 16.
    pub doings: Doings,
    /// Why no more events are taken.
    pub stop: Option<StopCause>,
}

/// The number that stands in front of the lines of a session, one of these.
fn tag_of(doings: &Doings, tagged: bool, session: u32) -> Option<u32>
    requires { (1 ≤ session) × (session ≤ length doings.now) }
    ensures tag { result ≡ tag_of tagged session }
    ensures number { IfSome result (λ number. (1 ≤ number) × (number ≤ 16)) }
{
    doings.few();
    if tagged { Some(session) } else { None }
}

/// Why the core takes no more events after a reply.
fn stop_after(reply: &Reply) -> Option<StopCause>
    ensures { result ≡ stop_after reply.now }
{
    match reply {
        Reply::Memory => Some(StopCause::Memory),
        _ => None,
    }
}

/// After `fault` the copy of the tables is let go: a call may have failed that changes them or not.
fn forget_after(reply: &Reply, known: &mut Option<KnownTables>)
    ensures { known.new ≡ known_after reply.now known.old }
{
    if let Reply::Fault = reply {
        *known = None;
    }
}

/// Writes the lines of a reply in one write.
fn write_lines<W: World>(
    alloc: Global,
    world: &mut W,
    tag: Option<u32>,
    lines: &Option<Items<u8>>,
) -> Result<(), WorldError>
    requires { IfSome tag (λ session. (1 ≤ session) × (session ≤ 16)) }
    ensures writes { (r : Reply) → AreLines tag r lines.now → WritesText (W.outside world.old).told (W.outside world.new).told (reply_lines tag r) result }
    ensures later { IsLater (W.outside world.old) (W.outside world.new) }
    ensures cause { IsErrOf result WorldError.Failed → Rose (W.outside world.old).sink_faults (W.outside world.new).sink_faults }
{
    match lines {
        Some(lines) => world.write(alloc, lines.as_slice()),
        None => world.write(alloc, memory_line(tag)),
    }
}

impl<W: World> Core<W> {
    /// One event of a session.
    ///
    /// `Ask`: what the session left is settled. A short command makes at most one transaction; a long one begins its operation
    /// and is going. `Go`: the operation of the command that is going makes its next transaction. A command that ends adds one
    /// entry to the history, and its reply is written in one write, each line with the session's number and a space in front
    /// where `tagged`.
    ///
    /// An event that ends with `fault` doesn't stop the core: its session rests, its operation is abandoned, if it had one, and
    /// the tables are read again before they are next used.
    /// `Stopped(Sink)`, `Stopped(Memory)`: the entry stands, and its lines are not all written; nothing is done from then on.
    pub fn event(&mut self, alloc: Global, session: u32, event: Event, tagged: bool) -> Outcome
        requires session { (1 ≤ session) × (session ≤ length self.old.doings) }
        requires may_come { MayCome event (all_doing self.old.doings session) }
        requires room { HasRoom self.old.journal self.old.stop }
        ensures comes { ComesAfter self.old.stop tagged session event
            (parts (W.outside self.old.world) self.old.journal.entries self.old.doings self.old.known self.old.stop)
            (parts (W.outside self.new.world) self.new.journal.entries self.new.doings self.new.known self.new.stop) result }
        // between two events the stores are steady beside what the sessions do, and the copy of the tables is what the global cells say
        ensures stays { StaysReady
            (parts (W.outside self.old.world) self.old.journal.entries self.old.doings self.old.known self.old.stop)
            (parts (W.outside self.new.world) self.new.journal.entries self.new.doings self.new.known self.new.stop) }
        ensures room { HasRoom self.new.journal self.new.stop }
        ensures sessions { length self.new.doings ≡ length self.old.doings }
        ensures later { IsLater (W.outside self.old.world) (W.outside self.new.world) }
    {
        if let Some(cause) = self.stop {
            return Outcome::Stopped(cause);
        }
        let tag = tag_of(&self.doings, tagged, session);
        match self.come(alloc, session, tag, event) {
            Came::Going(number) => Outcome::Going(number),
            Came::Ended(command, answer, number) => {
                self.conclude(alloc, session, tag, command, answer, number)
            }
        }
    }

    /// The event up to its entry: a command is asked, or one that is going goes on.
    fn come(&mut self, alloc: Global, session: u32, tag: Option<u32>, event: Event) -> Came
        requires session { (1 ≤ session) × (session ≤ length self.old.doings) }
        requires may_come { MayCome event (all_doing self.old.doings session) }
        requires room { 1 ≤ self.old.journal.room }
        ensures comes { ComesOf session event result
            (parts (W.outside self.old.world) self.old.journal.entries self.old.doings self.old.known self.old.stop)
            (parts (W.outside self.new.world) self.new.journal.entries self.new.doings self.new.known self.new.stop) }
        ensures lines { HasLines tag result }
        ensures room { (1 ≤ self.new.journal.room) × ((reply_of result ≡ Some Reply.Memory → ⊥) → 2 ≤ self.new.journal.room) }
        ensures sessions { length self.new.doings ≡ length self.old.doings }
        ensures later { IsLater (W.outside self.old.world) (W.outside self.new.world) }
    {
        match event {
            Event::Ask(command) => ask_command(
                alloc,
                &mut self.world,
                &mut self.journal,
                &mut self.known,
                &mut self.doings,
                session,
                tag,
                command,
            ),
            Event::Go => go_command(
                alloc,
                &mut self.world,
                &mut self.journal,
                &mut self.doings,
                session,
                tag,
            ),
        }
    }

    /// A command has ended: its entry is made, and its lines are written in one write. After `fault` the copy of the tables is
    /// let go.
    ///
    /// `Stopped(Sink)`, `Stopped(Memory)`: the entry stands, and its lines are not all written.
    fn conclude(
        &mut self,
        alloc: Global,
        session: u32,
        tag: Option<u32>,
        command: Command,
        answer: Answer,
        number: u64,
    ) -> Outcome
        requires tag { IfSome tag (λ number. (1 ≤ number) × (number ≤ 16)) }
        requires lines { AreLines tag answer.reply answer.lines }
        requires room { (1 ≤ self.old.journal.room) × ((answer.reply ≡ Reply.Memory → ⊥) → 2 ≤ self.old.journal.room) }
        ensures comes { (old : Parts) (event : Event) (tagged : Bool) → tag ≡ tag_of tagged session
            → Waiting session event command answer.reply number old (parts (W.outside self.old.world) self.old.journal.entries self.old.doings self.old.known self.old.stop)
            → Comes tagged session event old (parts (W.outside self.new.world) self.new.journal.entries self.new.doings self.new.known self.new.stop) result }
        ensures stays { (old : Parts) (event : Event)
            → Waiting session event command answer.reply number old (parts (W.outside self.old.world) self.old.journal.entries self.old.doings self.old.known self.old.stop)
            → StaysReady old (parts (W.outside self.new.world) self.new.journal.entries self.new.doings self.new.known self.new.stop) }
        ensures room { HasRoom self.new.journal self.new.stop }
        ensures sessions { length self.new.doings ≡ length self.old.doings }
        ensures later { IsLater (W.outside self.old.world) (W.outside self.new.world) }
    {
        let moment = self.world.moment();
        let sort = answer.reply.sort();
        self.stop = stop_after(&answer.reply);
        forget_after(&answer.reply, &mut self.known);
        self.journal.push(Entry {
            session,
            command,
            reply: Some(answer.reply),
            moment,
            operation: number,
        });
        match write_lines(alloc, &mut self.world, tag, &answer.lines) {
            Ok(()) => Outcome::Ended(sort),
            Err(WorldError::Failed) => {
                self.stop = Some(StopCause::Sink);
                Outcome::Stopped(StopCause::Sink)
            }
            Err(WorldError::Memory) => {
                self.stop = Some(StopCause::Memory);
                Outcome::Stopped(StopCause::Memory)
            }
        }
    }
}
