//! What a command is answered, and what it changes.
ghost use Rattle.std.specs.Prelude.{◌≡◌, ◌⊎◌, ℕ, [], true, Option, IsErrOf, IfOk};
ghost use Rattle.cell_world.specs.Counts.{Rose};
ghost use Rattle.cell_world.specs.Images.{Image, global};
ghost use Rattle.cell_world.specs.Outside.{IfContents, IsLater};
ghost use Rattle.cell_world.specs.Sound.{Sound};
ghost use Rattle.cell_world.specs.Stores.{Store, IsKeyed, changed};
ghost use Rattle.global_tables.specs.Known.{known_of};
ghost use Rattle.map_ops.specs.Planning.{PlansChange};
ghost use Rattle.plain_model.specs.ShortCommands.{is_short};
ghost use Rattle.plain_model.specs.OnTrail.{logs_put};
ghost use Rattle.plain_model.specs.Lines.{reply_lines};
ghost use Rattle.manager_core.specs.Answering.{CommitsChange, AreLines};
ghost use Rattle.manager_core.specs.Asking.{AnswersNow, MakesChange};
ghost use Rattle.manager_core.specs.Doings.{all_doing};

use crate::clearing::clear;
use crate::doings::Doings;
use cell_world::cells::Site;
use cell_world::changes::Change;
use cell_world::items::Items;
use cell_world::memory::Memory;
use cell_world::operations::Reach;
use cell_world::outside::{World, WorldError};
use global_tables::faults::StepFault;
use global_tables::known::KnownTables;
use plain_model::commands::Command;
use plain_model::replies::Reply;
use script_lang::replies::write_reply;
use std::alloc::Global;

/// A reply with its lines. Without lines the reply is `memory`.
#[derive(Drop)]
pub struct Answer {
    pub reply: Reply,
    pub lines: Option<Items<u8>>,
}

/// The answer `memory`. Takes no memory.
pub fn no_memory() -> Answer
    ensures reply { result.reply ≡ Reply.Memory }
    ensures lines { (tag : Option ℕ) → AreLines tag result.reply result.lines }
{
    Answer {
        reply: Reply::Memory,
        lines: None,
    }
}

/// The answer with this reply; or `memory`, where there is none for its lines.
pub fn answer_with(alloc: Global, tag: Option<u32>, reply: Reply) -> Answer
    ensures reply { (result.reply ≡ reply) ⊎ (result.reply ≡ Reply.Memory) }
    ensures lines { AreLines tag result.reply result.lines }
{
    match write_reply(alloc, tag, &reply) {
        Ok(lines) => Answer {
            reply,
            lines: Some(Items::from_vec(lines)),
        },
        Err(Memory) => no_memory(),
    }
}

/// Makes a change in one transaction of the global store.
fn commit<W: World>(alloc: Global, world: &mut W, change: &Change) -> Result<(), WorldError>
    ensures commits { CommitsChange (W.outside world.old).told (W.outside world.new).told change.now result }
    ensures later { IsLater (W.outside world.old) (W.outside world.new) }
    ensures cause { IsErrOf result WorldError.Failed → Rose ((W.outside world.old).faults_at 0) ((W.outside world.new).faults_at 0) }
{
    world.commit(alloc, Site::GLOBAL, change)
}

/// What an event has ready before it commits a change: the lines of both outcomes, and the changed copy of the tables.
#[derive(Drop)]
struct Ready {
    done: Items<u8>,
    fault: Items<u8>,
    known: KnownTables,
}

/// Makes all ready for a change. `Memory`: nothing was done.
fn make_ready(
    alloc: Global,
    known: &KnownTables,
    tag: Option<u32>,
    change: &Change,
) -> Result<Ready, Memory>
    ensures done { IfOk result (λ ready. ready.done ≡ reply_lines tag Reply.Ok) }
    ensures fault { IfOk result (λ ready. ready.fault ≡ reply_lines tag Reply.Fault) }
    ensures known { IfOk result (λ ready. (s : Store) → IsKeyed s → known.now ≡ known_of s → ready.known ≡ known_of (changed s change.now)) }
{
    let done = write_reply(alloc, tag, &Reply::Ok)?;
    let fault = write_reply(alloc, tag, &Reply::Fault)?;
    let known = known.changed(alloc, change)?;
    Ok(Ready {
        done: Items::from_vec(done),
        fault: Items::from_vec(fault),
        known,
    })
}

/// Makes the change of a plan in one transaction; then the reply is `ok`.
fn commit_change<W: World>(
    alloc: Global,
    world: &mut W,
    known: &mut KnownTables,
    change: &Change,
    ready: Ready,
) -> Answer
    requires no_log { logs_put change.now ≡ [] }
    requires known { (s : Store) → IsKeyed s → known.old ≡ known_of s → ready.known ≡ known_of (changed s change.now) }
    ensures makes { MakesChange change.now result.reply known.old known.new (W.outside world.old) (W.outside world.new) }
    ensures lines { (tag : Option ℕ) → ready.done ≡ reply_lines tag Reply.Ok → ready.fault ≡ reply_lines tag Reply.Fault → AreLines tag result.reply result.lines }
    ensures later { IsLater (W.outside world.old) (W.outside world.new) }
{
    match commit(alloc, world, change) {
        Ok(()) => {
            *known = ready.known;
            Answer {
                reply: Reply::Ok,
                lines: Some(ready.done),
            }
        }
        Err(WorldError::Failed) => Answer {
            reply: Reply::Fault,
            lines: Some(ready.fault),
        },
        Err(WorldError::Memory) => no_memory(),
    }
}

/// Makes the change of a plan. Room for the lines of both outcomes and for the changed copy of the tables is made before the transaction.
///
/// `Fault`: a store call failed, and the change was made or wasn't. `Memory`: it wasn't made.
fn make_change<W: World>(
    alloc: Global,
    world: &mut W,
    known: &mut KnownTables,
    tag: Option<u32>,
    change: &Change,
) -> Answer
    requires no_log { logs_put change.now ≡ [] }
    ensures makes { MakesChange change.now result.reply known.old known.new (W.outside world.old) (W.outside world.new) }
    ensures lines { AreLines tag result.reply result.lines }
    ensures later { IsLater (W.outside world.old) (W.outside world.new) }
{
    match make_ready(alloc, known, tag, change) {
        Ok(ready) => commit_change(alloc, world, known, change, ready),
        Err(Memory) => no_memory(),
    }
}

/// The reply to a short command whose change is planned: the way of its reach is cleared, and the change is made.
///
/// `Pending`: the live operation of this number is in its way, and nothing was done. `Fault`: a store call failed, and the change was
/// made or wasn't. `Memory`: it wasn't made.
pub fn answer_change<W: World>(
    alloc: Global,
    world: &mut W,
    known: &mut KnownTables,
    doings: &Doings,
    tag: Option<u32>,
    command: &Command,
    reach: &Reach,
    change: &Change,
) -> Answer
    requires planned { is_short command.now ≡ true }
    requires no_log { logs_put change.now ≡ [] }
    requires plans { IfContents (W.outside world.old).told (λ (image : Image). Sound image → known.old ≡ known_of (global image) → PlansChange command.now reach.now change.now Reply.Ok image) }
    ensures answers { AnswersNow command.now result.reply known.old known.new (all_doing doings.now) (W.outside world.old) (W.outside world.new) }
    ensures lines { AreLines tag result.reply result.lines }
    ensures later { IsLater (W.outside world.old) (W.outside world.new) }
{
    match clear(alloc, world, reach, &doings.live()) {
        Ok(None) => make_change(alloc, world, known, tag, change),
        Ok(Some(number)) => answer_with(alloc, tag, Reply::Pending(number)),
        Err(StepFault::Store) => answer_with(alloc, tag, Reply::Fault),
        Err(StepFault::Memory) => no_memory(),
    }
}
