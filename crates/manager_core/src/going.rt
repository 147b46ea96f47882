//! A command that is going goes on.
ghost use Rattle.std.specs.Prelude.{◌≡◌, ◌≤◌, ℕ, true, Option, Some, IfOk, IsOk, length};
ghost use Rattle.cell_world.specs.Outside.{IsLater};
ghost use Rattle.map_ops.specs.Planning.{is_long};
ghost use Rattle.op_steps.specs.Stages.{name_of};
ghost use Rattle.operation_laws.specs.Forward.{IsForward};
ghost use Rattle.plain_model.specs.Lines.{reply_lines};
ghost use Rattle.manager_core.specs.Coming.{GoesOn, HasLines, reply_of};
ghost use Rattle.manager_core.specs.Doings.{all_doing};
ghost use Rattle.manager_core.specs.Events.{IsOperating};
ghost use Rattle.manager_core.specs.Moving.{GoesFrom};

use crate::answers::{Answer, no_memory};
use crate::coming::Came;
use crate::doings::{Doing, Doings};
use crate::moving::{Moved, move_on};
use cell_world::items::Items;
use cell_world::memory::Memory;
use cell_world::operations::Op;
use cell_world::outside::World;
use op_steps::stages::Stage;
use plain_model::commands::Command;
use plain_model::history::Journal;
use plain_model::replies::Reply;
use script_lang::replies::write_reply;
use std::alloc::Global;

/// The lines of both answers to which a transaction may lead.
#[derive(Drop)]
struct Lines {
    done: Items<u8>,
    fault: Items<u8>,
}

/// Makes the lines. `Memory`: nothing was done.
fn make_lines(alloc: Global, tag: Option<u32>) -> Result<Lines, Memory>
    ensures done { IfOk result (λ lines. lines.done ≡ reply_lines tag Reply.Ok) }
    ensures fault { IfOk result (λ lines. lines.fault ≡ reply_lines tag Reply.Fault) }
{
    let done = write_reply(alloc, tag, &Reply::Ok)?;
    let fault = write_reply(alloc, tag, &Reply::Fault)?;
    Ok(Lines {
        done: Items::from_vec(done),
        fault: Items::from_vec(fault),
    })
}

/// Makes room for the entry and for one more, and the lines. `Memory`: nothing else was done.
fn make_ready(alloc: Global, journal: &mut Journal, tag: Option<u32>) -> Result<Lines, Memory>
    requires { 1 ≤ journal.old.room }
    ensures entries { journal.new.entries ≡ journal.old.entries }
    ensures room { 1 ≤ journal.new.room }
    ensures more { IsOk result → 2 ≤ journal.new.room }
    ensures done { IfOk result (λ lines. lines.done ≡ reply_lines tag Reply.Ok) }
    ensures fault { IfOk result (λ lines. lines.fault ≡ reply_lines tag Reply.Fault) }
{
    journal.make_room(2)?;
    make_lines(alloc, tag)
}

/// The next transaction of a command whose session rests meanwhile. After it the session has the operation live again, or has it left to
/// settle, or rests.
fn go_on<W: World>(
    alloc: Global,
    world: &mut W,
    doings: &mut Doings,
    session: u32,
    lines: Lines,
    command: Command,
    op: Op,
    stage: Stage,
) -> Came
    requires session { (1 ≤ session) × (session ≤ length doings.old) }
    requires long { is_long command ≡ true }
    requires forward { IsForward (name_of stage) }
    ensures comes { GoesFrom session command op (name_of stage) result (all_doing doings.old) (all_doing doings.new) (W.outside world.old) (W.outside world.new) }
    ensures lines { (tag : Option ℕ) → lines.done ≡ reply_lines tag Reply.Ok → lines.fault ≡ reply_lines tag Reply.Fault → HasLines tag result }
    ensures sessions { length doings.new ≡ length doings.old }
    ensures later { IsLater (W.outside world.old) (W.outside world.new) }
{
    let number = op.number;
    match move_on(alloc, world, &op, stage) {
        Moved::On(next) => {
            doings.put(session, Doing::Operating(command, op, next));
            Came::Going(number)
        }
        Moved::Done(next) => {
            doings.put(session, Doing::Leaving(op, next));
            let answer = Answer {
                reply: Reply::Ok,
                lines: Some(lines.done),
            };
            Came::Ended(command, answer, number)
        }
        Moved::Store => {
            let answer = Answer {
                reply: Reply::Fault,
                lines: Some(lines.fault),
            };
            Came::Ended(command, answer, number)
        }
        Moved::Memory => Came::Ended(command, no_memory(), number),
    }
}

/// A session whose command is going takes the next step: one transaction.
///
/// Room for the entry and for one more, and for the lines of `ok` and `fault`, is made before it. Where memory is short for that, or a step
/// fails, the operation is abandoned, and the entry that names it comes next.
pub fn go_command<W: World>(
    alloc: Global,
    world: &mut W,
    journal: &mut Journal,
    doings: &mut Doings,
    session: u32,
    tag: Option<u32>,
) -> Came
    requires session { (1 ≤ session) × (session ≤ length doings.old) }
    requires goes { IsOperating (all_doing doings.old session) }
    requires room { 1 ≤ journal.old.room }
    ensures comes { GoesOn session result (all_doing doings.old) (all_doing doings.new) (W.outside world.old) (W.outside world.new) }
    ensures lines { HasLines tag result }
    ensures entries { journal.new.entries ≡ journal.old.entries }
    ensures room { (1 ≤ journal.new.room) × ((reply_of result ≡ Some Reply.Memory → ⊥) → 2 ≤ journal.new.room) }
    ensures sessions { length doings.new ≡ length doings.old }
    ensures later { IsLater (W.outside world.old) (W.outside world.new) }
{
    match doings.take(session) {
        Doing::Operating(command, op, stage) => match make_ready(alloc, journal, tag) {
            Ok(lines) => go_on(alloc, world, doings, session, lines, command, op, stage),
            Err(Memory) => Came::Ended(command, no_memory(), op.number),
        },
        Doing::Resting | Doing::Leaving(_, _) => unreachable!(),
    }
}
