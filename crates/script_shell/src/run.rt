//! The commands of a script, one after the other.
ghost use Rattle.std.specs.Prelude.{◌≡◌, ◌≤◌, ◌||◌, length, true, [], None};
ghost use Rattle.std.specs.List.{AllByRecursion};
ghost use Rattle.cell_world.specs.Outside.{IsLater};
ghost use Rattle.map_ops.specs.Planning.{is_asked};
ghost use Rattle.manager_core.specs.Cores.{HasRoom, parts};
ghost use Rattle.manager_core.specs.Doings.{AreAtRest, all_doing};
ghost use Rattle.manager_core.specs.Events.{IsResting};
ghost use Rattle.plain_model.specs.Headline.{StatusCause};
ghost use Rattle.script_shell.specs.Promises.{Runs, is_of_commands, no_causes};
ghost use Rattle.script_shell.specs.Ran.{Ran, IsAskedAlone};
ghost use Rattle.script_shell.specs.Serving.{GoesFurther, IsUnderWay, Serves};
ghost use Rattle.script_shell.specs.Stops.{fails, refuses, status_after, status_of, stop_of};

use cell_world::outside::World;
use manager_core::manager::{Core, Event, Outcome, StopCause};
use manager_core::opening::Tail;
use plain_model::commands::{Asked, Command};
use plain_model::finish::{Finish, RunStatus};
use plain_model::replies::Sort;
use std::alloc::Global;

/// The status with which the run stops after a command, if it does.
fn stopped(outcome: Outcome) -> Option<RunStatus>
    ensures { result ≡ stop_of outcome }
{
    match outcome {
        Outcome::Ended(Sort::Memory) => Some(RunStatus::Memory),
        Outcome::Ended(Sort::Good | Sort::Refused | Sort::Fault) => None,
        Outcome::Stopped(StopCause::Sink) => Some(RunStatus::WriteFault),
        Outcome::Stopped(StopCause::Memory) => Some(RunStatus::Memory),
        Outcome::Going(_) => None,
    }
}

/// Which replies came so far, of those that the status tells while the run goes on.
#[derive(Clone, Copy)]
struct Replied {
    /// A command was answered `fault`.
    faulted: bool,
    /// A command was refused.
    refused: bool,
}

impl Replied {
    /// After the reply of one command more.
    fn noting(self, outcome: Outcome) -> Replied
        ensures faulted { result.faulted ≡ (self.faulted || fails outcome) }
        ensures refused { result.refused ≡ (self.refused || refuses outcome) }
    {
        Replied {
            faulted: self.faulted || matches!(outcome, Outcome::Ended(Sort::Fault)),
            refused: self.refused || matches!(outcome, Outcome::Ended(Sort::Refused)),
        }
    }

    /// The status where all commands were answered.
    fn status(self) -> RunStatus
        ensures { result ≡ status_of self.faulted self.refused }
    {
        match (self.faulted, self.refused) {
            (true, _) => RunStatus::StoreFault,
            (false, true) => RunStatus::Refused,
            (false, false) => RunStatus::Done,
        }
    }
}

/// One step more of a command that is going.
fn go_on<W: World>(alloc: Global, core: &mut Core<W>, session: u32, outcome: Outcome) -> Outcome
    requires session { (1 ≤ session) × (session ≤ length core.old.doings) }
    requires under_way { IsUnderWay outcome (all_doing core.old.doings session) }
    requires room { HasRoom core.old.journal core.old.stop }
    ensures further { GoesFurther session outcome
        (parts (W.outside core.old.world) core.old.journal.entries core.old.doings core.old.known core.old.stop)
        (parts (W.outside core.new.world) core.new.journal.entries core.new.doings core.new.known core.new.stop) result }
    ensures under_way { IsUnderWay result (all_doing core.new.doings session) }
    ensures room { HasRoom core.new.journal core.new.stop }
    ensures sessions { length core.new.doings ≡ length core.old.doings }
    ensures later { IsLater (W.outside core.old.world) (W.outside core.new.world) }
{
    match outcome {
        Outcome::Going(_) => core.event(alloc, session, Event::Go, false),
        Outcome::Ended(_) | Outcome::Stopped(_) => outcome,
    }
}

/// Asks a command, and goes on until it has its reply. An operation comes to at most three stages before its commit: when
/// it begins, and by its two local steps.
fn run_command<W: World>(
    alloc: Global,
    core: &mut Core<W>,
    session: u32,
    command: Command,
) -> Outcome
    requires session { (1 ≤ session) × (session ≤ length core.old.doings) }
    requires asked { is_asked command ≡ true }
    requires rests { IsResting (all_doing core.old.doings session) }
    requires goes { core.old.stop ≡ None }
    requires room { HasRoom core.old.journal core.old.stop }
    ensures serves { Serves session command
        (parts (W.outside core.old.world) core.old.journal.entries core.old.doings core.old.known core.old.stop)
        (parts (W.outside core.new.world) core.new.journal.entries core.new.doings core.new.known core.new.stop) result }
    ensures room { HasRoom core.new.journal core.new.stop }
    ensures sessions { length core.new.doings ≡ length core.old.doings }
    ensures later { IsLater (W.outside core.old.world) (W.outside core.new.world) }
{
    let asked = core.event(alloc, session, Event::Ask(command), false);
    core.doings.proper();
    let first = go_on(alloc, core, session, asked);
    let second = go_on(alloc, core, session, first);
    go_on(alloc, core, session, second)
}

/// Asks the commands in order, and says how they ended. A `fault` ends no run: the commands behind it are asked too.
fn run_commands<W: World>(alloc: Global, core: &mut Core<W>, script: Vec<Asked>) -> RunStatus
    requires first { core.old.journal.entries ≡ [] }
    requires goes { core.old.stop ≡ None }
    requires room { HasRoom core.old.journal core.old.stop }
    requires rests { AreAtRest core.old.doings }
    requires one_session { length core.old.doings ≡ 1 }
    requires asked { AllByRecursion IsAskedAlone script.items }
    ensures ran { Ran script.items
        (parts (W.outside core.old.world) core.old.journal.entries core.old.doings core.old.known core.old.stop)
        (parts (W.outside core.new.world) core.new.journal.entries core.new.doings core.new.known core.new.stop) result }
{
    let mut replied = Replied {
        faulted: false,
        refused: false,
    };
    for asked in script {
        let outcome = run_command(alloc, core, asked.session, asked.command);
        if let Some(status) = stopped(outcome) {
            return status;
        }
        replied = replied.noting(outcome);
    }
    replied.status()
}

/// The status of a run, by that of its commands and by what became of what they left to settle.
fn status_after(status: RunStatus, tail: Tail) -> RunStatus
    ensures { result ≡ status_after status tail }
{
    match tail {
        Tail::Memory => match status {
            RunStatus::Done | RunStatus::Refused | RunStatus::StoreFault => RunStatus::Memory,
            other => other,
        },
        Tail::Settled | Tail::Store => status,
    }
}

/// Asks the commands in order, settles what they left, and says how the run ended.
pub fn run_core<W: World>(alloc: Global, core: Core<W>, script: Vec<Asked>) -> (Finish, W)
    requires first { core.journal.entries ≡ [] }
    requires goes { core.stop ≡ None }
    requires room { HasRoom core.journal core.stop }
    requires rests { AreAtRest core.doings }
    requires one_session { length core.doings ≡ 1 }
    requires asked { AllByRecursion IsAskedAlone script.items }
    ensures runs { Runs script.items (parts (W.outside core.world) core.journal.entries core.doings core.known core.stop) (W.outside result.1) result.0.history result.0.status }
    ensures cause { StatusCause no_causes (W.outside core.world) (W.outside result.1) result.0.history result.0.status }
    ensures of_commands { is_of_commands result.0.status ≡ true }
{
    let mut core = core;
    let status = run_commands(alloc, &mut core, script);
    let (history, tail, world) = core.finish(alloc);
    (
        Finish {
            status: status_after(status, tail),
            history,
        },
        world,
    )
}
