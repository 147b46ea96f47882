//! A core over stores in memory, and its events.
ghost use Rattle.std.specs.Prelude.{◌≡◌, ◌≤◌, true};
ghost use Rattle.map_ops.specs.Planning.{is_asked};
ghost use Rattle.manager_core.specs.Cores.{HasRoom};

use crate::commands::add;
use crate::turns::{Turn, add_here, on_key};
use crate::words::map;
use cell_world::locations::Location;
use cell_world::outside::World;
use manager_core::manager::{Core, Event, Outcome};
use manager_core::opening::{Standing, Tail};
use plain_model::commands::Command;
use plain_model::history::History;
use plain_model::replies::Sort;
use std::alloc::Global;
use std::test::Fail;
use world_memory::faults::FaultPlan;
use world_memory::world::MemoryWorld;

/// The command was done, or what it asked was told.
pub const GOOD: Outcome = Outcome::Ended(Sort::Good);

/// The command was refused, or waits.
pub const REFUSED: Outcome = Outcome::Ended(Sort::Refused);

/// A core between two events.
#[derive(Drop)]
pub struct Run {
    core: Core<MemoryWorld>,
    /// Whether each line has its session's number in front.
    tagged: bool,
    ghost room: { HasRoom core.journal core.stop },
}

/// A core that ended, its sessions settled.
#[derive(Drop)]
pub struct Over {
    /// What was asked and answered.
    pub history: History,
    /// The stores and the output.
    pub world: MemoryWorld,
}

impl Run {
    /// A core for so many sessions over a world.
    pub fn start(
        alloc: Global,
        world: MemoryWorld,
        sessions: u32,
        tagged: bool,
    ) -> Result<Run, Fail>
        requires { sessions ≤ 16 }
    {
        match Core::start(alloc, world, sessions) {
            Ok(core) => Ok(Run { core, tagged }),
            Err((_, _)) => Err(Fail::from("no core")),
        }
    }

    /// What it tells of a session.
    pub fn standing(&self, session: u32) -> Result<Standing, Fail> {
        if session == 0 {
            return Err(Fail::from("no session"));
        }
        if session > self.core.doings.sessions() {
            return Err(Fail::from("no such session"));
        }
        Ok(self.core.standing(session))
    }

    /// The session asks a command.
    pub fn ask(&mut self, alloc: Global, session: u32, command: Command) -> Result<Outcome, Fail>
        requires { is_asked command ≡ true }
    {
        if session == 0 {
            return Err(Fail::from("no session"));
        }
        if session > self.core.doings.sessions() {
            return Err(Fail::from("no such session"));
        }
        if self.core.standing(session).going {
            return Err(Fail::from("something is going"));
        }
        let event = Event::Ask(command);
        Ok(self.core.event(alloc, session, event, self.tagged))
    }

    /// What the session has going makes its next step.
    pub fn go(&mut self, alloc: Global, session: u32) -> Result<Outcome, Fail> {
        if session == 0 {
            return Err(Fail::from("no session"));
        }
        if session > self.core.doings.sessions() {
            return Err(Fail::from("no such session"));
        }
        if !self.core.standing(session).going {
            return Err(Fail::from("nothing is going"));
        }
        Ok(self.core.event(alloc, session, Event::Go, self.tagged))
    }

    /// The session goes on until its command ends.
    pub fn go_on(&mut self, alloc: Global, session: u32) -> Result<Outcome, Fail> {
        for _ in 0..3 {
            match self.go(alloc, session)? {
                Outcome::Going(_) => {}
                outcome => return Ok(outcome),
            }
        }
        Err(Fail::from("it goes on for more than three steps"))
    }

    /// The session asks `add m LOW HIGH LOCATION`.
    pub fn add(
        &mut self,
        alloc: Global,
        session: u32,
        low: &[u8],
        high: &[u8],
        at: Location,
    ) -> Result<Outcome, Fail> {
        self.ask(alloc, session, add(low, high, at)?)
    }

    /// The session takes a turn.
    pub fn take(&mut self, alloc: Global, session: u32, turn: Turn) -> Result<Outcome, Fail> {
        match turn {
            Turn::Add(low, high) => self.ask(alloc, session, add_here(alloc, low, high)?),
            Turn::Ask(verb, key) => self.ask(alloc, session, on_key(alloc, verb, key)?),
            Turn::List => self.ask(alloc, session, Command::List(map()?)),
            Turn::Shards => self.ask(alloc, session, Command::Shards(map()?)),
            Turn::Go => self.go(alloc, session),
            Turn::GoOn => self.go_on(alloc, session),
        }
    }

    /// Sessions take turns, each with what it is to come to. The place of the first that comes to something else; those behind it
    /// aren't taken.
    pub fn first_other(
        &mut self,
        alloc: Global,
        turns: &[(u32, Turn, Outcome)],
    ) -> Result<Option<usize>, Fail> {
        for (place, (session, turn, wanted)) in turns.iter().enumerate() {
            if self.take(alloc, *session, *turn)? != *wanted {
                return Ok(Some(place));
            }
        }
        Ok(None)
    }

    /// The same core once the turns were taken, each of which comes to what stands beside it.
    pub fn after(self, alloc: Global, turns: &[(u32, Turn, Outcome)]) -> Result<Run, Fail> {
        let mut run = self;
        match run.first_other(alloc, turns)? {
            None => Ok(run),
            Some(_) => Err(Fail::from("a turn comes to something else")),
        }
    }

    /// How many entries its history has.
    pub fn length(&self) -> u64 {
        self.core.length()
    }

    /// What was written.
    pub fn output(&self, alloc: Global) -> Result<Vec<u8>, Fail> {
        Ok(self.core.world.output(alloc)?)
    }

    /// How much has happened.
    pub fn moment(&self) -> u64 {
        self.core.world.moment()
    }

    /// The same core, in which the calls of the plan fail, counted from now on.
    pub fn failing(self, plan: FaultPlan) -> Run {
        let Run { core, tagged } = self;
        let Core {
            world,
            journal,
            known,
            doings,
            stop,
        } = core;
        let core = Core {
            world: world.with_faults(plan),
            journal,
            known,
            doings,
            stop,
        };
        Run { core, tagged }
    }

    /// What a crash would leave now.
    pub fn image(&self, alloc: Global) -> Result<MemoryWorld, Fail> {
        let world = &self.core.world;
        Ok(world.crashed(alloc, world.moment())?)
    }

    /// The core ends, whatever becomes of what its sessions left to settle.
    pub fn stop(self, alloc: Global) -> (Over, Tail) {
        let (history, tail, world) = self.core.finish(alloc);
        (Over { history, world }, tail)
    }

    /// The core ends.
    pub fn end(self, alloc: Global) -> Result<Over, Fail> {
        let (history, tail, world) = self.core.finish(alloc);
        if tail == Tail::Settled {
            Ok(Over { history, world })
        } else {
            Err(Fail::from("something is left"))
        }
    }
}
