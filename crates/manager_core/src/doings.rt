//! What each session of a core does.
ghost use Rattle.std.specs.Prelude.{◌≡◌, ◌≤◌, ◌<◌, Some, None, IfOk, IfSome, is_some, length};
ghost use Rattle.std.specs.List.{AllByRecursion};
ghost use Rattle.op_steps.specs.declared.live.TheConstants.{MOST_LIVE};
ghost use Rattle.operation_laws.specs.LiveNumbers.{AreTheLive};
ghost use Rattle.session_laws.specs.Doing as laws;
ghost use Rattle.session_laws.specs.Doing.{IsThen, going_of};
ghost use Rattle.operation_laws.specs.Left.{left_of, without_left};
ghost use Rattle.manager_core.specs.Doings.{AreAtRest, IsLeftOver, IsProper, all_doing, doing_of, with_live};

use cell_world::memory::Memory;
use cell_world::operations::Op;
use op_steps::live::LiveList;
use op_steps::stages::Stage;
use plain_model::commands::Command;
use std::alloc::Global;
use std::marker::Model;
use std::mem;

/// What a session does.
#[derive(Drop)]
pub enum Doing {
    /// Nothing is going, and nothing is left to be settled.
    Resting,
    /// Nothing is going. This operation was committed and is to be settled.
    Leaving(Op, Stage),
    /// A command is going: its operation is live, and has come to the stage.
    Operating(Command, Op, Stage),
}

/// A committed operation that a session has left to settle.
#[derive(Drop)]
pub struct LeftOver {
    pub op: Op,
    pub stage: Stage,
}

/// What each session does. Sessions are numbered from 1, at most 16. Contracts see the list.
#[derive(Drop)]
pub struct Doings {
    seats: Vec<Doing>,
}

impl Model for Doings {
    ghost use Rattle.std.specs.Prelude.{◌≤◌, List, length};
    ghost use Rattle.std.specs.List.{AllByRecursion};
    ghost use Rattle.manager_core.specs.declared.doings.Doing.{Doing};
    ghost use Rattle.manager_core.specs.Doings.{IsProper};

    ghost Value = { List Doing };

    ghost view = { λ doings. doings.seats.items };

    ghost invariant = { λ doings. (length doings.seats.items ≤ 16) × AllByRecursion IsProper doings.seats.items };
}

/// Adds the number of what a session has live, if it isn't listed.
fn add_live(live: &mut LiveList, doing: &Doing)
    requires { length live.old < MOST_LIVE }
    ensures { live.new ≡ with_live live.old doing.now }
{
    if let Doing::Operating(_, op, _) = doing {
        if !live.contains(op.number) {
            live.add(op.number);
        }
    }
}

impl Doings {
    /// So many sessions, each of which rests.
    pub fn new(alloc: Global, sessions: u32) -> Result<Doings, Memory>
        requires few { sessions ≤ 16 }
        ensures rest { IfOk result (λ doings. AreAtRest doings) }
        ensures sessions { IfOk result (λ doings. length doings ≡ sessions) }
    {
        let mut seats = Vec::new(alloc);
        for _ in 0..sessions {
            seats.push(Doing::Resting)?;
        }
        Ok(Doings { seats })
    }

    /// How many sessions there are.
    pub fn sessions(&self) -> u32
        ensures { result ≡ length self.now }
    {
        self.seats.len() as u32
    }

    /// There are at most 16. Nothing is done.
    pub fn few(&self)
        ensures { length self.now ≤ 16 }
    {
        let _ = &self.seats;
    }

    /// A command that is going is one operation, and what is left is committed. Nothing is done.
    pub fn proper(&self)
        ensures { AllByRecursion IsProper self.now }
    {
        let _ = &self.seats;
    }

    /// What the session does. From then on it rests.
    pub fn take(&mut self, session: u32) -> Doing
        requires { (1 ≤ session) × (session ≤ length self.old) }
        ensures was { doing_of result ≡ all_doing self.old session }
        ensures proper { IsProper result }
        ensures next { IsThen (all_doing self.old) session (laws.Resting None) (all_doing self.new) }
        ensures sessions { length self.new ≡ length self.old }
    {
        mem::replace(&mut self.seats[session as usize - 1], Doing::Resting)
    }

    /// The session does this from then on.
    pub fn put(&mut self, session: u32, doing: Doing)
        requires session { (1 ≤ session) × (session ≤ length self.old) }
        requires proper { IsProper doing }
        ensures next { IsThen (all_doing self.old) session (doing_of doing) (all_doing self.new) }
        ensures sessions { length self.new ≡ length self.old }
    {
        self.seats[session as usize - 1] = doing;
    }

    /// What the session has left to settle; from then on it has nothing to settle.
    pub fn take_left(&mut self, session: u32) -> Option<LeftOver>
        requires { (1 ≤ session) × (session ≤ length self.old) }
        ensures left { IfSome result (λ left. (left_of (all_doing self.old session) ≡ Some left.op) × IsLeftOver left) }
        ensures none { result ≡ None → left_of (all_doing self.old session) ≡ None }
        ensures next { IsThen (all_doing self.old) session (without_left (all_doing self.old session)) (all_doing self.new) }
        ensures sessions { length self.new ≡ length self.old }
    {
        match self.take(session) {
            Doing::Resting => None,
            Doing::Leaving(op, stage) => Some(LeftOver { op, stage }),
            Doing::Operating(command, op, stage) => {
                self.put(session, Doing::Operating(command, op, stage));
                None
            }
        }
    }

    /// Whether the session has a command going.
    pub fn is_going(&self, session: u32) -> bool
        requires { (1 ≤ session) × (session ≤ length self.now) }
        ensures { result ≡ is_some (going_of (all_doing self.now session)) }
    {
        matches!(self.seats[session as usize - 1], Doing::Operating(_, _, _))
    }

    /// The numbers of the live operations.
    pub fn live(&self) -> LiveList
        ensures { AreTheLive result (all_doing self.now) }
    {
        let mut live = LiveList::new();
        for doing in &self.seats {
            add_live(&mut live, doing);
        }
        live
    }
}
