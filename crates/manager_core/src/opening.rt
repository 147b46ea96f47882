//! How a core begins, what it tells of itself, and how it ends.
ghost use Rattle.std.specs.Prelude.{◌≡◌, ◌⊎◌, ◌≤◌, ◌&&◌, ◌==◌, [], None, length, filter, is_some, false, IfOk, IfErr, IsErrOf, IsOk, IsSomeAnd};
ghost use Rattle.cell_world.specs.Outside.{IfContents, IsLater, StoreRoseBy};
ghost use Rattle.plain_model.specs.Headline.{answered_by};
ghost use Rattle.plain_model.specs.declared.history.Entry.{Entry};
ghost use Rattle.manager_core.specs.Answering.{IsCopy};
ghost use Rattle.cell_world.specs.Sound.{Sound};
ghost use Rattle.session_laws.specs.Doing.{going_of};
ghost use Rattle.manager_core.specs.Cores.{HasRoom, IsReady, FaultHasCause, Finishes, KnowsAll, Opens, AreRecovered, parts};
ghost use Rattle.manager_core.specs.Doings.{AreAtRest, all_doing};

use crate::doings::Doings;
use crate::ending::settle_rest;
use crate::manager::Core;
use cell_world::locations::Location;
use cell_world::memory::Memory;
use cell_world::outside::World;
use global_tables::faults::StepFault;
use global_tables::known::KnownTables;
use op_steps::undoing::recover;
use plain_model::history::{Entry, History, Journal};
use site_names::unknown::first_unknown;
use std::alloc::Global;

/// Why a core can't begin.
#[derive(Clone, Copy, PartialEq, Eq)]
pub enum StartFault {
    /// A store refused.
    Store,
    /// Want of memory.
    Memory,
    /// The first location in cell order that the global store names and the world doesn't know.
    UnknownLocation(Location),
}

/// How a core ended: what became of what its sessions had left to settle.
#[derive(Clone, Copy, Debug, PartialEq, Eq)]
pub enum Tail {
    /// Nothing of an operation that was committed is left.
    Settled,
    /// A store refused while an operation was settled: marks of it are left, and those that came after it aren't settled.
    Store,
    /// So for want of memory.
    Memory,
}

/// What a core tells of a session.
#[derive(Clone, Copy, Debug, PartialEq, Eq)]
pub struct Standing {
    /// How many entries with a reply it has.
    pub answered: u64,
    /// Whether it has something going.
    pub going: bool,
}

impl From<StepFault> for StartFault {
    ghost use Rattle.global_tables.specs.declared.faults.StepFault.TheVariants as step;
    ghost use Rattle.manager_core.specs.declared.opening.StartFault.TheVariants as start;

    ghost from_gives = { λ from to. (from ≡ step.Store → to ≡ start.Store) × (from ≡ step.Memory → to ≡ start.Memory) };

    fn from(fault: StepFault) -> StartFault {
        match fault {
            StepFault::Store => StartFault::Store,
            StepFault::Memory => StartFault::Memory,
        }
    }
}

/// Undoes each operation that is logged, and copies the tables.
fn open_tables<W: World>(alloc: Global, world: &mut W) -> Result<KnownTables, StepFault>
    ensures opens { Opens (W.outside world.old).told (W.outside world.new).told }
    ensures sound { IfContents (W.outside world.old).told Sound → IfContents (W.outside world.new).told Sound }
    ensures recovers { IsOk result → AreRecovered (W.outside world.old).told (W.outside world.new).told }
    ensures copy { IfOk result (λ known. IsCopy known (W.outside world.new).told) }
    ensures cause { IsErrOf result StepFault.Store → StoreRoseBy 1 (W.outside world.old) (W.outside world.new) }
    ensures later { IsLater (W.outside world.old) (W.outside world.new) }
{
    match recover(alloc, world) {
        Ok(()) => KnownTables::read(alloc, world),
        Err(fault) => Err(fault),
    }
}

/// Looks whether the world knows all locations that the global store names, and then opens the stores.
fn open_stores<W: World>(alloc: Global, world: &mut W) -> Result<KnownTables, StartFault>
    ensures opens { Opens (W.outside world.old).told (W.outside world.new).told }
    ensures sound { IfContents (W.outside world.old).told Sound → IfContents (W.outside world.new).told Sound }
    ensures recovers { IsOk result → AreRecovered (W.outside world.old).told (W.outside world.new).told }
    ensures copy { IfOk result (λ known. IsCopy known (W.outside world.new).told) }
    ensures all_known { IsOk result → KnowsAll (W.outside world.old) }
    ensures untouched { ((W.outside world.new).told ≡ (W.outside world.old).told) ⊎ KnowsAll (W.outside world.old) }
    ensures fault { IfErr result (FaultHasCause (W.outside world.old) (W.outside world.new)) }
    ensures later { IsLater (W.outside world.old) (W.outside world.new) }
{
    match first_unknown(alloc, world) {
        Ok(None) => match open_tables(alloc, world) {
            Ok(known) => Ok(known),
            Err(fault) => Err(StartFault::from(fault)),
        },
        Ok(Some(location)) => Err(StartFault::UnknownLocation(location)),
        Err(fault) => Err(StartFault::from(fault)),
    }
}

impl<W: World> Core<W> {
    /// A core over a world, for sessions with the numbers from 1 to this one, at most 16. Each operation that was logged is
    /// undone: what the stores stand for stays.
    ///
    /// The fault hands the world back: `UnknownLocation`, the global store names a location that the world doesn't know, and
    /// nothing was changed; `Store`, a store refused; `Memory`, want of memory. After these two some logged operations may
    /// be undone.
    pub fn start(alloc: Global, world: W, sessions: u32) -> Result<Core<W>, (StartFault, W)>
        requires sessions { sessions ≤ 16 }
        ensures history { IfOk result (λ core. core.journal.entries ≡ []) }
        ensures goes { IfOk result (λ core. core.stop ≡ None) }
        ensures sessions { IfOk result (λ core. length core.doings ≡ sessions) }
        ensures room { IfOk result (λ core. HasRoom core.journal core.stop) }
        // the copy of the tables is what the global cells say, and all locations that they name are known
        ensures copy { IfOk result (λ core. IsSomeAnd core.known (λ known. IsCopy known (W.outside core.world).told)) }
        ensures all_known { IfOk result (λ core. KnowsAll (W.outside world)) }
        // it rests, the stores stand for the same as before, and no operation is logged
        ensures opens { IfOk result (λ core. Opens (W.outside world).told (W.outside core.world).told) }
        ensures recovers { IfOk result (λ core. AreRecovered (W.outside world).told (W.outside core.world).told) }
        ensures rests { IfOk result (λ core. AreAtRest core.doings) }
        ensures ready { IfOk result (λ core. IfContents (W.outside world).told Sound → IsReady (parts (W.outside core.world) core.journal.entries core.doings core.known core.stop)) }
        ensures later { IfOk result (λ core. IsLater (W.outside world) (W.outside core.world)) }
        // else what was done is sound at each moment, and nothing was where a location is unknown
        ensures fault { IfErr result (λ stop. FaultHasCause (W.outside world) (W.outside stop.1) stop.0) }
        ensures fault_opens { IfErr result (λ stop. Opens (W.outside world).told (W.outside stop.1).told) }
        ensures untouched { IfErr result (λ stop. ((W.outside stop.1).told ≡ (W.outside world).told) ⊎ KnowsAll (W.outside world)) }
        ensures fault_later { IfErr result (λ stop. IsLater (W.outside world) (W.outside stop.1)) }
    {
        let mut world = world;
        let known = match open_stores(alloc, &mut world) {
            Ok(known) => known,
            Err(fault) => return Err((fault, world)),
        };
        let mut journal = Journal::new(alloc);
        match (journal.make_room(1), Doings::new(alloc, sessions)) {
            (Ok(()), Ok(doings)) => Ok(Core {
                world,
                journal,
                known: Some(known),
                doings,
                stop: None,
            }),
            _ => Err((StartFault::Memory, world)),
        }
    }

    /// The number of entries of its history. Takes no memory.
    pub fn length(&self) -> u64
        ensures { result ≡ length self.now.journal.entries }
    {
        self.journal.len() as u64
    }

    /// What it tells of a session, one of its own. Takes no memory.
    pub fn standing(&self, session: u32) -> Standing
        requires { (1 ≤ session) × (session ≤ length self.now.doings) }
        ensures answered { result.answered ≡ length (answered_by session self.now.journal.entries) }
        ensures going { result.going ≡ is_some (going_of (all_doing self.now.doings session)) }
    {
        Standing {
            answered: answered(session, self.journal.as_slice()),
            going: self.doings.is_going(session),
        }
    }

    /// The core ends: what its sessions left is settled, and its history and the world are handed back.
    pub fn finish(self, alloc: Global) -> (History, Tail, W)
        ensures history { result.0 ≡ self.journal.entries }
        ensures finishes { Finishes (parts (W.outside self.world) self.journal.entries self.doings self.known self.stop) (W.outside result.2) result.1 }
        ensures later { IsLater (W.outside self.world) (W.outside result.2) }
    {
        let Core {
            mut world,
            journal,
            known: _,
            mut doings,
            stop: _,
        } = self;
        let tail = settle_rest(alloc, &mut world, &mut doings);
        (journal.into_history(), tail, world)
    }
}

/// How many of the entries have a reply and are of the session.
fn answered(session: u32, entries: &[Entry]) -> u64
    ensures { result ≡ length (filter (λ (e : Entry). (e.session == session) && is_some e.reply) entries.now) }
{
    entries
        .iter()
        .filter(|entry| entry.session == session && entry.reply.is_some())
        .count() as u64
}
