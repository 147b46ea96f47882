//! Stores and output in memory.
ghost use Rattle.std.specs.Prelude.{◌≡◌, ◌≤◌, ◌<◌, ◌+◌, ◌==◌, ◌∷◌, [], length, replicate, IsTrue, IfOk, IfSome, if◌then◌else◌};
ghost use Rattle.std.specs.List.{IsDistinct, AllByRecursion, position};
ghost use Rattle.cell_world.specs.Counts.{one_more, last_count};
ghost use Rattle.cell_world.specs.Keys.{same};
ghost use Rattle.cell_world.specs.Texts.{is_location};
ghost use Rattle.cell_world.specs.declared.limits.TheConstants.{MOST_LOCATIONS};
ghost use Rattle.world_memory.specs.Faults.{takes, no_plan};
ghost use Rattle.world_memory.specs.Kept.{IsAt, IsKept};
ghost use Rattle.world_memory.specs.Told.{wrote};
ghost use Rattle.world_memory.specs.Facts.{spelled_fact, distinct_fact, kept_fact};

use crate::contents::{Contents, Made};
use crate::copies::{bytes_copied, change_copied, happened_copied};
use crate::faults::{CallName, FaultPlan, Faults, PlannedFault, front, takes};
use crate::find::{find, floor, next_key, scan};
use cell_world::cells::{Cell, CellKey, Site};
use cell_world::changes::Change;
use cell_world::items::Items;
use cell_world::locations::Location;
use cell_world::memory::Memory;
use cell_world::names::Name;
use cell_world::norm_keys::NormKey;
use cell_world::outside::{World, WorldError};
use std::alloc::Global;

/// Stores and output in memory. The whole trail is told. A call fails exactly where a plan names it, and with no plan
/// none does; want of memory stops a call before it does anything.
///
/// What happened is kept in a list, and a call that changes something only adds to it. A table of cells follows the
/// list before it is read: once after each commit, so that a read costs what a sorted map costs.
#[derive(Drop)]
pub struct MemoryWorld {
    locations: Vec<Location>,
    /// All that happened, from empty stores on.
    happened: Vec<Made>,
    /// How many entries were before the trail begins.
    start: usize,
    contents: Contents,
    /// How often calls at each site failed: the first place is the global store's.
    failed: Vec<u64>,
    /// How often writing failed.
    sink: u64,
    /// How often the global store was read.
    reads: u64,
    /// Which calls are to fail.
    faults: Faults,
    ghost spelled: { AllByRecursion (λ location. IsTrue (is_location location)) locations.items } by { spelled_fact locations.items },
    ghost distinct: { IsDistinct same locations.items } by { distinct_fact locations.items },
    ghost few: { length locations.items ≤ MOST_LOCATIONS },
    ghost kept: { AllByRecursion IsKept happened.items } by { kept_fact happened.items },
    ghost within: { start ≤ length happened.items },
    ghost at: { IsAt happened.items contents.cells contents.done contents.part },
    ghost places: { length failed.items ≡ length locations.items + 1 },
    ghost sunk: { sink ≤ last_count },
    ghost counted: { reads ≤ last_count },
}

/// Tells that each of the locations is spelled. Does nothing.
fn known_locations(locations: &[Location])
    ensures { AllByRecursion (λ location. IsTrue (is_location location)) locations.now }
{
    for location in locations {
        location.known();
    }
}

/// Where a location stands among these.
fn place_of(locations: &[Location], at: &Location) -> Option<usize>
    ensures place { result ≡ position (same at.now) locations.now }
    ensures within { IfSome result (λ n. n < length locations.now) }
{
    locations
        .iter()
        .position(|location| at.cmp(location).is_eq())
}

/// How often the global store was read, with one read of this site.
fn counted(reads: u64, site: Site) -> u64
    ensures { result ≡ (if site.0 == 0 then one_more reads else reads) }
{
    if site.0 == 0 {
        reads.saturating_add(1)
    } else {
        reads
    }
}

/// What a tried change is kept as.
fn tried(site: Site, change: Change, took: bool) -> Made
    ensures { result ≡ (if took then Made.Committed site change else Made.Tried site change) }
{
    if took {
        Made::Committed(site, change)
    } else {
        Made::Tried(site, change)
    }
}

/// At each of so many sites no call failed.
fn none_failed(alloc: Global, sites: usize) -> Result<Vec<u64>, Memory>
    ensures { IfOk result (λ failed. failed.items ≡ replicate sites 0) }
{
    let failed = vec![in alloc; 0u64; sites]?;
    Ok(failed)
}

/// No call is to fail.
fn no_plan(alloc: Global) -> FaultPlan
    ensures { result ≡ no_plan }
{
    FaultPlan {
        calls: Items::new(alloc),
    }
}

/// The bytes that an entry wrote.
fn bytes_of(entry: &Made) -> &[u8]
    ensures { result.now ≡ wrote (entry.now ∷ []) }
{
    match entry {
        Made::Wrote(bytes) => bytes.as_slice(),
        _ => &[],
    }
}

impl MemoryWorld {
    ghost use Rattle.std.specs.Prelude.{OnOk, OnErr, Err};
    ghost use Rattle.cell_world.specs.Stores.{empty_store};
    ghost use Rattle.world_memory.specs.Kept.{Holds, store_after};
    ghost use Rattle.cell_world.specs.Images.{empty_image, image_at, end_of_trail, written};
    ghost use Rattle.cell_world.specs.Outside.{IfTrail, SameButFaults, IsNewWorld, IsSite, FailsWithRise, read_at, happens};
    ghost use Rattle.world_memory.specs.Faults.{GoesByPlan, made_so_far, with_plan, says, called, failed_by, sink_failed_by, read_by, fails_at};
    ghost use Rattle.world_memory.specs.Told.{fresh, told_as, leaves};
    ghost use Rattle.world_memory.specs.Memory.{outside_of, faults_of};

    /// Empty stores, the global one and one for each location, in which nothing happened yet.
    pub fn new(alloc: Global, locations: &[Location]) -> Result<MemoryWorld, Memory>
        requires distinct { IsDistinct same locations.now }
        requires few { length locations.now ≤ MOST_LOCATIONS }
        ensures empty { IfOk result (λ world. outside_of world ≡ fresh locations.now (empty_image locations.now)) }
        ensures counts { IfOk result (λ world. IsNewWorld (outside_of world)) }
        ensures planned { IfOk result (λ world. faults_of world ≡ with_plan no_plan) }
    {
        known_locations(locations);
        let failed = none_failed(alloc, locations.len() + 1)?;
        let locations = Vec::from_slice(alloc, locations)?;
        Ok(MemoryWorld {
            locations,
            happened: Vec::new(alloc),
            start: 0,
            contents: Contents::new(alloc),
            failed,
            sink: 0,
            reads: 0,
            faults: Faults::new(no_plan(alloc)),
        })
    }

    /// The same world, in which the calls that the plan names fail. The calls are counted from now on, and a plan that
    /// was given before is void. Takes no memory.
    pub fn with_faults(self, plan: FaultPlan) -> MemoryWorld
        ensures same { outside_of result ≡ outside_of self }
        ensures planned { faults_of result ≡ with_plan plan }
    {
        let mut world = self;
        world.faults = Faults::new(plan);
        world
    }

    /// How often a call was made since the plan was given, or else since the world was made. Takes no memory.
    pub fn calls_made(&self, call: CallName) -> u64
        ensures { result ≡ made_so_far (faults_of self.now).calls call }
    {
        self.faults.calls.of(call)
    }

    /// The world that a crash at a moment leaves: its stores are as they were then, and nothing happened yet.
    /// It copies what happened up to then, and makes its table at its first read. None of its calls is to fail.
    pub fn crashed(&self, alloc: Global, moment: u64) -> Result<MemoryWorld, Memory>
        requires { IfTrail (outside_of self.now).told (λ trail. moment ≤ end_of_trail trail) }
        ensures image { IfOk result (λ world. IfTrail (outside_of self.now).told (λ trail. outside_of world ≡ fresh (outside_of self.now).locations (image_at trail moment))) }
        ensures counts { IfOk result (λ world. IsNewWorld (outside_of world)) }
        ensures planned { IfOk result (λ world. faults_of world ≡ with_plan no_plan) }
    {
        let start = self.start + moment as usize;
        let failed = none_failed(alloc, self.locations.len() + 1)?;
        let locations = Vec::from_slice(alloc, self.locations.as_slice())?;
        let happened = happened_copied(&self.happened[..start], alloc)?;
        Ok(MemoryWorld {
            locations,
            happened,
            start,
            contents: Contents::new(alloc),
            failed,
            sink: 0,
            reads: 0,
            faults: Faults::new(no_plan(alloc)),
        })
    }

    /// Fails where the plan named a call at the site.
    fn answer(&mut self, site: Site, named: Option<PlannedFault>) -> Result<(), WorldError>
        requires { IsSite (outside_of self.old) site }
        ensures plan { GoesByPlan result named (failed_by (outside_of self.old) site) (outside_of self.old) (outside_of self.new) }
        ensures same { SameButFaults (outside_of self.old) (outside_of self.new) }
        ensures cause { FailsWithRise result ((outside_of self.old).faults_at site.0) ((outside_of self.new).faults_at site.0) }
        ensures planned { faults_of self.new ≡ faults_of self.old }
        ensures kept { self.new.happened ≡ self.old.happened }
        ensures never { result ≡ Err WorldError.Memory → ⊥ }
    {
        if named.is_some() {
            let number = site.0 as usize;
            self.failed[number] = self.failed[number].saturating_add(1);
            return Err(WorldError::Failed);
        }
        Ok(())
    }

    /// Fails where the plan named a write.
    fn answer_write(&mut self, named: Option<PlannedFault>) -> Result<(), WorldError>
        ensures plan { GoesByPlan result named (sink_failed_by (outside_of self.old)) (outside_of self.old) (outside_of self.new) }
        ensures planned { faults_of self.new ≡ faults_of self.old }
        ensures never { result ≡ Err WorldError.Memory → ⊥ }
    {
        if named.is_some() {
            self.sink = self.sink.saturating_add(1);
            return Err(WorldError::Failed);
        }
        Ok(())
    }

    /// Counts a read of the site, and makes the table hold what the stores hold now.
    fn follow(&mut self, alloc: Global, call: CallName, site: Site) -> Result<(), WorldError>
        requires { IsSite (outside_of self.old) site }
        ensures same { SameButFaults (read_at (outside_of self.old) site) (outside_of self.new) }
        ensures cause { FailsWithRise result ((outside_of self.old).faults_at site.0) ((outside_of self.new).faults_at site.0) }
        ensures plan { GoesByPlan result (says (faults_of self.old) call) (read_by (outside_of self.old) site) (read_at (outside_of self.old) site) (outside_of self.new) }
        ensures planned { faults_of self.new ≡ called (faults_of self.old) call }
        ensures holds { OnOk result (Holds self.new.contents.cells (λ n. store_after n empty_store self.old.happened.items)) }
    {
        let named = self.faults.called(call);
        self.reads = counted(self.reads, site);
        self.answer(site, named)?;
        self.contents.follow(alloc, self.happened.as_slice())?;
        Ok(())
    }

    /// Keeps one thing more that happened.
    fn keep(&mut self, entry: Made) -> Result<(), Memory>
        requires { IsKept entry }
        ensures ok { OnOk result (outside_of self.new ≡ happens (outside_of self.old) (told_as self.old.locations.items (leaves self.old.locations.items (empty_image self.old.locations.items) self.old.happened.items) entry)) }
        ensures err { OnErr result (outside_of self.new ≡ outside_of self.old) }
        ensures same { OnErr result (SameButFaults (outside_of self.old) (outside_of self.new)) }
        ensures planned { faults_of self.new ≡ faults_of self.old }
    {
        if self.happened.push(entry).is_err() {
            return Err(Memory);
        }
        Ok(())
    }

    /// The bytes that were written.
    pub fn output(&self, alloc: Global) -> Result<Vec<u8>, Memory>
        ensures { IfOk result (λ bytes. IfTrail (outside_of self.now).told (λ trail. bytes.items ≡ written trail.happened)) }
    {
        let mut bytes: Vec<u8> = Vec::new(alloc);
        for entry in &self.happened[self.start..] {
            if bytes.extend_from_slice(bytes_of(entry)).is_err() {
                return Err(Memory);
            }
        }
        Ok(bytes)
    }
}

impl World for MemoryWorld {
    ghost use Rattle.cell_world.specs.Stores.{cell_at};
    ghost use Rattle.cell_world.specs.Finding.{IsFloor, IsScan, IsNextKey};
    ghost use Rattle.cell_world.specs.Outside.{IsSite, SameButFaults, OfStore, FailsWithRise, Commits, Writes, Reopens, read_at};
    ghost use Rattle.world_memory.specs.Faults.{GoesByPlan, says, called, read_by, commit_by, write_by, reopen_by};
    ghost use Rattle.world_memory.specs.Laws.{is_world};
    ghost use Rattle.world_memory.specs.Memory.{outside_of, faults_of};

    ghost outside = { outside_of };

    ghost laws = { λ w. is_world w.locations.items w.happened.items w.failed.items w.start w.sink w.reads w.spelled w.distinct w.few w.kept w.sunk w.counted };

    fn locate(&self, at: &Location) -> Option<Site> {
        match place_of(self.locations.as_slice(), at) {
            Some(number) => Some(Site(number as u16 + 1)),
            None => None,
        }
    }

    fn read(&mut self, alloc: Global, site: Site, key: &CellKey) -> Result<Option<Cell>, WorldError>
        requires { IsSite (outside_of self.old) site }
        ensures found { IfOk result (λ found. OfStore (outside_of self.old) site (λ s. found ≡ cell_at s key.now)) }
        ensures same { SameButFaults (read_at (outside_of self.old) site) (outside_of self.new) }
        ensures cause { FailsWithRise result ((outside_of self.old).faults_at site.0) ((outside_of self.new).faults_at site.0) }
        ensures plan { GoesByPlan result (says (faults_of self.old) CallName.Read) (read_by (outside_of self.old) site) (read_at (outside_of self.old) site) (outside_of self.new) }
        ensures planned { faults_of self.new ≡ called (faults_of self.old) CallName.Read }
    {
        self.follow(alloc, CallName::Read, site)?;
        let found = find(&self.contents.cells, alloc, site, key)?;
        Ok(found)
    }

    fn commit(&mut self, alloc: Global, site: Site, change: &Change) -> Result<(), WorldError>
        requires { IsSite (outside_of self.old) site }
        ensures made { Commits (outside_of self.old) (outside_of self.new) site change.now result }
        ensures cause { FailsWithRise result ((outside_of self.old).faults_at site.0) ((outside_of self.new).faults_at site.0) }
        ensures plan { GoesByPlan result (says (faults_of self.old) CallName.Commit) (commit_by (outside_of self.old) site change.now) (outside_of self.old) (outside_of self.new) }
        ensures planned { faults_of self.new ≡ called (faults_of self.old) CallName.Commit }
    {
        change.known();
        let named = self.faults.called(CallName::Commit);
        let copy = change_copied(change, alloc)?;
        self.keep(tried(site, copy, takes(named)))?;
        self.answer(site, named)
    }

    fn write(&mut self, alloc: Global, bytes: &[u8]) -> Result<(), WorldError>
        ensures written { Writes (outside_of self.old) (outside_of self.new) bytes.now result }
        ensures cause { FailsWithRise result (outside_of self.old).sink_faults (outside_of self.new).sink_faults }
        ensures plan { GoesByPlan result (says (faults_of self.old) CallName.Write) (write_by (outside_of self.old) bytes.now) (outside_of self.old) (outside_of self.new) }
        ensures planned { faults_of self.new ≡ called (faults_of self.old) CallName.Write }
    {
        let named = self.faults.called(CallName::Write);
        let copy = bytes_copied(front(named, bytes), alloc)?;
        self.keep(Made::Wrote(copy))?;
        self.answer_write(named)
    }

    fn reopen(&mut self, alloc: Global, site: Site) -> Result<(), WorldError>
        requires { IsSite (outside_of self.old) site }
        ensures reopened { Reopens (outside_of self.old) (outside_of self.new) site result }
        ensures cause { FailsWithRise result ((outside_of self.old).faults_at site.0) ((outside_of self.new).faults_at site.0) }
        ensures plan { GoesByPlan result (says (faults_of self.old) CallName.Reopen) (reopen_by (outside_of self.old) site) (outside_of self.old) (outside_of self.new) }
        ensures planned { faults_of self.new ≡ called (faults_of self.old) CallName.Reopen }
    {
        let named = self.faults.called(CallName::Reopen);
        if named.is_some() {
            return self.answer(site, named);
        }
        self.keep(Made::Reopened(site))?;
        Ok(())
    }

    fn moment(&self) -> u64 {
        (self.happened.len() - self.start) as u64
    }

    fn floor(
        &mut self,
        alloc: Global,
        site: Site,
        key: &CellKey,
    ) -> Result<Option<Cell>, WorldError>
        requires { IsSite (outside_of self.old) site }
        ensures found { IfOk result (λ found. OfStore (outside_of self.old) site (λ s. IsFloor s key.now found)) }
        ensures same { SameButFaults (read_at (outside_of self.old) site) (outside_of self.new) }
        ensures cause { FailsWithRise result ((outside_of self.old).faults_at site.0) ((outside_of self.new).faults_at site.0) }
        ensures plan { GoesByPlan result (says (faults_of self.old) CallName.Floor) (read_by (outside_of self.old) site) (read_at (outside_of self.old) site) (outside_of self.new) }
        ensures planned { faults_of self.new ≡ called (faults_of self.old) CallName.Floor }
    {
        self.follow(alloc, CallName::Floor, site)?;
        let found = floor(&self.contents.cells, alloc, site, key)?;
        Ok(found)
    }

    fn scan(
        &mut self,
        alloc: Global,
        site: Site,
        from: &CellKey,
        limit: u32,
    ) -> Result<Vec<Cell>, WorldError>
        requires { IsSite (outside_of self.old) site }
        ensures found { IfOk result (λ found. OfStore (outside_of self.old) site (λ s. IsScan s from.now limit found.items)) }
        ensures same { SameButFaults (read_at (outside_of self.old) site) (outside_of self.new) }
        ensures cause { FailsWithRise result ((outside_of self.old).faults_at site.0) ((outside_of self.new).faults_at site.0) }
        ensures plan { GoesByPlan result (says (faults_of self.old) CallName.Scan) (read_by (outside_of self.old) site) (read_at (outside_of self.old) site) (outside_of self.new) }
        ensures planned { faults_of self.new ≡ called (faults_of self.old) CallName.Scan }
    {
        self.follow(alloc, CallName::Scan, site)?;
        let found = scan(&self.contents.cells, alloc, site, from, limit)?;
        Ok(found)
    }

    fn next_key(
        &mut self,
        alloc: Global,
        site: Site,
        map: &Name,
        from: &NormKey,
        past: bool,
    ) -> Result<Option<NormKey>, WorldError>
        requires { IsSite (outside_of self.old) site }
        ensures found { IfOk result (λ found. OfStore (outside_of self.old) site (λ s. IsNextKey s.rows map.now from.now past found)) }
        ensures same { SameButFaults (read_at (outside_of self.old) site) (outside_of self.new) }
        ensures cause { FailsWithRise result ((outside_of self.old).faults_at site.0) ((outside_of self.new).faults_at site.0) }
        ensures plan { GoesByPlan result (says (faults_of self.old) CallName.NextKey) (read_by (outside_of self.old) site) (read_at (outside_of self.old) site) (outside_of self.new) }
        ensures planned { faults_of self.new ≡ called (faults_of self.old) CallName.NextKey }
    {
        self.follow(alloc, CallName::NextKey, site)?;
        Ok(next_key(&self.contents.cells, site, map, from, past))
    }
}
