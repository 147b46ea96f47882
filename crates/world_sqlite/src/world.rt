//! Stores in `sqlite`, and a writer of std as the output.
ghost use Rattle.std.specs.Prelude.{◌≡◌, ◌≤◌, ◌<◌, ◌+◌, ◌==◌, true, length, IsTrue, IfSome, OnOk, if◌then◌else◌};
ghost use Rattle.std.specs.List.{IsDistinct, AllByRecursion, position};
ghost use Rattle.cell_world.specs.Counts.{one_more, last_count};
ghost use Rattle.cell_world.specs.Keys.{same};
ghost use Rattle.cell_world.specs.Texts.{is_location};
ghost use Rattle.cell_world.specs.declared.limits.TheConstants.{MOST_LOCATIONS};
ghost use Rattle.cell_world.specs.Images.{empty_image};
ghost use Rattle.cell_world.specs.Outside.{TellsContents};
ghost use Rattle.cell_world.specs.Stores.{empty_store};
ghost use Rattle.sqlite_site.specs.Kept.{store_of};
ghost use Rattle.world_sqlite.specs.Counted.{AreFresh, AreEmpty};
ghost use Rattle.world_sqlite.specs.Facts.{spelled_fact, distinct_fact};

use cell_world::cells::{Cell, CellKey, Site as SiteNumber};
use cell_world::changes::Change;
use cell_world::locations::Location;
use cell_world::memory::Memory;
use cell_world::names::Name;
use cell_world::norm_keys::NormKey;
use cell_world::outside::{World, WorldError};
use sqlite_site::{Keeping, Site};
use std::alloc::Global;
use std::io::Write;

/// Stores in `sqlite`: the global one and one for each location, each with a table of cells. The output is a writer.
#[derive(Drop)]
pub struct SqliteWorld<S: Keeping, O> {
    locations: Vec<Location>,
    /// The global store, and that of each location in order.
    sites: Vec<Site<S>>,
    out: O,
    sink_faults: u64,
    global_reads: u64,
    ghost spelled: { AllByRecursion (λ location. IsTrue (is_location location)) locations.items } by { spelled_fact locations.items },
    ghost distinct: { IsDistinct same locations.items } by { distinct_fact locations.items },
    ghost few: { length locations.items ≤ MOST_LOCATIONS },
    ghost each: { length sites.items ≡ length locations.items + 1 },
    ghost sunk: { sink_faults ≤ last_count },
    ghost counted: { global_reads ≤ last_count },
}

/// Tells that each of the locations is spelled. Does nothing.
fn known_locations(locations: &[Location])
    ensures { AllByRecursion (λ location. IsTrue (is_location location)) locations.now }
{
    for location in locations {
        location.known();
    }
}

/// Where a location stands among these.
fn place_of(locations: &[Location], at: &Location) -> Option<usize>
    ensures place { result ≡ position (same at.now) locations.now }
    ensures within { IfSome result (λ n. n < length locations.now) }
{
    locations
        .iter()
        .position(|location| at.cmp(location).is_eq())
}

/// How often the global store was read, with one read of this site.
fn counted(reads: u64, site: SiteNumber) -> u64
    ensures { result ≡ (if site.0 == 0 then one_more reads else reads) }
{
    if site.0 == 0 {
        reads.saturating_add(1)
    } else {
        reads
    }
}

/// Writes all of the bytes, and says whether it did.
fn put<O: Write>(out: &mut O, bytes: &[u8]) -> bool {
    out.write_all(bytes).is_ok() && out.flush().is_ok()
}

/// Adds a site at the end. `Memory` leaves them as they were.
pub(crate) fn add_site<S: Keeping>(sites: &mut Vec<Site<S>>, site: Site<S>) -> Result<(), Memory>
    ensures count { OnOk result (length sites.new.items ≡ length sites.old.items + 1) }
    ensures fresh { OnOk result (AreFresh sites.old.items (λ s. s.faults) → site.faults ≡ 0 → AreFresh sites.new.items (λ s. s.faults)) }
    ensures empty { OnOk result (AreEmpty sites.old.items (λ s. store_of S.Store s.conn) → store_of S.Store site.conn ≡ empty_store → AreEmpty sites.new.items (λ s. store_of S.Store s.conn)) }
{
    sites.push(site)?;
    Ok(())
}

impl<S: Keeping, O: Drop> SqliteWorld<S, O> {
    ghost use Rattle.cell_world.specs.Outside.{IsNewWorld};
    ghost use Rattle.world_sqlite.specs.Counted.{count_of, stores_of, told_by, tells};

    /// A world of these sites, the global one first.
    pub(crate) fn over(locations: Vec<Location>, sites: Vec<Site<S>>, out: O) -> SqliteWorld<S, O>
        requires distinct { IsDistinct same locations.items }
        requires few { length locations.items ≤ MOST_LOCATIONS }
        requires each { length sites.items ≡ length locations.items + 1 }
        requires fresh { AreFresh sites.items (λ s. s.faults) }
        ensures new { IsNewWorld (tells result.locations.items (told_by S.tells result.locations.items (stores_of (λ s. store_of S.Store s.conn) result.sites.items)) (count_of (λ s. s.faults) result.sites.items) result.sink_faults result.global_reads) }
        ensures empty { S.tells ≡ true → AreEmpty sites.items (λ s. store_of S.Store s.conn) → told_by S.tells result.locations.items (stores_of (λ s. store_of S.Store s.conn) result.sites.items) ≡ TellsContents (empty_image locations.items) }
        ensures made { (result.locations.items ≡ locations.items) × (result.out ≡ out) }
    {
        known_locations(locations.as_slice());
        SqliteWorld {
            locations,
            sites,
            out,
            sink_faults: 0,
            global_reads: 0,
        }
    }

    /// The writer, with what was written to it. Takes no memory.
    pub fn into_output(self) -> O
        ensures { result ≡ self.out }
    {
        let SqliteWorld { out, .. } = self;
        out
    }
}

impl<S: Keeping, O: Write + Drop> World for SqliteWorld<S, O> {
    ghost use Rattle.sqlite_site.specs.Kept.{store_of};
    ghost use Rattle.sqlite_site.proofs.KeptLemmas.{kept_store};
    ghost use Rattle.world_sqlite.specs.Counted.{count_of, stores_of, told_by, tells};
    ghost use Rattle.world_sqlite.specs.Facts.{is_world, count_within, stores_within};

    ghost outside = { λ w. tells w.locations.items (told_by S.tells w.locations.items (stores_of (λ s. store_of S.Store s.conn) w.sites.items)) (count_of (λ s. s.faults) w.sites.items) w.sink_faults w.global_reads };

    ghost laws = { λ w. is_world S.tells w.locations.items (stores_of (λ s. store_of S.Store s.conn) w.sites.items) (count_of (λ s. s.faults) w.sites.items) w.sink_faults w.global_reads w.spelled w.distinct w.few (λ t. stores_within (λ s. store_of S.Store s.conn) (λ s. kept_store S.Store s.conn (s.kept t)) w.sites.items) (count_within (λ s. s.faults) (λ s. s.counted) w.sites.items) w.sunk w.counted };

    fn locate(&self, at: &Location) -> Option<SiteNumber> {
        match place_of(self.locations.as_slice(), at) {
            Some(number) => Some(SiteNumber(number as u16 + 1)),
            None => None,
        }
    }

    fn read(
        &mut self,
        alloc: Global,
        site: SiteNumber,
        key: &CellKey,
    ) -> Result<Option<Cell>, WorldError> {
        self.global_reads = counted(self.global_reads, site);
        self.sites[site.0 as usize].read(alloc, key)
    }

    fn floor(
        &mut self,
        alloc: Global,
        site: SiteNumber,
        key: &CellKey,
    ) -> Result<Option<Cell>, WorldError> {
        self.global_reads = counted(self.global_reads, site);
        self.sites[site.0 as usize].floor(alloc, key)
    }

    fn scan(
        &mut self,
        alloc: Global,
        site: SiteNumber,
        from: &CellKey,
        limit: u32,
    ) -> Result<Vec<Cell>, WorldError> {
        self.global_reads = counted(self.global_reads, site);
        self.sites[site.0 as usize].scan(alloc, from, limit)
    }

    fn next_key(
        &mut self,
        alloc: Global,
        site: SiteNumber,
        map: &Name,
        from: &NormKey,
        past: bool,
    ) -> Result<Option<NormKey>, WorldError> {
        self.global_reads = counted(self.global_reads, site);
        self.sites[site.0 as usize].next_key(alloc, map, from, past)
    }

    fn commit(
        &mut self,
        alloc: Global,
        site: SiteNumber,
        change: &Change,
    ) -> Result<(), WorldError> {
        self.sites[site.0 as usize].commit(alloc, change)
    }

    fn write(&mut self, alloc: Global, bytes: &[u8]) -> Result<(), WorldError> {
        if put(&mut self.out, bytes) {
            return Ok(());
        }
        self.sink_faults = self.sink_faults.saturating_add(1);
        Err(WorldError::Failed)
    }

    fn reopen(&mut self, alloc: Global, site: SiteNumber) -> Result<(), WorldError> {
        self.sites[site.0 as usize].reopen(alloc)
    }

    fn moment(&self) -> u64 {
        0
    }
}
