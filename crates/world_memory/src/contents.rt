//! What the stores hold, in one table that follows what happened.
ghost use Rattle.std.specs.Prelude.{◌≡◌, ◌≤◌, ◌<◌, ◌+◌, ◌==◌, ℕ, [], length, take, OnOk, OnErr, if◌then◌else◌};
ghost use Rattle.cell_world.specs.Stores.{Store, edited, changed, empty_store};
ghost use Rattle.world_memory.specs.Kept.{Holds, IsAt, store_after};

use crate::copies::{cell_copied, key_of};
use cell_world::cells::{Cell, CellKey, Site};
use cell_world::changes::{Change, Edit};
use cell_world::items::Items;
use cell_world::memory::Memory;
use std::alloc::Global;
use std::collections::BTreeMap;

/// What was made of a world: each is an entry of what happened.
#[derive(Drop)]
pub enum Made {
    /// A change was made at a site.
    Committed(Site, Change),
    /// A change was tried at a site, and wasn't made.
    Tried(Site, Change),
    /// Bytes went to the output.
    Wrote(Items<u8>),
    /// A site was opened again. It held what it holds.
    Reopened(Site),
}

/// Where a cell stands. Sites stand in the order of their numbers, and the cells of a site in cell order.
#[derive(Clone, Copy, PartialEq, Eq, PartialOrd, Ord)]
pub struct SiteKey {
    pub site: u16,
    pub key: CellKey,
}

/// The cells of all sites, after the first so many entries of what happened.
///
/// A change is made by adding it to what happened, which is one step. The table follows before it is read, edit by
/// edit, so that want of memory stops it anywhere and loses nothing.
#[derive(Drop)]
pub struct Contents {
    pub cells: BTreeMap<SiteKey, Cell>,
    /// How many entries are made.
    pub done: usize,
    /// How many edits of the next entry are made.
    pub part: usize,
}

/// Makes one edit. `Memory` leaves the table as it was.
fn make(
    cells: &mut BTreeMap<SiteKey, Cell>,
    alloc: Global,
    site: u16,
    edit: &Edit,
) -> Result<(), Memory>
    ensures ok { OnOk result ((stores : ℕ → Store) → Holds cells.old stores → Holds cells.new (λ n. if n == site then edited (stores n) edit.now else stores n)) }
    ensures err { OnErr result ((stores : ℕ → Store) → Holds cells.old stores → Holds cells.new stores) }
{
    match edit {
        Edit::Put(cell) => {
            let at = SiteKey {
                site,
                key: key_of(cell),
            };
            let copy = cell_copied(cell, alloc)?;
            if cells.insert(at, copy).is_err() {
                return Err(Memory);
            }
        }
        Edit::Delete(key) => {
            let at = SiteKey { site, key: *key };
            cells.remove(&at);
        }
    }
    Ok(())
}

impl Contents {
    ghost use Rattle.std.specs.Prelude.{List};
    ghost use Rattle.world_memory.specs.declared.contents.Made.{Made};

    /// No entry is made, and nothing stands. Takes no memory.
    pub fn new(alloc: Global) -> Contents
        ensures { (happened : List Made) → IsAt happened result.cells result.done result.part }
    {
        Contents {
            cells: BTreeMap::new(alloc),
            done: 0,
            part: 0,
        }
    }

    /// Makes the edits of a change that aren't made yet.
    fn finish(&mut self, alloc: Global, site: Site, edits: &[Edit]) -> Result<(), Memory>
        requires { self.old.part ≤ length edits.now }
        ensures holds { (stores : ℕ → Store) → Holds self.old.cells (λ n. changed (stores n) (take self.old.part (if n == site.0 then edits.now else []))) → Holds self.new.cells (λ n. changed (stores n) (take self.new.part (if n == site.0 then edits.now else []))) }
        ensures part { self.new.part ≤ length edits.now }
        ensures ok { OnOk result (self.new.part ≡ length edits.now) }
        ensures done { self.new.done ≡ self.old.done }
    {
        while self.part < edits.len() {
            make(&mut self.cells, alloc, site.0, &edits[self.part])?;
            self.part += 1;
        }
        Ok(())
    }

    /// Makes the next entry.
    fn step(&mut self, alloc: Global, happened: &[Made]) -> Result<(), Memory>
        requires at { IsAt happened.now self.old.cells self.old.done self.old.part }
        requires more { self.old.done < length happened.now }
        ensures at { IsAt happened.now self.new.cells self.new.done self.new.part }
        ensures ok { OnOk result (self.new.done ≡ self.old.done + 1) }
    {
        if let Made::Committed(site, change) = &happened[self.done] {
            self.finish(alloc, *site, change.as_slice())?;
        }
        self.part = 0;
        self.done += 1;
        Ok(())
    }

    /// Makes the entries that aren't made yet. `Memory` leaves some to be made.
    pub fn follow(&mut self, alloc: Global, happened: &[Made]) -> Result<(), Memory>
        requires { IsAt happened.now self.old.cells self.old.done self.old.part }
        ensures at { IsAt happened.now self.new.cells self.new.done self.new.part }
        ensures ok { OnOk result (Holds self.new.cells (λ n. store_after n empty_store happened.now)) }
    {
        while self.done < happened.len() {
            self.step(alloc, happened)?;
        }
        Ok(())
    }
}
