//! The outside: the stores and the output behind one trait, the input behind another.
ghost use Rattle.std.specs.Prelude.{◌≡◌, ◌≤◌, ◌<◌, ℕ, List, length, Option, IfOk, OnErr, IsErrOf};
ghost use Rattle.cell_world.specs.Counts.{Rose, last_count};
ghost use Rattle.cell_world.specs.Finding.{IsFloor, IsScan, IsNextKey};
ghost use Rattle.cell_world.specs.Images.{end_of_trail};
ghost use Rattle.cell_world.specs.Outside.{Outside, IsWorld, IsSite, SameButFaults, OfStore, IfTrail, FailsWithRise, Commits, Writes, Reopens, Takes, site_number, read_at};
ghost use Rattle.cell_world.specs.Stores.{cell_at};

use crate::cells::{Cell, CellKey, Site};
use crate::changes::Change;
use crate::locations::Location;
use crate::memory::Memory;
use crate::names::Name;
use crate::norm_keys::NormKey;
use std::alloc::Global;

/// Why a call of a world gave nothing.
#[derive(Clone, Copy, Debug, PartialEq, Eq)]
pub enum WorldError {
    /// The outside refused. The count of faults of the site, or of the sink, rose.
    Failed,
    /// Want of memory.
    Memory,
}

impl From<Memory> for WorldError {
    ghost use Rattle.cell_world.specs.declared.outside.WorldError.TheVariants as error;

    ghost from_gives = { λ _ e. e ≡ error.Memory };

    fn from(_: Memory) -> WorldError {
        WorldError::Memory
    }
}

/// The stores, site 0 for the global one and one for each location, and the output.
///
/// Each site that is handed in is one that the world has. After an error nothing but counts has changed,
/// except where a call says so.
pub trait World {
    /// What the world tells of itself.
    ghost outside: { Self → Outside };

    /// What is so of every world at every time.
    ghost laws: { (w : Self) → IsWorld (outside w) };

    /// The site of a location. `None` exactly where the world doesn't know it. Takes no memory.
    fn locate(&self, at: &Location) -> Option<Site>
        ensures { result ≡ site_number (outside self.now).locations at.now };

    /// The cell of a key.
    fn read(&mut self, alloc: Global, site: Site, key: &CellKey) -> Result<Option<Cell>, WorldError>
        requires { IsSite (outside self.old) site }
        ensures found { IfOk result (λ found. OfStore (outside self.old) site (λ s. found ≡ cell_at s key.now)) }
        ensures same { SameButFaults (read_at (outside self.old) site) (outside self.new) }
        ensures cause { FailsWithRise result ((outside self.old).faults_at site.0) ((outside self.new).faults_at site.0) };

    /// The greatest cell of the same kind and map that is at or below the key.
    fn floor(
        &mut self,
        alloc: Global,
        site: Site,
        key: &CellKey,
    ) -> Result<Option<Cell>, WorldError>
        requires { IsSite (outside self.old) site }
        ensures found { IfOk result (λ found. OfStore (outside self.old) site (λ s. IsFloor s key.now found)) }
        ensures same { SameButFaults (read_at (outside self.old) site) (outside self.new) }
        ensures cause { FailsWithRise result ((outside self.old).faults_at site.0) ((outside self.new).faults_at site.0) };

    /// The first cells at or above the key of the same kind, of whatever map, in cell order: `limit` of them, or
    /// all where there are fewer.
    fn scan(
        &mut self,
        alloc: Global,
        site: Site,
        from: &CellKey,
        limit: u32,
    ) -> Result<Vec<Cell>, WorldError>
        requires { IsSite (outside self.old) site }
        ensures found { IfOk result (λ found. OfStore (outside self.old) site (λ s. IsScan s from.now limit found.items)) }
        ensures same { SameButFaults (read_at (outside self.old) site) (outside self.new) }
        ensures cause { FailsWithRise result ((outside self.old).faults_at site.0) ((outside self.new).faults_at site.0) };

    /// The least key with a row cell of the map that is at or above this one; with `past`, above it.
    fn next_key(
        &mut self,
        alloc: Global,
        site: Site,
        map: &Name,
        from: &NormKey,
        past: bool,
    ) -> Result<Option<NormKey>, WorldError>
        requires { IsSite (outside self.old) site }
        ensures found { IfOk result (λ found. OfStore (outside self.old) site (λ s. IsNextKey s.rows map.now from.now past found)) }
        ensures same { SameButFaults (read_at (outside self.old) site) (outside self.new) }
        ensures cause { FailsWithRise result ((outside self.old).faults_at site.0) ((outside self.new).faults_at site.0) };

    /// Makes a change in one transaction. `Failed`: it is made or not made, and the trail says which.
    /// `Memory`: it isn't made.
    fn commit(&mut self, alloc: Global, site: Site, change: &Change) -> Result<(), WorldError>
        requires { IsSite (outside self.old) site }
        ensures made { Commits (outside self.old) (outside self.new) site change.now result }
        ensures cause { FailsWithRise result ((outside self.old).faults_at site.0) ((outside self.new).faults_at site.0) };

    /// Writes bytes to the output. `Failed`: a front of them is written. `Memory`: none is.
    fn write(&mut self, alloc: Global, bytes: &[u8]) -> Result<(), WorldError>
        ensures written { Writes (outside self.old) (outside self.new) bytes.now result }
        ensures cause { FailsWithRise result (outside self.old).sink_faults (outside self.new).sink_faults };

    /// Opens a site anew: it holds what the outside gives now.
    fn reopen(&mut self, alloc: Global, site: Site) -> Result<(), WorldError>
        requires { IsSite (outside self.old) site }
        ensures reopened { Reopens (outside self.old) (outside self.new) site result }
        ensures cause { FailsWithRise result ((outside self.old).faults_at site.0) ((outside self.new).faults_at site.0) };

    /// The length of the trail, where it is told. Takes no memory.
    fn moment(&self) -> u64
        ensures { IfTrail (outside self.now).told (λ trail. result ≡ end_of_trail trail) };
}

/// Why a source gave nothing.
#[derive(Clone, Copy, Debug, PartialEq, Eq)]
pub enum SourceError {
    /// The outside refused. The source's count of faults rose.
    Failed,
    /// Want of memory.
    Memory,
}

/// The input.
pub trait Source {
    /// The bytes that are left, where they are told.
    ghost left: { Self → Option (List ℕ) };

    /// How often taking has failed, kept in 64 bits.
    ghost faults: { Self → ℕ };

    /// The count of faults has a last value.
    ghost laws: { (s : Self) → faults s ≤ last_count };

    /// Takes the next bytes into the front of a buffer, which isn't empty. Says how many; 0 exactly where nothing
    /// is left. After an error the same is left as before.
    fn take(&mut self, alloc: Global, into: &mut [u8]) -> Result<usize, SourceError>
        requires { 0 < length into.old }
        ensures fits { IfOk result (λ n. n ≤ length into.old) }
        ensures taken { IfOk result (λ n. Takes n (left self.old) (left self.new) into.new) }
        ensures same { OnErr result (left self.new ≡ left self.old) }
        ensures never_falls { faults self.old ≤ faults self.new }
        ensures cause { IsErrOf result SourceError.Failed → Rose (faults self.old) (faults self.new) };
}
