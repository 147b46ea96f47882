//! A world whose failing calls are counted.
ghost use Rattle.std.specs.Prelude.{◌≡◌};

use cell_world::cells::{Cell, CellKey, Site};
use cell_world::changes::Change;
use cell_world::locations::Location;
use cell_world::names::Name;
use cell_world::norm_keys::NormKey;
use cell_world::outside::{World, WorldError};
use std::alloc::Global;

/// A world, and how often a call of it failed. It does what the world does.
#[derive(Drop)]
pub struct Watched<W: World> {
    pub world: W,
    pub failed: u32,
}

impl<W: World> Watched<W> {
    /// A world of which no call was made yet.
    pub fn new(world: W) -> Watched<W> {
        Watched { world, failed: 0 }
    }

    /// Counts a call that failed.
    fn note(&mut self, fails: bool)
        ensures { W.outside self.new.world ≡ W.outside self.old.world }
    {
        if fails {
            self.failed = self.failed.saturating_add(1);
        }
    }
}

impl<W: World> World for Watched<W> {
    ghost outside = { λ watched. W.outside watched.world };

    ghost laws = { λ watched. W.laws watched.world };

    fn locate(&self, at: &Location) -> Option<Site> {
        self.world.locate(at)
    }

    fn read(
        &mut self,
        alloc: Global,
        site: Site,
        key: &CellKey,
    ) -> Result<Option<Cell>, WorldError> {
        let answer = self.world.read(alloc, site, key);
        self.note(answer.is_err());
        answer
    }

    fn floor(
        &mut self,
        alloc: Global,
        site: Site,
        key: &CellKey,
    ) -> Result<Option<Cell>, WorldError> {
        let answer = self.world.floor(alloc, site, key);
        self.note(answer.is_err());
        answer
    }

    fn scan(
        &mut self,
        alloc: Global,
        site: Site,
        from: &CellKey,
        limit: u32,
    ) -> Result<Vec<Cell>, WorldError> {
        let answer = self.world.scan(alloc, site, from, limit);
        self.note(answer.is_err());
        answer
    }

    fn next_key(
        &mut self,
        alloc: Global,
        site: Site,
        map: &Name,
        from: &NormKey,
        past: bool,
    ) -> Result<Option<NormKey>, WorldError> {
        let answer = self.world.next_key(alloc, site, map, from, past);
        self.note(answer.is_err());
        answer
    }

    fn commit(&mut self, alloc: Global, site: Site, change: &Change) -> Result<(), WorldError> {
        let answer = self.world.commit(alloc, site, change);
        self.note(answer.is_err());
        answer
    }

    fn write(&mut self, alloc: Global, bytes: &[u8]) -> Result<(), WorldError> {
        let answer = self.world.write(alloc, bytes);
        self.note(answer.is_err());
        answer
    }

    fn reopen(&mut self, alloc: Global, site: Site) -> Result<(), WorldError> {
        let answer = self.world.reopen(alloc, site);
        self.note(answer.is_err());
        answer
    }

    fn moment(&self) -> u64 {
        self.world.moment()
    }
}
