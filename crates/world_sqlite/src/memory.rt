//! A world over `sqlite` in memory.
ghost use Rattle.std.specs.Prelude.{◌≡◌, ◌≤◌, ◌+◌, length, IfOk};
ghost use Rattle.std.specs.List.{IsDistinct};
ghost use Rattle.cell_world.specs.Keys.{same};
ghost use Rattle.sqlite.specs.Steps.{over_memory};
ghost use Rattle.sqlite_site.specs.Kept.{store_of};
ghost use Rattle.world_sqlite.specs.Counted.{AreFresh, AreEmpty};
ghost use Rattle.cell_world.specs.declared.limits.TheConstants.{MOST_LOCATIONS};

use crate::world::{SqliteWorld, add_site};
use cell_world::locations::Location;
use cell_world::outside::WorldError;
use sqlite::MemStore;
use sqlite_site::Site;
use std::alloc::Global;

/// So many empty stores in memory.
fn empty_sites(alloc: Global, count: usize) -> Result<Vec<Site<MemStore>>, WorldError>
    ensures { IfOk result (λ sites. (length sites.items ≡ count) × AreFresh sites.items (λ s. s.faults) × AreEmpty sites.items (λ s. store_of over_memory s.conn)) }
{
    let mut sites: Vec<Site<MemStore>> = Vec::new(alloc);
    'each: for number in 0..count {
        add_site(&mut sites, Site::open(alloc, ())?)?;
    }
    Ok(sites)
}

impl<O: Drop> SqliteWorld<MemStore, O> {
    ghost use Rattle.cell_world.specs.Outside.{IsNewWorld};
    ghost use Rattle.cell_world.specs.Images.{empty_image};
    ghost use Rattle.cell_world.specs.Outside.{TellsContents};
    ghost use Rattle.world_sqlite.specs.Counted.{count_of, stores_of, image_of, tells};

    /// Empty stores in memory: the global one, and one for each location. `Failed` where `sqlite` refuses a table.
    pub fn in_memory(
        alloc: Global,
        out: O,
        locations: &[Location],
    ) -> Result<SqliteWorld<MemStore, O>, WorldError>
        requires distinct { IsDistinct same locations.now }
        requires few { length locations.now ≤ MOST_LOCATIONS }
        ensures new { IfOk result (λ w. (w.locations.items ≡ locations.now) × (w.out ≡ out) × IsNewWorld (tells w.locations.items (TellsContents (image_of w.locations.items (stores_of (λ s. store_of over_memory s.conn) w.sites.items))) (count_of (λ s. s.faults) w.sites.items) w.sink_faults w.global_reads)) }
        ensures empty { IfOk result (λ w. image_of w.locations.items (stores_of (λ s. store_of over_memory s.conn) w.sites.items) ≡ empty_image locations.now) }
    {
        let sites = empty_sites(alloc, locations.len() + 1)?;
        match Vec::from_slice(alloc, locations) {
            Ok(locations) => Ok(SqliteWorld::over(locations, sites, out)),
            Err(_) => Err(WorldError::Memory),
        }
    }
}
