//! A world over `sqlite` in the files of a folder.
ghost use Rattle.std.specs.Prelude.{◌≡◌, ◌≤◌, ◌+◌, length, IfOk};
ghost use Rattle.std.specs.List.{IsDistinct};
ghost use Rattle.cell_world.specs.Keys.{same};
ghost use Rattle.world_sqlite.specs.Counted.{AreFresh};
ghost use Rattle.cell_world.specs.declared.limits.TheConstants.{MOST_LOCATIONS};

use crate::world::{SqliteWorld, add_site};
use cell_world::locations::Location;
use cell_world::memory::Memory;
use cell_world::outside::WorldError;
use sqlite::{File, FileStore};
use sqlite_site::{Path, Site};
use std::alloc::Global;

/// The path of the global store's file in a folder.
fn global_path(alloc: Global, folder: &str) -> Result<String, Memory> {
    let mut path = String::from_str(alloc, folder)?;
    path.push_str("/global.db")?;
    Ok(path)
}

/// The path of a location's file in a folder: the location with `@` for its `/`.
fn location_path(alloc: Global, folder: &str, location: &Location) -> Result<String, Memory> {
    let mut path = String::from_str(alloc, folder)?;
    path.push_str("/")?;
    for byte in location.as_slice() {
        let shown = if *byte == b'/' { '@' } else { *byte as char };
        path.push(shown)?;
    }
    path.push_str(".db")?;
    Ok(path)
}

/// The store in a file.
fn site_at(rt: &HostRuntime, path: String) -> Result<Site<FileStore<File>>, WorldError>
    ensures { IfOk result (λ site. site.faults ≡ 0) }
{
    match rt.clone() {
        Ok(own) => Site::open(rt.alloc(), Path { rt: own, path }),
        Err(_) => Err(WorldError::Memory),
    }
}

/// The stores of a folder, the global one first.
fn sites_in(
    rt: &HostRuntime,
    folder: &str,
    locations: &[Location],
) -> Result<Vec<Site<FileStore<File>>>, WorldError>
    ensures { IfOk result (λ sites. (length sites.items ≡ length locations.now + 1) × AreFresh sites.items (λ s. s.faults)) }
{
    let alloc = rt.alloc();
    let mut sites: Vec<Site<FileStore<File>>> = Vec::new(alloc);
    add_site(&mut sites, site_at(rt, global_path(alloc, folder)?)?)?;
    'each: for location in locations {
        let path = location_path(alloc, folder, location)?;
        add_site(&mut sites, site_at(rt, path)?)?;
    }
    Ok(sites)
}

impl<O: Drop> SqliteWorld<FileStore<File>, O> {
    ghost use Rattle.cell_world.specs.Outside.{IsNewWorld};
    ghost use Rattle.cell_world.specs.Outside.{TellsNothing};
    ghost use Rattle.world_sqlite.specs.Counted.{count_of, tells};

    /// The stores in the files of a folder that is there: `global.db` for the global one, and `SERVER@DATABASE.db` for
    /// that of the location `SERVER/DATABASE`. A file that isn't there is made, and so is its table.
    ///
    /// `Failed` where the folder isn't there, or a file is no database or is locked by another process. A file that is no
    /// database stays as it is.
    pub fn at_folder(
        rt: &HostRuntime,
        folder: &str,
        out: O,
        locations: &[Location],
    ) -> Result<SqliteWorld<FileStore<File>, O>, WorldError>
        requires distinct { IsDistinct same locations.now }
        requires few { length locations.now ≤ MOST_LOCATIONS }
        ensures { IfOk result (λ w. (w.locations.items ≡ locations.now) × (w.out ≡ out) × IsNewWorld (tells w.locations.items TellsNothing (count_of (λ s. s.faults) w.sites.items) w.sink_faults w.global_reads)) }
    {
        let sites = sites_in(rt, folder, locations)?;
        match Vec::from_slice(rt.alloc(), locations) {
            Ok(locations) => Ok(SqliteWorld::over(locations, sites, out)),
            Err(_) => Err(WorldError::Memory),
        }
    }
}
