//! The tables.
ghost use Rattle.std.specs.Prelude.{◌≡◌, IfOk};

use cell_world::cells::{Away, KeyType, MapKind, RowName};
use cell_world::items::RowBytes;
use cell_world::locations::Location;
use cell_world::memory::Memory;
use cell_world::names::Name;
use cell_world::norm_keys::NormKey;
use cell_world::operations::{JobRow, Piece};
use std::alloc::Global;
use std::collections::{BTreeMap, BTreeSet};

/// A session's way to the rows under one key.
#[derive(Clone, Copy, PartialEq, Eq)]
pub struct Link {
    /// The map that was named.
    pub map: Name,
    pub key: NormKey,
    /// The owner's, when it was opened.
    pub location: Location,
    /// False once it was ended.
    pub live: bool,
}

/// The mappings, by map and low key.
pub type Mappings = BTreeMap<(Name, NormKey), Piece>;

/// The plain shard map, as ordered tables.
#[derive(Drop)]
pub struct PlainTables {
    pub alloc: Global,
    /// Those that are known.
    pub locations: Vec<Location>,
    /// By name: the kind and the key type.
    pub maps: BTreeMap<Name, (MapKind, KeyType)>,
    /// A map, and the location of a shard of it.
    pub shards: BTreeSet<(Name, Location)>,
    /// A map, and a table of it.
    pub tables: BTreeSet<(Name, Name)>,
    pub mappings: BTreeMap<(Name, NormKey), Piece>,
    /// By number.
    pub jobs: BTreeMap<u32, JobRow>,
    /// The number that the next job gets.
    pub next_job: u32,
    /// The sites that aren't attached.
    pub away: BTreeMap<Location, Away>,
    pub rows: BTreeMap<RowName, RowBytes>,
    /// By session and number.
    pub links: BTreeMap<(u32, u32), Link>,
}

impl PlainTables {
    ghost use Rattle.plain_tables.specs.State.{state_of, nothing_yet};

    /// Nothing stands, and these locations are known.
    pub fn empty(alloc: Global, locations: &[Location]) -> Result<PlainTables, Memory>
        ensures { IfOk result (λ made. state_of made ≡ nothing_yet locations.now) }
    {
        let Ok(locations) = Vec::from_slice(alloc, locations) else {
            return Err(Memory);
        };
        Ok(PlainTables {
            alloc,
            locations,
            maps: BTreeMap::new(alloc),
            shards: BTreeSet::new(alloc),
            tables: BTreeSet::new(alloc),
            mappings: BTreeMap::new(alloc),
            jobs: BTreeMap::new(alloc),
            next_job: 1,
            away: BTreeMap::new(alloc),
            rows: BTreeMap::new(alloc),
            links: BTreeMap::new(alloc),
        })
    }
}
