//! Groups of cells that stand together in cell order.
ghost use Rattle.std.specs.Prelude.{◌≡◌, ◌≤◌, length};
ghost use Rattle.global_tables.specs.Groups.{kind_of, name_of, least_of, is_in, inside};

use crate::keys::{key_of, kind_number, map_of};
use cell_world::cells::{Cell, CellKey};
use cell_world::locations::Location;
use cell_world::names::Name;
use cell_world::norm_keys::NormKey;

/// The least location: no byte of a server is before `-`, nor its first one before `0`, and at most 64 are there.
const LEAST_LOCATION: &[u8] = b"0---------------------------------------------------------------/0";

/// A group of cells of the global store: all of one kind, or those of one map. They stand together in cell order.
#[derive(Clone, Copy)]
pub enum Group {
    Maps,
    Shards,
    /// Those of one map.
    ShardsOf(Name),
    Tables,
    /// Those of one map.
    TablesOf(Name),
    /// The mappings.
    Pieces,
    /// Those of one map.
    PiecesOf(Name),
    /// The operations that aren't committed.
    Log,
    Jobs,
    /// The sites that aren't attached.
    Away,
}

impl Group {
    /// The place of its kind in cell order.
    fn kind(&self) -> u8
        ensures { result ≡ kind_of self.now }
    {
        match self {
            Group::Maps => 1,
            Group::Shards => 2,
            Group::ShardsOf(_) => 2,
            Group::Tables => 3,
            Group::TablesOf(_) => 3,
            Group::Pieces => 4,
            Group::PiecesOf(_) => 4,
            Group::Log => 5,
            Group::Jobs => 6,
            Group::Away => 8,
        }
    }

    /// The map, of a group that is of one map.
    fn map(&self) -> Option<Name>
        ensures { result ≡ name_of self.now }
    {
        match self {
            Group::ShardsOf(name) => Some(*name),
            Group::TablesOf(name) => Some(*name),
            Group::PiecesOf(name) => Some(*name),
            Group::Maps => None,
            Group::Shards => None,
            Group::Tables => None,
            Group::Pieces => None,
            Group::Log => None,
            Group::Jobs => None,
            Group::Away => None,
        }
    }

    /// The key from which a scan finds the whole group.
    pub fn least(&self) -> CellKey
        ensures { result ≡ least_of self.now }
    {
        let name = Name::read(b"A").unwrap();
        let location = Location::read(LEAST_LOCATION).unwrap();
        match self {
            Group::Maps => CellKey::Map(name),
            Group::Shards => CellKey::Shard(name, location),
            Group::ShardsOf(of) => CellKey::Shard(*of, location),
            Group::Tables => CellKey::Table(name, name),
            Group::TablesOf(of) => CellKey::Table(*of, name),
            Group::Pieces => CellKey::Piece(name, NormKey::of_bytes(b"").unwrap()),
            Group::PiecesOf(of) => CellKey::Piece(*of, NormKey::of_bytes(b"").unwrap()),
            Group::Log => CellKey::Log(0),
            Group::Jobs => CellKey::Job(0),
            Group::Away => CellKey::SiteState(location),
        }
    }

    /// Whether a cell under the key is of the group.
    pub fn holds(&self, key: &CellKey) -> bool
        ensures { result ≡ is_in self.now key.now }
    {
        if kind_number(key) != self.kind() {
            return false;
        }
        match (self.map(), map_of(key)) {
            (None, _) => true,
            (Some(_), None) => false,
            (Some(name), Some(of)) => name.cmp(&of).is_eq(),
        }
    }

    /// How many of these cells are of the group, up to the first that isn't.
    pub fn count(&self, cells: &[Cell]) -> usize
        ensures count { result ≡ length (inside self.now cells.now) }
        ensures within { result ≤ length cells.now }
    {
        for (count, cell) in cells.iter().enumerate() {
            if !self.holds(&key_of(cell)) {
                return count;
            }
        }
        cells.len()
    }
}
