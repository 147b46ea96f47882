//! What the tables hold: look-ups, and walks in order.
#![tactic(auto, using(crate::proofs::TableRules::look_ups))]

ghost use Rattle.std.specs.Prelude.{◌≡◌};
ghost use Rattle.std.specs.Option.{option_copied};
ghost use Rattle.std.specs.FinMap as map;
ghost use Rattle.std.specs.FinSet as set;
ghost use Rattle.std.specs.Map.Iter.{ShowsInOrder, deref};
ghost use Rattle.cell_world.specs.Texts.{Text};
ghost use Rattle.cell_world.specs.Plain.{is_location_of};
ghost use Rattle.cell_world.specs.declared.cells.RowName.{RowName as ARow};
ghost use Rattle.cell_world.specs.declared.operations.Piece.{Piece as APiece};
ghost use Rattle.cell_world.specs.declared.operations.JobRow.{JobRow as AJob};
ghost use Rattle.cell_world.specs.Members.{members};
ghost use Rattle.plain_model.specs.Refusing.{connection_of};
ghost use Rattle.plain_tables.specs.State.{state_of, link_shown};

use crate::state::{Link, PlainTables};
use cell_world::cells::{Away, KeyType, MapKind, RowName};
use cell_world::items::RowBytes;
use cell_world::locations::Location;
use cell_world::names::Name;
use cell_world::norm_keys::NormKey;
use cell_world::operations::{JobRow, Piece};
use std::collections::btree_map::{Keys, Values};
use std::collections::btree_set::Iter;

impl PlainTables {
    /// Whether the location is known.
    pub fn is_location(&self, location: &Location) -> bool
        ensures { result ≡ is_location_of (state_of self.now) location.now }
    {
        self.locations
            .iter()
            .any(|known| location.cmp(known).is_eq())
    }

    /// The kind and the key type of a map.
    pub fn map_at(&self, name: &Name) -> Option<(MapKind, KeyType)>
        ensures { result ≡ map.get (state_of self.now).maps name.now }
    {
        self.maps.get(name).copied()
    }

    /// How many maps stand.
    pub fn map_count(&self) -> usize
        ensures { result ≡ map.len (state_of self.now).maps }
    {
        self.maps.len()
    }

    pub fn is_shard(&self, name: &Name, location: &Location) -> bool
        ensures { result ≡ set.contains (state_of self.now).shards (name.now, location.now) }
    {
        self.shards.contains(&(*name, *location))
    }

    pub fn has_table(&self, name: &Name, table: &Name) -> bool
        ensures { result ≡ set.contains (state_of self.now).tables (name.now, table.now) }
    {
        self.tables.contains(&(*name, *table))
    }

    /// The state of a site that isn't attached.
    pub fn away_at(&self, location: &Location) -> Option<Away>
        ensures { result ≡ map.get (state_of self.now).away location.now }
    {
        self.away.get(location).copied()
    }

    /// The bytes of a row.
    pub fn row_at(&self, row: &RowName) -> Option<&RowBytes>
        ensures { option_copied result ≡ map.get (state_of self.now).rows row.now }
    {
        self.rows.get(row)
    }

    /// The session's connection of this number.
    pub fn link_at(&self, session: u32, number: u32) -> Option<Link>
        ensures { link_shown result ≡ connection_of (state_of self.now) session number }
    {
        self.links.get(&(session, number)).copied()
    }

    /// The shards of all maps.
    pub fn all_shards(&self) -> Iter<'_, (Name, Location)>
        ensures rest { result ≡ members (state_of self.now).shards }
        ensures runs { ShowsInOrder (deref {X = Text × Text}) }
    {
        self.shards.iter()
    }

    /// The tables of all maps.
    pub fn all_tables(&self) -> Iter<'_, (Name, Name)>
        ensures rest { result ≡ members (state_of self.now).tables }
        ensures runs { ShowsInOrder (deref {X = Text × Text}) }
    {
        self.tables.iter()
    }

    /// The mappings of all maps.
    pub fn pieces(&self) -> Values<'_, (Name, NormKey), Piece>
        ensures rest { result ≡ map.values (state_of self.now).mappings }
        ensures runs { ShowsInOrder (deref {X = APiece}) }
    {
        self.mappings.values()
    }

    /// The jobs that stand.
    pub fn all_jobs(&self) -> Values<'_, u32, JobRow>
        ensures rest { result ≡ map.values (state_of self.now).jobs }
        ensures runs { ShowsInOrder (deref {X = AJob}) }
    {
        self.jobs.values()
    }

    /// The names of all rows.
    pub fn row_names(&self) -> Keys<'_, RowName, RowBytes>
        ensures rest { result ≡ map.keys (state_of self.now).rows }
        ensures runs { ShowsInOrder (deref {X = ARow}) }
    {
        self.rows.keys()
    }
}
