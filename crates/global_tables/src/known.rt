//! A copy of the global cells that seldom change.
ghost use Rattle.std.specs.Prelude.{◌&&◌, ◌≡◌, length, IfOk, IsErrOf, OnOk};
ghost use Rattle.std.specs.FinMap as fin;
ghost use Rattle.std.specs.FinSet as set;
ghost use Rattle.std.specs.List.{list_any};
ghost use Rattle.cell_world.specs.Counts.{Rose};
ghost use Rattle.cell_world.specs.Images.{global};
ghost use Rattle.cell_world.specs.Keys.{same};
ghost use Rattle.cell_world.specs.Members.{members};
ghost use Rattle.cell_world.specs.Outside.{IfContents, IsLater};
ghost use Rattle.cell_world.specs.Plain.{state_of};
ghost use Rattle.cell_world.specs.Stores.{Store, IsKeyed, put, delete, edited, changed};
ghost use Rattle.global_tables.specs.Groups.{tables_in};
ghost use Rattle.global_tables.specs.Known.{known_of};

use crate::faults::StepFault;
use crate::groups::Group;
use crate::pieces::rows_of;
use crate::places::{copied, find_row, put_cell, remove_key};
use crate::rows::{AwayRow, MapRow, ShardRow, TableRow};
use cell_world::cells::{Away, Cell, CellKey, KeyType, MapKind, SiteState};
use cell_world::changes::{Change, Edit};
use cell_world::locations::Location;
use cell_world::memory::Memory;
use cell_world::names::Name;
use cell_world::operations::JobRow;
use cell_world::outside::World;
use std::alloc::Global;
use std::marker::Model;

/// A copy of the Map, Shard, Table, SiteState and Job cells. Contracts see it as these five lists, each in cell order.
#[derive(Drop)]
pub struct KnownTables {
    maps: Vec<MapRow>,
    shards: Vec<ShardRow>,
    tables: Vec<TableRow>,
    away: Vec<AwayRow>,
    jobs: Vec<JobRow>,
}

impl Model for KnownTables {
    ghost use Rattle.global_tables.specs.Known.{Known};

    ghost Value = { Known };

    ghost view = { λ k. record { maps = k.maps.items; shards = k.shards.items; tables = k.tables.items; away = k.away.items; jobs = k.jobs.items } };
}

impl KnownTables {
    /// Copies the cells. `Store`: the store refused. After an error nothing has changed but counts.
    pub fn read<W: World>(alloc: Global, world: &mut W) -> Result<KnownTables, StepFault>
        ensures found { IfOk result (λ known. IfContents (W.outside world.old).told (λ image. known ≡ known_of (global image))) }
        ensures told { (W.outside world.new).told ≡ (W.outside world.old).told }
        ensures later { IsLater (W.outside world.old) (W.outside world.new) }
        ensures cause { IsErrOf result StepFault.Store → Rose ((W.outside world.old).faults_at 0) ((W.outside world.new).faults_at 0) }
    {
        let maps: Vec<MapRow> = rows_of(alloc, world, &Group::Maps)?;
        let shards: Vec<ShardRow> = rows_of(alloc, world, &Group::Shards)?;
        let tables: Vec<TableRow> = rows_of(alloc, world, &Group::Tables)?;
        let away: Vec<AwayRow> = rows_of(alloc, world, &Group::Away)?;
        let jobs: Vec<JobRow> = rows_of(alloc, world, &Group::Jobs)?;
        Ok(KnownTables {
            maps,
            shards,
            tables,
            away,
            jobs,
        })
    }
    /// The kind of the map of this name and the type of its keys. `None` exactly where no map has the name.
    pub fn map(&self, name: &Name) -> Option<(MapKind, KeyType)>
        ensures { (s : Store) → self.now ≡ known_of s → result ≡ fin.get s.maps name.now }
    {
        match find_row(&self.maps, &CellKey::Map(*name)) {
            None => None,
            Some(row) => Some((row.kind, row.key_type)),
        }
    }

    /// Whether the location is a shard of the map.
    pub fn is_shard(&self, map: &Name, location: &Location) -> bool
        ensures { (s : Store) → self.now ≡ known_of s → result ≡ set.contains s.shards (map.now, location.now) }
    {
        find_row(&self.shards, &CellKey::Shard(*map, *location)).is_some()
    }

    /// Whether the map has the table.
    pub fn is_table(&self, map: &Name, table: &Name) -> bool
        ensures { (s : Store) → self.now ≡ known_of s → result ≡ set.contains s.tables (map.now, table.now) }
    {
        find_row(&self.tables, &CellKey::Table(*map, *table)).is_some()
    }

    /// The state of a site; one without a cell is attached.
    pub fn site_state(&self, location: &Location) -> SiteState
        ensures { (s : Store) → self.now ≡ known_of s → result ≡ state_of (fin.get s.away location.now) }
    {
        match find_row(&self.away, &CellKey::SiteState(*location)) {
            None => SiteState::Attached,
            Some(row) => match row.state {
                Away::Detached => SiteState::Detached,
                Away::Suspect => SiteState::Suspect,
            },
        }
    }

    /// The job of this number. `None` exactly where none stands.
    pub fn job(&self, number: u32) -> Option<JobRow>
        ensures { (s : Store) → IsKeyed s → self.now ≡ known_of s → result ≡ fin.get s.jobs number }
    {
        find_row(&self.jobs, &CellKey::Job(number))
    }

    /// How many maps stand.
    pub fn map_count(&self) -> usize
        ensures { (s : Store) → self.now ≡ known_of s → result ≡ fin.len s.maps }
    {
        self.maps.len()
    }

    /// Whether the map has a shard.
    pub fn has_shard(&self, map: &Name) -> bool
        ensures { (s : Store) → self.now ≡ known_of s → result ≡ list_any (λ shard. same map.now shard.0) (members s.shards) }
    {
        self.shards.iter().any(|row| map.cmp(&row.map).is_eq())
    }

    /// How many tables the map has.
    pub fn table_count(&self, map: &Name) -> usize
        ensures { (s : Store) → self.now ≡ known_of s → result ≡ length (tables_in s.tables map.now) }
    {
        self.tables
            .iter()
            .filter(|row| map.cmp(&row.map).is_eq())
            .count()
    }

    /// How many jobs stand.
    pub fn job_count(&self) -> usize
        ensures { (s : Store) → self.now ≡ known_of s → result ≡ fin.len s.jobs }
    {
        self.jobs.len()
    }

    /// The tables, by map and name.
    pub fn tables(&self) -> &[TableRow]
        ensures { result.now ≡ self.now.tables }
    {
        self.tables.as_slice()
    }

    /// Whether a standing job of the map has the location as target.
    pub fn is_target(&self, map: &Name, location: &Location) -> bool
        ensures { (s : Store) → self.now ≡ known_of s → result ≡ list_any (λ job. same map.now job.map && same job.target location.now) (fin.values s.jobs) }
    {
        self.jobs.iter().any(|job| map.cmp(&job.map).is_eq() && job.target.cmp(location).is_eq())
    }

    /// The copy as it is after a change of the global store. It is made before the change, and put in this one's place
    /// once that is made: so nothing fails afterwards.
    pub fn changed(&self, alloc: Global, change: &Change) -> Result<KnownTables, Memory>
        ensures { IfOk result (λ next. (s : Store) → IsKeyed s → self.now ≡ known_of s → next ≡ known_of (changed s change.now)) }
    {
        let mut next = self.copy(alloc)?;
        for edit in change.as_slice() {
            next.edit(edit)?;
        }
        Ok(next)
    }

    /// The same copy.
    fn copy(&self, alloc: Global) -> Result<KnownTables, Memory>
        ensures { IfOk result (λ copy. copy ≡ self.now) }
    {
        let maps = copied(alloc, &self.maps)?;
        let shards = copied(alloc, &self.shards)?;
        let tables = copied(alloc, &self.tables)?;
        let away = copied(alloc, &self.away)?;
        let jobs = copied(alloc, &self.jobs)?;
        Ok(KnownTables {
            maps,
            shards,
            tables,
            away,
            jobs,
        })
    }

    /// Makes an edit.
    fn edit(&mut self, edit: &Edit) -> Result<(), Memory>
        ensures { OnOk result ((s : Store) → IsKeyed s → self.old ≡ known_of s → self.new ≡ known_of (edited s edit.now)) }
    {
        match edit {
            Edit::Put(cell) => self.put(cell),
            Edit::Delete(key) => {
                self.delete(key);
                Ok(())
            }
        }
    }

    /// Puts a cell.
    fn put(&mut self, cell: &Cell) -> Result<(), Memory>
        ensures { OnOk result ((s : Store) → IsKeyed s → self.old ≡ known_of s → self.new ≡ known_of (put s cell.now)) }
    {
        match cell {
            Cell::Map(_, _, _) => put_cell(&mut self.maps, cell),
            Cell::Shard(_, _) => put_cell(&mut self.shards, cell),
            Cell::Table(_, _) => put_cell(&mut self.tables, cell),
            Cell::Job(_) => put_cell(&mut self.jobs, cell),
            Cell::SiteState(_, _) => put_cell(&mut self.away, cell),
            Cell::Piece(_) => Ok(()),
            Cell::Log(_) => Ok(()),
            Cell::Counter(_) => Ok(()),
            Cell::Local(_) => Ok(()),
            Cell::Row(_, _) => Ok(()),
        }
    }

    /// Deletes the cell under a key, if one stands there.
    fn delete(&mut self, key: &CellKey)
        ensures { (s : Store) → IsKeyed s → self.old ≡ known_of s → self.new ≡ known_of (delete s key.now) }
    {
        match key {
            CellKey::Map(_) => remove_key(&mut self.maps, key),
            CellKey::Shard(_, _) => remove_key(&mut self.shards, key),
            CellKey::Table(_, _) => remove_key(&mut self.tables, key),
            CellKey::Job(_) => remove_key(&mut self.jobs, key),
            CellKey::SiteState(_) => remove_key(&mut self.away, key),
            CellKey::Piece(_, _) => {}
            CellKey::Log(_) => {}
            CellKey::Counter => {}
            CellKey::Local(_, _, _) => {}
            CellKey::Row(_) => {}
        }
    }
}
