//! One store of cells.
ghost use Rattle.std.specs.Prelude.{◌≡◌, ◌≤◌, true, IfOk, OnOk, OnErr};
ghost use Rattle.cell_world.specs.Counts.{last_count};
ghost use Rattle.cell_world.specs.Finding.{IsFloor, IsScan, IsNextKey};
ghost use Rattle.cell_world.specs.Orders.{kind_number};
ghost use Rattle.cell_world.specs.Stores.{cell_at, empty_store};
ghost use Rattle.record_form.specs.OrderBytes.{ordered};
ghost use Rattle.sqlite_site.specs.Entries.{IsReadOf, IsFloorOf, ArePageOf, IsNextOf};
ghost use Rattle.sqlite_site.specs.Held.{OfRows, OfStores, Leaves, Makes, Changes};
ghost use Rattle.sqlite_site.specs.Kept.{IsKept, store_of, committed};
ghost use Rattle.sqlite_site.specs.Refusals.{counts_after};

use crate::keeping::Keeping;
use crate::opened;
use crate::refused::{Refused, counted};
use cell_world::cells::{Cell, CellKey};
use cell_world::changes::Change;
use cell_world::names::Name;
use cell_world::norm_keys::NormKey;
use cell_world::outside::WorldError;
use sqlite::Connection;
use std::alloc::Global;

/// One store of cells, and how often a call at it has failed.
#[derive(Drop)]
pub struct Site<S: Keeping> {
    /// None where it couldn't be opened again.
    conn: Option<Connection<S>>,
    place: S::Place,
    faults: u64,
    ghost counted: { faults ≤ last_count },
    ghost kept: { S.tells ≡ true → ∥ IsKept S.Store conn ∥₁ },
}

impl<S: Keeping> Site<S> {
    /// The store at a place, where no call has failed yet. `Failed` where `sqlite` refuses to open it.
    pub fn open(alloc: Global, place: S::Place) -> Result<Site<S>, WorldError>
        ensures fresh { IfOk result (λ site. site.faults ≡ 0) }
        ensures empty { S.tells ≡ true → IfOk result (λ site. store_of S.Store site.conn ≡ empty_store) }
    {
        match S::open(alloc, &place) {
            Ok(conn) => Ok(Site {
                conn: Some(conn),
                place,
                faults: 0,
            }),
            Err(Refused::Memory) => Err(WorldError::Memory),
            Err(Refused::Store) => Err(WorldError::Failed),
        }
    }

    /// The cell of a key.
    pub fn read(&mut self, alloc: Global, key: &CellKey) -> Result<Option<Cell>, WorldError>
        ensures found { IfOk result (λ found. OfRows S.Store self.old.conn self.new.conn (λ all. IsReadOf all key.now found)) }
        ensures cells { IfOk result (λ found. OfStores S.Store self.old.conn self.new.conn (λ s. found ≡ cell_at s key.now)) }
        ensures same { Leaves S.Store self.old.conn self.new.conn }
        ensures told { S.tells ≡ true → IfOk result (λ found. found ≡ cell_at (store_of S.Store self.old.conn) key.now) }
        ensures stays { S.tells ≡ true → store_of S.Store self.new.conn ≡ store_of S.Store self.old.conn }
        ensures count { self.new.faults ≡ counts_after result self.old.faults }
    {
        let done = opened::read(&mut self.conn, alloc, key);
        counted(&mut self.faults, done)
    }

    /// The greatest cell of the same kind and map that is at or below the key.
    pub fn floor(&mut self, alloc: Global, key: &CellKey) -> Result<Option<Cell>, WorldError>
        ensures found { IfOk result (λ found. OfRows S.Store self.old.conn self.new.conn (λ all. IsFloorOf all key.now found)) }
        ensures cells { IfOk result (λ found. OfStores S.Store self.old.conn self.new.conn (λ s. IsFloor s key.now found)) }
        ensures same { Leaves S.Store self.old.conn self.new.conn }
        ensures told { S.tells ≡ true → IfOk result (λ found. IsFloor (store_of S.Store self.old.conn) key.now found) }
        ensures stays { S.tells ≡ true → store_of S.Store self.new.conn ≡ store_of S.Store self.old.conn }
        ensures count { self.new.faults ≡ counts_after result self.old.faults }
    {
        let done = opened::floor(&mut self.conn, alloc, key);
        counted(&mut self.faults, done)
    }

    /// The first cells at or above the key of the same kind, in cell order.
    pub fn scan(
        &mut self,
        alloc: Global,
        from: &CellKey,
        limit: u32,
    ) -> Result<Vec<Cell>, WorldError>
        ensures found { IfOk result (λ found. OfRows S.Store self.old.conn self.new.conn (λ all. ArePageOf all (kind_number from.now) (ordered from.now) limit found.items)) }
        ensures cells { IfOk result (λ found. OfStores S.Store self.old.conn self.new.conn (λ s. IsScan s from.now limit found.items)) }
        ensures same { Leaves S.Store self.old.conn self.new.conn }
        ensures told { S.tells ≡ true → IfOk result (λ found. IsScan (store_of S.Store self.old.conn) from.now limit found.items) }
        ensures stays { S.tells ≡ true → store_of S.Store self.new.conn ≡ store_of S.Store self.old.conn }
        ensures count { self.new.faults ≡ counts_after result self.old.faults }
    {
        let done = opened::scan(&mut self.conn, alloc, from, limit);
        counted(&mut self.faults, done)
    }

    /// The least key with a row of the map at or above this one; with `past`, above it.
    pub fn next_key(
        &mut self,
        alloc: Global,
        map: &Name,
        from: &NormKey,
        past: bool,
    ) -> Result<Option<NormKey>, WorldError>
        ensures found { IfOk result (λ found. OfRows S.Store self.old.conn self.new.conn (λ all. IsNextOf all map.now from.now past found)) }
        ensures cells { IfOk result (λ found. OfStores S.Store self.old.conn self.new.conn (λ s. IsNextKey s.rows map.now from.now past found)) }
        ensures same { Leaves S.Store self.old.conn self.new.conn }
        ensures told { S.tells ≡ true → IfOk result (λ found. IsNextKey (store_of S.Store self.old.conn).rows map.now from.now past found) }
        ensures stays { S.tells ≡ true → store_of S.Store self.new.conn ≡ store_of S.Store self.old.conn }
        ensures count { self.new.faults ≡ counts_after result self.old.faults }
    {
        let done = opened::next_key(&mut self.conn, alloc, map, from, past);
        counted(&mut self.faults, done)
    }

    /// Makes a change in one transaction.
    pub fn commit(&mut self, alloc: Global, change: &Change) -> Result<(), WorldError>
        ensures made { OnOk result (Makes S.Store self.old.conn self.new.conn change.now) }
        ensures changed { OnOk result (Changes S.Store self.old.conn self.new.conn change.now) }
        ensures unmade { OnErr result (Leaves S.Store self.old.conn self.new.conn) }
        ensures told { S.tells ≡ true → store_of S.Store self.new.conn ≡ committed result (store_of S.Store self.old.conn) change.now }
        ensures count { self.new.faults ≡ counts_after result self.old.faults }
    {
        let done = opened::commit(&mut self.conn, alloc, change);
        counted(&mut self.faults, done)
    }

    /// Opens the site anew.
    pub fn reopen(&mut self, alloc: Global) -> Result<(), WorldError>
        ensures stays { S.tells ≡ true → store_of S.Store self.new.conn ≡ store_of S.Store self.old.conn }
        ensures count { self.new.faults ≡ counts_after result self.old.faults }
    {
        let done = S::reopen(&mut self.conn, alloc, &self.place);
        counted(&mut self.faults, done)
    }
}
