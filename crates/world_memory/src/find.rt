//! Cells that are looked for by their order.
ghost use Rattle.std.specs.Prelude.{◌≡◌, ◌↔◌, ℕ, replicate, IfOk, IsTrue};
ghost use Rattle.std.specs.Option.{option_copied};
ghost use Rattle.cell_world.specs.Finding.{IsFloor, IsScan, IsNextKey};
ghost use Rattle.cell_world.specs.Orders.{kind_number, map_of};
ghost use Rattle.cell_world.specs.Stores.{Store, IsStore, IsKeyed, cell_at};
ghost use Rattle.cell_world.specs.declared.limits.TheConstants.{NAME_BYTES};
ghost use Rattle.world_memory.specs.First.{IsFirst, begin_at, row_within, beside};
ghost use Rattle.world_memory.specs.Kept.{Holds};

use crate::contents::SiteKey;
use crate::copies::{cell_copied, key_of};
use cell_world::cells::{Cell, CellKey, RowName, Site};
use cell_world::limits::NAME_BYTES;
use cell_world::memory::Memory;
use cell_world::names::Name;
use cell_world::norm_keys::NormKey;
use std::alloc::Global;
use std::collections::BTreeMap;
use std::ops::Bound;

/// The place of a kind in cell order.
fn kind_of(key: &CellKey) -> u8
    ensures { result ≡ kind_number key.now }
{
    match key {
        CellKey::Map(_) => 1,
        CellKey::Shard(_, _) => 2,
        CellKey::Table(_, _) => 3,
        CellKey::Piece(_, _) => 4,
        CellKey::Log(_) => 5,
        CellKey::Job(_) => 6,
        CellKey::Counter => 7,
        CellKey::SiteState(_) => 8,
        CellKey::Local(_, _, _) => 9,
        CellKey::Row(_) => 10,
    }
}

/// The map of a key, for the kinds of which the first field is a map beside others.
fn map_within(key: &CellKey) -> Option<Name>
    ensures { result ≡ map_of key.now }
{
    match key {
        CellKey::Shard(name, _)
        | CellKey::Table(name, _)
        | CellKey::Piece(name, _)
        | CellKey::Local(name, _, _) => Some(*name),
        CellKey::Row(row) => Some(row.map),
        _ => None,
    }
}

/// Whether both are of one site and one kind.
fn same_kind(a: &SiteKey, b: &SiteKey) -> bool
    ensures { IsTrue result ↔ ((a.now.site ≡ b.now.site) × (kind_number a.now.key ≡ kind_number b.now.key)) }
{
    a.site == b.site && kind_of(&a.key) == kind_of(&b.key)
}

/// Whether both are of one site, one kind and one map.
fn same_part(a: &SiteKey, b: &SiteKey) -> bool
    ensures { IsTrue result ↔ ((a.now.site ≡ b.now.site) × (kind_number a.now.key ≡ kind_number b.now.key) × (map_of a.now.key ≡ map_of b.now.key)) }
{
    a.site == b.site
        && kind_of(&a.key) == kind_of(&b.key)
        && map_within(&a.key) == map_within(&b.key)
}

/// Where a search begins.
fn begin_at(from: &SiteKey, past: bool) -> Bound<SiteKey>
    ensures { result ≡ begin_at past from.now }
{
    if past {
        Bound::Excluded(*from)
    } else {
        Bound::Included(*from)
    }
}

/// The first cell at or above a key of its site and its kind; with `past`, above it.
fn first<'a>(cells: &'a BTreeMap<SiteKey, Cell>, from: &SiteKey, past: bool) -> Option<&'a Cell>
    ensures { (stores : ℕ → Store) → Holds cells.now stores → IsKeyed (stores from.now.site) → IsFirst (stores from.now.site) from.now.key past (option_copied result) }
{
    let mut range = cells.range((begin_at(from, past), Bound::Unbounded));
    let Some((at, cell)) = range.next() else {
        return None;
    };
    if !same_kind(at, from) {
        return None;
    }
    Some(cell)
}

/// The cell of a key.
pub fn find(
    cells: &BTreeMap<SiteKey, Cell>,
    alloc: Global,
    site: Site,
    key: &CellKey,
) -> Result<Option<Cell>, Memory>
    ensures { IfOk result (λ found. (stores : ℕ → Store) → Holds cells.now stores → found ≡ cell_at (stores site.0) key.now) }
{
    let at = SiteKey {
        site: site.0,
        key: *key,
    };
    match cells.get(&at) {
        Some(cell) => Ok(Some(cell_copied(cell, alloc)?)),
        None => Ok(None),
    }
}

/// The greatest cell at or below a key of its kind and its map.
pub fn floor(
    cells: &BTreeMap<SiteKey, Cell>,
    alloc: Global,
    site: Site,
    key: &CellKey,
) -> Result<Option<Cell>, Memory>
    ensures { IfOk result (λ found. (stores : ℕ → Store) → Holds cells.now stores → IsKeyed (stores site.0) → IsFloor (stores site.0) key.now found) }
{
    let from = SiteKey {
        site: site.0,
        key: *key,
    };
    let mut range = cells.range(..=from);
    let Some((at, cell)) = range.next_back() else {
        return Ok(None);
    };
    if !same_part(at, &from) {
        return Ok(None);
    }
    Ok(Some(cell_copied(cell, alloc)?))
}

/// The first cells at or above a key of its kind: `limit` of them, or all where there are fewer.
pub fn scan(
    cells: &BTreeMap<SiteKey, Cell>,
    alloc: Global,
    site: Site,
    from: &CellKey,
    limit: u32,
) -> Result<Vec<Cell>, Memory>
    ensures { IfOk result (λ found. (stores : ℕ → Store) → Holds cells.now stores → IsKeyed (stores site.0) → IsScan (stores site.0) from.now limit found.items) }
{
    let mut found: Vec<Cell> = Vec::new(alloc);
    let mut at = *from;
    let mut past = false;
    while found.len() < limit as usize {
        let here = SiteKey {
            site: site.0,
            key: at,
        };
        let Some(cell) = first(cells, &here, past) else {
            return Ok(found);
        };
        at = key_of(cell);
        past = true;
        if found.push(cell_copied(cell, alloc)?).is_err() {
            return Err(Memory);
        }
    }
    Ok(found)
}

/// The greatest name.
fn greatest_name() -> Name
    ensures { result ≡ replicate NAME_BYTES 122 }
{
    Name::read(&[b'z'; NAME_BYTES]).unwrap()
}

/// The name of a row, if this is one.
fn row_of(cell: Option<&Cell>) -> Option<RowName>
    ensures { result ≡ row_within (option_copied cell.entry) }
{
    match cell {
        Some(Cell::Row(row, _)) => Some(*row),
        _ => None,
    }
}

/// A row name before all rows of a key, or one after all of them.
fn beside(map: &Name, key: &NormKey, past: bool) -> RowName
    ensures { result ≡ beside past map.now key.now }
{
    if past {
        RowName {
            map: *map,
            key: *key,
            table: greatest_name(),
            number: u64::MAX,
        }
    } else {
        RowName {
            map: *map,
            key: *key,
            table: Name::least(),
            number: 0,
        }
    }
}

/// The least key of a row of the map at or above this one; with `past`, above it.
pub fn next_key(
    cells: &BTreeMap<SiteKey, Cell>,
    site: Site,
    map: &Name,
    from: &NormKey,
    past: bool,
) -> Option<NormKey>
    ensures { (stores : ℕ → Store) → Holds cells.now stores → IsStore (stores site.0) → IsNextKey (stores site.0).rows map.now from.now past result }
{
    let here = SiteKey {
        site: site.0,
        key: CellKey::Row(beside(map, from, past)),
    };
    let Some(row) = row_of(first(cells, &here, past)) else {
        return None;
    };
    if row.map != *map {
        return None;
    }
    Some(row.key)
}
