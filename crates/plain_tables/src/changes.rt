//! Changes of one table. Want of memory leaves it as it was.
ghost use Rattle.std.specs.Prelude.{◌≡◌, not, ◌==◌, Some, None, OnOk, OnErr};
ghost use Rattle.std.specs.FinMap as map;
ghost use Rattle.std.specs.FinSet as set;
ghost use Rattle.cell_world.specs.ByteOrder.{byte_cmp};
ghost use Rattle.cell_world.specs.Keys.{same};
ghost use Rattle.cell_world.specs.Orders.{pair_cmp, row_cmp};
ghost use Rattle.plain_model.specs.Steps.{with_connection, ended_under};
ghost use Rattle.plain_tables.specs.Tables.{table, keys_in};
ghost use Rattle.plain_tables.specs.State.{connection, connections_of, link_shown, ended_link};

use crate::state::Link;
use cell_world::cells::{KeyType, MapKind, RowName};
use cell_world::items::RowBytes;
use cell_world::locations::Location;
use cell_world::memory::Memory;
use cell_world::names::Name;
use cell_world::operations::Piece;
use std::collections::{BTreeMap, BTreeSet};

pub fn put_map(
    maps: &mut BTreeMap<Name, (MapKind, KeyType)>,
    name: &Name,
    kind: MapKind,
    keys: KeyType,
) -> Result<(), Memory>
    ensures ok { OnOk result (table byte_cmp maps.new ≡ map.insert (table byte_cmp maps.old) name.now (kind, keys)) }
    ensures err { OnErr result (table byte_cmp maps.new ≡ table byte_cmp maps.old) }
{
    if maps.insert(*name, (kind, keys)).is_err() {
        return Err(Memory);
    }
    Ok(())
}

pub fn drop_map(maps: &mut BTreeMap<Name, (MapKind, KeyType)>, name: &Name)
    ensures { table byte_cmp maps.new ≡ map.remove (table byte_cmp maps.old) name.now }
{
    maps.remove(name);
}

pub fn put_shard(
    shards: &mut BTreeSet<(Name, Location)>,
    name: &Name,
    location: &Location,
) -> Result<(), Memory>
    ensures ok { OnOk result (keys_in pair_cmp shards.new ≡ set.insert (keys_in pair_cmp shards.old) (name.now, location.now)) }
    ensures err { OnErr result (keys_in pair_cmp shards.new ≡ keys_in pair_cmp shards.old) }
{
    if shards.insert((*name, *location)).is_err() {
        return Err(Memory);
    }
    Ok(())
}

pub fn drop_shard(shards: &mut BTreeSet<(Name, Location)>, name: &Name, location: &Location)
    ensures { keys_in pair_cmp shards.new ≡ set.remove (keys_in pair_cmp shards.old) (name.now, location.now) }
{
    shards.remove(&(*name, *location));
}

pub fn put_table(
    tables: &mut BTreeSet<(Name, Name)>,
    name: &Name,
    table: &Name,
) -> Result<(), Memory>
    ensures ok { OnOk result (keys_in pair_cmp tables.new ≡ set.insert (keys_in pair_cmp tables.old) (name.now, table.now)) }
    ensures err { OnErr result (keys_in pair_cmp tables.new ≡ keys_in pair_cmp tables.old) }
{
    if tables.insert((*name, *table)).is_err() {
        return Err(Memory);
    }
    Ok(())
}

/// All tables of a map go.
pub fn drop_tables(tables: &mut BTreeSet<(Name, Name)>, name: &Name)
    ensures { keys_in pair_cmp tables.new ≡ set.retain (keys_in pair_cmp tables.old) (λ table. not (same name.now table.0)) }
{
    tables.retain(|table| !name.cmp(&table.0).is_eq());
}

pub fn put_row(
    rows: &mut BTreeMap<RowName, RowBytes>,
    row: &RowName,
    bytes: RowBytes,
) -> Result<(), Memory>
    ensures ok { OnOk result (table row_cmp rows.new ≡ map.insert (table row_cmp rows.old) row.now bytes) }
    ensures err { OnErr result (table row_cmp rows.new ≡ table row_cmp rows.old) }
{
    if rows.insert(*row, bytes).is_err() {
        return Err(Memory);
    }
    Ok(())
}

pub fn drop_row(rows: &mut BTreeMap<RowName, RowBytes>, row: &RowName)
    ensures { table row_cmp rows.new ≡ map.remove (table row_cmp rows.old) row.now }
{
    rows.remove(row);
}

pub fn put_link(
    links: &mut BTreeMap<(u32, u32), Link>,
    session: u32,
    number: u32,
    link: &Link,
) -> Result<(), Memory>
    ensures ok { OnOk result (connections_of links.new ≡ with_connection (connections_of links.old) session number (Some (connection link.now))) }
    ensures err { OnErr result (connections_of links.new ≡ connections_of links.old) }
{
    if links.insert((session, number), *link).is_err() {
        return Err(Memory);
    }
    Ok(())
}

pub fn drop_link(links: &mut BTreeMap<(u32, u32), Link>, session: u32, number: u32)
    ensures { connections_of links.new ≡ with_connection (connections_of links.old) session number None }
{
    links.remove(&(session, number));
}

/// The connection, ended if its key is one of the mapping.
fn after_end(piece: &Piece, link: &Link) -> Link
    ensures { result ≡ ended_link piece.now link.now }
{
    if piece.map.cmp(&link.map).is_eq() && piece.span.contains(&link.key) {
        Link {
            live: false,
            ..*link
        }
    } else {
        *link
    }
}

/// Every connection to a key of the mapping is ended.
pub fn end_under(links: &mut BTreeMap<(u32, u32), Link>, piece: &Option<Piece>)
    ensures { connections_of links.new ≡ ended_under piece.now (connections_of links.old) }
{
    if let Some(piece) = piece {
        links.retain(|_, link| {
            *link = after_end(piece, link);
            true
        });
    }
}
