//! Rows that are put, got and deleted under the key of a connection.
ghost use Rattle.std.specs.Prelude.{◌≡◌, [], ◌∷◌, None, Some, Option, option_map, IfOk, IfErr, IfSome, IsErrOf};
ghost use Rattle.std.specs.FinMap as map;
ghost use Rattle.cell_world.specs.Images.{Shard};
ghost use Rattle.cell_world.specs.Outside.{IfContents, IsLater, StoreRoseBy, site_number};
ghost use Rattle.cell_world.specs.Texts.{Text};
ghost use Rattle.cell_world.specs.declared.cells.RowName.{RowName as ARow};
ghost use Rattle.connections.specs.Links.{connection};
ghost use Rattle.plain_model.specs.Refusing as refusing;
ghost use Rattle.session_rows.specs.Rows.{AnswersChange, AnswersRow, AsksNoStore, FindsRow, GoesBy, IsAbsentOrFault, IsFault, IsShortStop, TellsChange, TellsDelete, TellsPut, delete_change, delete_command, get_command, linked, put_change, put_command};

use crate::stops::RowStop;
use cell_world::cells::{Cell, CellKey, RowName};
use cell_world::changes::{Change, Edit};
use cell_world::items::RowBytes;
use cell_world::locations::Location;
use cell_world::memory::Memory;
use cell_world::names::Name;
use cell_world::outside::World;
use connections::links::Link;
use global_tables::known::KnownTables;
use plain_model::replies::Refusal;
use std::alloc::Global;

/// The link that a row command goes by; or of the checks that ask for no row the first that holds.
fn live_link(known: &KnownTables, link: &Option<Link>, table: &Name) -> Result<Link, Refusal>
    ensures { GoesBy known.now link.now table.now result }
{
    let Some(link) = link else {
        return Err(Refusal::NoConnection);
    };
    if !link.live {
        return Err(Refusal::Ended);
    }
    if !known.is_table(&link.map, table) {
        return Err(Refusal::NoTable);
    }
    Ok(*link)
}

/// The row of this table and number under the link's key.
fn row_under(link: &Link, table: &Name, id: u64) -> RowName
    ensures { result ≡ refusing.row_of (connection link.now) table.now id }
{
    RowName {
        map: link.map,
        key: link.key,
        table: *table,
        number: id,
    }
}

/// The bytes of a row cell. `Memory`: it is another cell, which no store has under a row's key.
fn bytes_in(found: Option<Cell>) -> Result<Option<RowBytes>, RowStop>
    ensures found { IfOk result (λ bytes. (row : ARow) (stored : Option Text) → found ≡ option_map (Cell.Row row) stored → bytes ≡ stored) }
    ensures memory { IfErr result (λ stop. stop ≡ RowStop.Memory) }
{
    match found {
        None => Ok(None),
        Some(Cell::Row(_, bytes)) => Ok(Some(bytes)),
        Some(_) => Err(RowStop::Memory),
    }
}

/// The bytes that the site of a location has under a row's name, by one read.
fn read_at<W: World>(
    alloc: Global,
    world: &mut W,
    location: &Location,
    row: &RowName,
) -> Result<Option<RowBytes>, RowStop>
    ensures found { IfOk result (λ bytes. IfContents (W.outside world.old).told (λ image. bytes ≡ map.get (image.at (Shard location.now)).rows row.now)) }
    ensures fault { IfErr result IsFault }
    ensures told { (W.outside world.new).told ≡ (W.outside world.old).told }
    ensures unknown { site_number (W.outside world.old).locations location.now ≡ None → result ≡ Err RowStop.Memory }
    ensures reads { (W.outside world.new).global_reads ≡ (W.outside world.old).global_reads }
    ensures later { IsLater (W.outside world.old) (W.outside world.new) }
    ensures cause { IsErrOf result RowStop.Store → StoreRoseBy 1 (W.outside world.old) (W.outside world.new) }
{
    let Some(site) = world.locate(location) else {
        return Err(RowStop::Memory);
    };
    let found = world.read(alloc, site, &CellKey::Row(*row))?;
    bytes_in(found)
}

/// The bytes of the row of this table and number under the link's key, by one read of the link's site.
fn find_row<W: World>(
    alloc: Global,
    world: &mut W,
    link: &Link,
    table: &Name,
    id: u64,
) -> Result<RowBytes, RowStop>
    ensures finds { IfContents (W.outside world.old).told (FindsRow (connection link.now) table.now id result) }
    ensures stops { IfErr result IsAbsentOrFault }
    ensures told { (W.outside world.new).told ≡ (W.outside world.old).told }
    ensures unknown { site_number (W.outside world.old).locations link.now.location ≡ None → result ≡ Err RowStop.Memory }
    ensures reads { (W.outside world.new).global_reads ≡ (W.outside world.old).global_reads }
    ensures later { IsLater (W.outside world.old) (W.outside world.new) }
    ensures cause { IsErrOf result RowStop.Store → StoreRoseBy 1 (W.outside world.old) (W.outside world.new) }
{
    let row = row_under(link, table, id);
    match read_at(alloc, world, &link.location, &row)? {
        Some(bytes) => Ok(bytes),
        None => Err(RowStop::Refused(Refusal::Absent)),
    }
}

/// Makes a change at the site of a location in one transaction. `Store`: it is made or not made. `Memory`: it isn't made.
fn commit_at<W: World>(
    alloc: Global,
    world: &mut W,
    location: &Location,
    change: &Change,
) -> Result<(), RowStop>
    ensures tells { TellsChange (W.outside world.old).told (W.outside world.new).told location.now change.now result }
    ensures fault { IfErr result IsFault }
    ensures unknown { site_number (W.outside world.old).locations location.now ≡ None → result ≡ Err RowStop.Memory }
    ensures reads { (W.outside world.new).global_reads ≡ (W.outside world.old).global_reads }
    ensures later { IsLater (W.outside world.old) (W.outside world.new) }
    ensures cause { IsErrOf result RowStop.Store → StoreRoseBy 1 (W.outside world.old) (W.outside world.new) }
{
    let Some(site) = world.locate(location) else {
        return Err(RowStop::Memory);
    };
    world.commit(alloc, site, change)?;
    Ok(())
}

/// The change that puts a row.
fn change_to(alloc: Global, row: RowName, bytes: &RowBytes) -> Result<Change, Memory>
    ensures { IfOk result (λ change. change ≡ Edit.Put (Cell.Row row bytes.now) ∷ []) }
{
    let copy = bytes.copied(alloc)?;
    let mut change = Change::empty(alloc);
    change.put(Cell::Row(row, copy))?;
    Ok(change)
}

/// The change that deletes a row.
fn change_without(alloc: Global, row: RowName) -> Result<Change, Memory>
    ensures { IfOk result (λ change. change ≡ Edit.Delete (CellKey.Row row) ∷ []) }
{
    let mut change = Change::empty(alloc);
    change.delete(CellKey::Row(row))?;
    Ok(change)
}

/// `put`: the row of this table and number under the connection's key has these bytes from then on. The link is what the
/// session's table has at the command's number.
///
/// `Store`: the row was put or it wasn't. `Memory`: it wasn't; also where the world doesn't know the link's location.
pub fn put_row<W: World>(
    alloc: Global,
    world: &mut W,
    known: &KnownTables,
    link: &Option<Link>,
    table: &Name,
    id: u64,
    bytes: &RowBytes,
) -> Result<(), RowStop>
    ensures answers { IfContents (W.outside world.old).told (AnswersChange known.now (put_command table.now id bytes.now) (linked link.now) (put_change table.now id bytes.now) result) }
    ensures tells { TellsPut (W.outside world.old).told (W.outside world.new).told (linked link.now) (put_change table.now id bytes.now) result }
    ensures short { IfErr result IsShortStop }
    ensures unknown { IfSome link.now (λ l. site_number (W.outside world.old).locations l.location ≡ None → AsksNoStore result) }
    ensures reads { (W.outside world.new).global_reads ≡ (W.outside world.old).global_reads }
    ensures later { IsLater (W.outside world.old) (W.outside world.new) }
    ensures cause { IsErrOf result RowStop.Store → StoreRoseBy 1 (W.outside world.old) (W.outside world.new) }
{
    let link = live_link(known, link, table)?;
    let change = change_to(alloc, row_under(&link, table, id), bytes)?;
    commit_at(alloc, world, &link.location, &change)
}

/// `get`: the bytes of the row of this table and number under the connection's key. The link is what the session's table
/// has at the command's number.
///
/// `Memory`: also where the world doesn't know the link's location.
pub fn get_row<W: World>(
    alloc: Global,
    world: &mut W,
    known: &KnownTables,
    link: &Option<Link>,
    table: &Name,
    id: u64,
) -> Result<RowBytes, RowStop>
    ensures answers { IfContents (W.outside world.old).told (AnswersRow known.now (get_command table.now id) (linked link.now) result) }
    ensures told { (W.outside world.new).told ≡ (W.outside world.old).told }
    ensures short { IfErr result IsShortStop }
    ensures unknown { IfSome link.now (λ l. site_number (W.outside world.old).locations l.location ≡ None → AsksNoStore result) }
    ensures reads { (W.outside world.new).global_reads ≡ (W.outside world.old).global_reads }
    ensures later { IsLater (W.outside world.old) (W.outside world.new) }
    ensures cause { IsErrOf result RowStop.Store → StoreRoseBy 1 (W.outside world.old) (W.outside world.new) }
{
    let link = live_link(known, link, table)?;
    find_row(alloc, world, &link, table, id)
}

/// `del`: the row of this table and number under the connection's key is gone from then on. The link is what the session's
/// table has at the command's number.
///
/// `Store`: the row was deleted or it wasn't. `Memory`: it wasn't; also where the world doesn't know the link's location.
pub fn del_row<W: World>(
    alloc: Global,
    world: &mut W,
    known: &KnownTables,
    link: &Option<Link>,
    table: &Name,
    id: u64,
) -> Result<(), RowStop>
    ensures answers { IfContents (W.outside world.old).told (AnswersChange known.now (delete_command table.now id) (linked link.now) (delete_change table.now id) result) }
    ensures tells { TellsDelete (W.outside world.old).told (W.outside world.new).told (linked link.now) (delete_change table.now id) result }
    ensures short { IfErr result IsShortStop }
    ensures unknown { IfSome link.now (λ l. site_number (W.outside world.old).locations l.location ≡ None → AsksNoStore result) }
    ensures reads { (W.outside world.new).global_reads ≡ (W.outside world.old).global_reads }
    ensures later { IsLater (W.outside world.old) (W.outside world.new) }
    ensures cause { IsErrOf result RowStop.Store → StoreRoseBy 1 (W.outside world.old) (W.outside world.new) }
{
    let link = live_link(known, link, table)?;
    find_row(alloc, world, &link, table, id)?;
    let removal = change_without(alloc, row_under(&link, table, id))?;
    commit_at(alloc, world, &link.location, &removal)
}
