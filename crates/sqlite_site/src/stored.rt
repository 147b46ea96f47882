//! Cells that are found and changed by the four statements.
ghost use Rattle.std.specs.Prelude.{◌≡◌, false, List, IfOk, OnOk, OnErr, IsTrue};
ghost use Rattle.cell_world.specs.Spelled.{IsCell};
ghost use Rattle.cell_world.specs.Orders.{kind_number};
ghost use Rattle.cell_world.specs.Finding.{IsFloor, IsScan, IsNextKey};
ghost use Rattle.cell_world.specs.Stores.{Store, own_key, cell_at, changed};
ghost use Rattle.record_form.specs.Layout.{spelling};
ghost use Rattle.record_form.specs.OrderBytes.{ordered};
ghost use Rattle.sqlite.specs.Held.{state};
ghost use Rattle.sqlite.specs.State.{HasCleanDisk};
ghost use Rattle.cell_table.specs.Cells.{Entry, Holds};
ghost use Rattle.sqlite_site.specs.Contents.{HoldsStore};
ghost use Rattle.sqlite_site.specs.Entries.{IsReadOf, IsLastOf, IsFloorOf, ArePageOf, IsNextOf, AreEdited};
ghost use Rattle.sqlite_site.specs.Held.{Rests, IsOpOf, AreOpsOf};

use crate::keys::{first_key, is_under, key_of, kind_of, rows_from, within};
use crate::refused::Refused;
use crate::rows::{cell_of, cells_of};
use cell_table::Op;
use cell_world::cells::{Cell, CellKey};
use cell_world::changes::{Change, Edit};
use cell_world::names::Name;
use cell_world::norm_keys::NormKey;
use record_form::ordering::order_bytes;
use record_form::reading::read_cell;
use record_form::writing::write_cell;
use sqlite::{Alter, Connection};
use std::alloc::Global;

/// The cell that these bytes spell, which must be the one of the key.
fn cell_under(alloc: Global, key: &CellKey, value: &[u8]) -> Result<Cell, Refused>
    ensures { IfOk result (λ c. (own_key c ≡ key.now) × IsCell c × (value.now ≡ spelling c)) }
{
    let cell = read_cell(alloc, value)?;
    if !is_under(key, &cell) {
        return Err(Refused::Store);
    }
    Ok(cell)
}

/// The cell of a key.
pub(crate) fn read<S: Alter>(
    conn: &mut Connection<S>,
    alloc: Global,
    key: &CellKey,
) -> Result<Option<Cell>, Refused>
    ensures found { HasCleanDisk (state S.Store conn.new) → IfOk result (λ found. (all : List Entry) → Holds (state S.Store conn.old).now all → IsReadOf all key.now found) }
    ensures cells { HasCleanDisk (state S.Store conn.new) → IfOk result (λ found. (s : Store) → HoldsStore (state S.Store conn.old).now s → found ≡ cell_at s key.now) }
    ensures same { Rests (state S.Store conn.old) (state S.Store conn.new) }
    ensures mode { (state S.Store conn.old).in_transaction ≡ false → (state S.Store conn.new).in_transaction ≡ false }
{
    let bytes = order_bytes(alloc, key)?;
    match cell_table::read(conn, kind_of(key), bytes.as_slice())? {
        Some(value) => Ok(Some(cell_under(alloc, key, value.as_slice())?)),
        None => Ok(None),
    }
}

/// The greatest cell of the kind at or below a key, of whatever map.
fn last<S: Alter>(
    conn: &mut Connection<S>,
    alloc: Global,
    key: &CellKey,
) -> Result<Option<Cell>, Refused>
    ensures found { HasCleanDisk (state S.Store conn.new) → IfOk result (λ found. (all : List Entry) → Holds (state S.Store conn.old).now all → IsLastOf all key.now found) }
    ensures same { Rests (state S.Store conn.old) (state S.Store conn.new) }
    ensures mode { (state S.Store conn.old).in_transaction ≡ false → (state S.Store conn.new).in_transaction ≡ false }
{
    let kind = kind_of(key);
    let bytes = order_bytes(alloc, key)?;
    let rows = cell_table::floor(conn, kind, bytes.as_slice())?;
    match rows.as_slice().first() {
        Some(row) => Ok(Some(cell_of(alloc, kind, row)?)),
        None => Ok(None),
    }
}

/// The greatest cell of the kind and the map at or below a key.
pub(crate) fn floor<S: Alter>(
    conn: &mut Connection<S>,
    alloc: Global,
    key: &CellKey,
) -> Result<Option<Cell>, Refused>
    ensures found { HasCleanDisk (state S.Store conn.new) → IfOk result (λ found. (all : List Entry) → Holds (state S.Store conn.old).now all → IsFloorOf all key.now found) }
    ensures cells { HasCleanDisk (state S.Store conn.new) → IfOk result (λ found. (s : Store) → HoldsStore (state S.Store conn.old).now s → IsFloor s key.now found) }
    ensures same { Rests (state S.Store conn.old) (state S.Store conn.new) }
    ensures mode { (state S.Store conn.old).in_transaction ≡ false → (state S.Store conn.new).in_transaction ≡ false }
{
    key.known();
    let found = last(conn, alloc, key)?;
    Ok(within(key, found))
}

/// The first cells of a kind from these order bytes on.
fn page<S: Alter>(
    conn: &mut Connection<S>,
    alloc: Global,
    kind: u32,
    from: &[u8],
    limit: u32,
) -> Result<Vec<Cell>, Refused>
    ensures found { HasCleanDisk (state S.Store conn.new) → IfOk result (λ found. (all : List Entry) → Holds (state S.Store conn.old).now all → ArePageOf all kind from.now limit found.items) }
    ensures same { Rests (state S.Store conn.old) (state S.Store conn.new) }
    ensures mode { (state S.Store conn.old).in_transaction ≡ false → (state S.Store conn.new).in_transaction ≡ false }
{
    let rows = cell_table::scan(conn, kind, from, limit)?;
    cells_of(alloc, kind, rows.as_slice())
}

/// The first cells of the kind at or above a key.
pub(crate) fn scan<S: Alter>(
    conn: &mut Connection<S>,
    alloc: Global,
    from: &CellKey,
    limit: u32,
) -> Result<Vec<Cell>, Refused>
    ensures found { HasCleanDisk (state S.Store conn.new) → IfOk result (λ found. (all : List Entry) → Holds (state S.Store conn.old).now all → ArePageOf all (kind_number from.now) (ordered from.now) limit found.items) }
    ensures cells { HasCleanDisk (state S.Store conn.new) → IfOk result (λ found. (s : Store) → HoldsStore (state S.Store conn.old).now s → IsScan s from.now limit found.items) }
    ensures same { Rests (state S.Store conn.old) (state S.Store conn.new) }
    ensures mode { (state S.Store conn.old).in_transaction ≡ false → (state S.Store conn.new).in_transaction ≡ false }
{
    from.known();
    let bytes = order_bytes(alloc, from)?;
    page(conn, alloc, kind_of(from), bytes.as_slice(), limit)
}

/// The least key of a row of the map at or above this one; with `past`, above it.
pub(crate) fn next_key<S: Alter>(
    conn: &mut Connection<S>,
    alloc: Global,
    map: &Name,
    from: &NormKey,
    past: bool,
) -> Result<Option<NormKey>, Refused>
    ensures found { HasCleanDisk (state S.Store conn.new) → IfOk result (λ found. (all : List Entry) → Holds (state S.Store conn.old).now all → IsNextOf all map.now from.now past found) }
    ensures cells { HasCleanDisk (state S.Store conn.new) → IfOk result (λ found. (s : Store) → HoldsStore (state S.Store conn.old).now s → IsNextKey s.rows map.now from.now past found) }
    ensures same { Rests (state S.Store conn.old) (state S.Store conn.new) }
    ensures mode { (state S.Store conn.old).in_transaction ≡ false → (state S.Store conn.new).in_transaction ≡ false }
{
    map.known();
    let bytes = rows_from(alloc, map, from, past)?;
    let found = page(conn, alloc, 10, bytes.as_slice(), 1)?;
    Ok(first_key(map, found.as_slice()))
}

/// What an edit does to a row.
fn op_of(alloc: Global, edit: &Edit) -> Result<Op, Refused>
    ensures { IfOk result (λ op. IsOpOf op edit.now) }
{
    match edit {
        Edit::Put(cell) => {
            let own = key_of(cell);
            let key = order_bytes(alloc, &own)?;
            let value = Some(write_cell(alloc, cell)?);
            Ok(Op {
                kind: kind_of(&own),
                key,
                value,
            })
        }
        Edit::Delete(key) => Ok(Op {
            kind: kind_of(key),
            key: order_bytes(alloc, key)?,
            value: None,
        }),
    }
}

/// What the edits of a change do to rows, in order.
fn ops_of(alloc: Global, edits: &[Edit]) -> Result<Vec<Op>, Refused>
    ensures { IfOk result (λ ops. AreOpsOf ops.items edits.now) }
{
    let mut ops: Vec<Op> = Vec::new(alloc);
    for edit in edits {
        ops.push(op_of(alloc, edit)?)?;
    }
    Ok(ops)
}

/// Makes a change, in one transaction.
pub(crate) fn commit<S: Alter>(
    conn: &mut Connection<S>,
    alloc: Global,
    change: &Change,
) -> Result<(), Refused>
    ensures made { HasCleanDisk (state S.Store conn.new) → OnOk result ((all : List Entry) → Holds (state S.Store conn.old).now all → (next : List Entry) × AreEdited change.now all next × Holds (state S.Store conn.new).now next) }
    ensures changed { HasCleanDisk (state S.Store conn.new) → OnOk result ((s : Store) → HoldsStore (state S.Store conn.old).now s → HoldsStore (state S.Store conn.new).now (changed s change.now)) }
    ensures unmade { HasCleanDisk (state S.Store conn.new) → IsTrue (state S.Store conn.new).is_open → OnErr result ((state S.Store conn.new).now ≡ (state S.Store conn.old).now) }
    ensures mode { (state S.Store conn.old).in_transaction ≡ false → (state S.Store conn.new).in_transaction ≡ false }
{
    change.known();
    if !conn.is_autocommit() {
        return Err(Refused::Store);
    }
    let ops = ops_of(alloc, change.as_slice())?;
    cell_table::change(conn, ops.as_slice())?;
    Ok(())
}
