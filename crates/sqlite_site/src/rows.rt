//! The cells of rows.
ghost use Rattle.std.specs.Prelude.{◌≡◌, IfOk, OnOk};
ghost use Rattle.cell_world.specs.Orders.{kind_number};
ghost use Rattle.cell_world.specs.Stores.{own_key};
ghost use Rattle.record_form.specs.OrderBytes.{ordered};
ghost use Rattle.sqlite_value.specs.declared.value.Value.TheVariants.{Blob};
ghost use Rattle.sqlite_value.specs.Order.{column};
ghost use Rattle.sqlite_site.specs.Entries.{IsCellOf, AreCellsOf};

use crate::keys::{key_of, kind_of};
use crate::refused::Refused;
use cell_world::cells::Cell;
use record_form::ordering::order_bytes;
use record_form::reading::read_cell;
use sqlite::Row;
use sqlite::types::ValueRef;
use std::alloc::Global;

/// The bytes in a column.
fn bytes_at(row: &Row, at: usize) -> Result<&[u8], Refused>
    ensures { IfOk result (λ bytes. column row.now at ≡ Blob bytes.now) }
{
    match row.get_ref(at)? {
        ValueRef::Blob(bytes) => Ok(bytes),
        _ => Err(Refused::Store),
    }
}

/// Refuses a cell that doesn't stand under this kind and key.
fn check_key(alloc: Global, kind: u32, key: &[u8], cell: &Cell) -> Result<(), Refused>
    ensures { OnOk result ((kind ≡ kind_number (own_key cell.now)) × (key.now ≡ ordered (own_key cell.now))) }
{
    let own = key_of(cell);
    let bytes = order_bytes(alloc, &own)?;
    if kind_of(&own) != kind || bytes.as_slice() != key {
        return Err(Refused::Store);
    }
    Ok(())
}

/// The cell of a row of this kind, of which the key and the value are given.
pub(crate) fn cell_of(alloc: Global, kind: u32, row: &Row) -> Result<Cell, Refused>
    ensures { IfOk result (λ c. IsCellOf kind row.now c) }
{
    let value = bytes_at(row, 1)?;
    let cell = read_cell(alloc, value)?;
    let key = bytes_at(row, 0)?;
    check_key(alloc, kind, key, &cell)?;
    Ok(cell)
}

/// The cells of the rows, in order.
pub(crate) fn cells_of(alloc: Global, kind: u32, rows: &[Row]) -> Result<Vec<Cell>, Refused>
    ensures { IfOk result (λ cells. AreCellsOf kind rows.now cells.items) }
{
    let mut cells: Vec<Cell> = Vec::new(alloc);
    for row in rows {
        cells.push(cell_of(alloc, kind, row)?)?;
    }
    Ok(cells)
}
