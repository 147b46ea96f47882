//! Rows in cell order, found by their keys.
ghost use Rattle.std.specs.Prelude.{◌≡◌, true, length, map, option_map, IfOk, IfErr, OnOk};
ghost use Rattle.std.specs.List.Sorted.{IsSearchInRange};
ghost use Rattle.cell_world.specs.Stores.{Store, IsKeyed, cell_at, own_key, put, delete};
ghost use Rattle.global_tables.specs.declared.groups.Group.{Group};
ghost use Rattle.global_tables.specs.Groups.{is_in, cells_of};
ghost use Rattle.global_tables.specs.Places.{StandsAt, GoesAt};

use crate::rows::Row;
use cell_world::cells::{Cell, CellKey};
use cell_world::memory::Memory;
use std::alloc::Global;

/// Where among rows in cell order the one under the key is (`Ok`), or would be (`Err`).
fn place_of<T: Row>(rows: &[T], key: &CellKey) -> Result<usize, usize>
    ensures bound { IsSearchInRange result (length rows.now) }
    ensures found { IfOk result (StandsAt (map T.cell_of rows.now) key.now) }
    ensures absent { (s : Store) → IsKeyed s → (g : Group) → map T.cell_of rows.now ≡ cells_of s g → IfErr result (GoesAt (map T.cell_of rows.now) key.now) }
{
    rows.binary_search_by_key(key, |row| row.key())
}

/// The row under the key, of the rows of a group in cell order. `None` exactly where none stands under it.
pub fn find_row<T: Row>(rows: &[T], key: &CellKey) -> Option<T>
    ensures { (s : Store) → IsKeyed s → (g : Group) → is_in g key.now ≡ true → map T.cell_of rows.now ≡ cells_of s g → option_map T.cell_of result ≡ cell_at s key.now }
{
    match place_of(rows, key) {
        Ok(at) => Some(rows[at]),
        Err(_) => None,
    }
}

/// The same rows.
pub fn copied<T: Row>(alloc: Global, rows: &[T]) -> Result<Vec<T>, Memory>
    ensures { IfOk result (λ copy. copy.items ≡ rows.now) }
{
    let mut copy = Vec::new(alloc);
    copy.extend_from_slice(rows)?;
    Ok(copy)
}

/// Puts a row in its place among the rows of its group: over the one under its key, or between the others.
fn put_row<T: Row>(rows: &mut Vec<T>, row: T) -> Result<(), Memory>
    ensures { OnOk result ((s : Store) → IsKeyed s → (g : Group) → is_in g (own_key (T.cell_of row)) ≡ true → map T.cell_of rows.old.items ≡ cells_of s g → map T.cell_of rows.new.items ≡ cells_of (put s (T.cell_of row)) g) }
{
    match place_of(rows, &row.key()) {
        Ok(at) => {
            rows[at] = row;
            Ok(())
        }
        Err(at) => {
            rows.insert(at, row)?;
            Ok(())
        }
    }
}

/// Puts what the cell says in its place among the rows of its group. A cell of another kind leaves them.
pub fn put_cell<T: Row>(rows: &mut Vec<T>, cell: &Cell) -> Result<(), Memory>
    ensures { OnOk result ((row : T) → cell.now ≡ T.cell_of row → (s : Store) → IsKeyed s → (g : Group) → is_in g (own_key cell.now) ≡ true → map T.cell_of rows.old.items ≡ cells_of s g → map T.cell_of rows.new.items ≡ cells_of (put s cell.now) g) }
{
    match T::read(cell) {
        None => Ok(()),
        Some(row) => put_row(rows, row),
    }
}

/// Takes the row under the key, if there is one, out of the rows of its group.
pub fn remove_key<T: Row>(rows: &mut Vec<T>, key: &CellKey)
    ensures { (s : Store) → IsKeyed s → (g : Group) → is_in g key.now ≡ true → map T.cell_of rows.old.items ≡ cells_of s g → map T.cell_of rows.new.items ≡ cells_of (delete s key.now) g }
{
    if let Ok(at) = place_of(rows, key) {
        rows.remove(at);
    }
}
