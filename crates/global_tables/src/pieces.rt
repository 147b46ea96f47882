//! All cells of a group, scanned in pieces of a bounded size.
ghost use Rattle.std.specs.Prelude.{◌≡◌, ◌++◌, map, IfOk, IsErrOf, Err};
ghost use Rattle.cell_world.specs.Counts.{Rose};
ghost use Rattle.cell_world.specs.Images.{global};
ghost use Rattle.cell_world.specs.Outside.{IfContents, IsLater};
ghost use Rattle.global_tables.specs.Groups.{cells_of};
ghost use Rattle.global_tables.specs.Listing.{IsUpTo, Lists, TakesPiece};

use crate::faults::{StepFault, fault_of};
use crate::groups::Group;
use crate::keys::key_of;
use crate::rows::Row;
use cell_world::cells::{Cell, CellKey, Site};
use cell_world::outside::World;
use std::alloc::Global;

/// How many cells are scanned at once.
const PIECE_SIZE: u32 = 256;

/// Puts what the cells say at the end.
fn push_rows<T: Row>(cells: &[Cell], rows: &mut Vec<T>) -> Result<(), StepFault>
    ensures pushed { IfOk result (λ done. map T.cell_of rows.new.items ≡ map T.cell_of rows.old.items ++ cells.now) }
    ensures memory { result ≡ Err StepFault.Store → ⊥ }
{
    for cell in cells {
        match T::read(cell) {
            None => return Err(StepFault::Memory),
            Some(row) => {
                if rows.push(row).is_err() {
                    return Err(StepFault::Memory);
                }
            }
        }
    }
    Ok(())
}

/// Lists what a piece has of the group. Where all of it is of the group the last cell is left to the next piece,
/// which begins there.
fn take_piece<T: Row>(
    group: &Group,
    found: &[Cell],
    rows: &mut Vec<T>,
) -> Result<Option<CellKey>, StepFault>
    ensures taken { IfOk result (λ next. TakesPiece group.now found.now (map T.cell_of rows.old.items) (map T.cell_of rows.new.items) next) }
    ensures memory { result ≡ Err StepFault.Store → ⊥ }
{
    let count = group.count(found);
    if count < PIECE_SIZE as usize {
        push_rows(&found[..count], rows)?;
        return Ok(None);
    }
    push_rows(&found[..count - 1], rows)?;
    Ok(Some(key_of(&found[count - 1])))
}

/// Lists one more piece, from the key on. `None`: all are listed.
fn list_piece<W: World, T: Row>(
    alloc: Global,
    world: &mut W,
    group: &Group,
    from: &CellKey,
    rows: &mut Vec<T>,
) -> Result<Option<CellKey>, StepFault>
    ensures listed { IfOk result (λ next. IfContents (W.outside world.old).told (λ image. IsUpTo (global image) group.now from.now (map T.cell_of rows.old.items) → Lists (global image) group.now (map T.cell_of rows.new.items) next)) }
    ensures told { (W.outside world.new).told ≡ (W.outside world.old).told }
    ensures later { IsLater (W.outside world.old) (W.outside world.new) }
    ensures cause { IsErrOf result StepFault.Store → Rose ((W.outside world.old).faults_at 0) ((W.outside world.new).faults_at 0) }
{
    match world.scan(alloc, Site::GLOBAL, from, PIECE_SIZE) {
        Ok(found) => take_piece(group, &found, rows),
        Err(error) => Err(fault_of(error)),
    }
}

/// What all cells of a group say, in cell order. `Store`: the store refused. `Memory`: also where a world that tells
/// nothing never came to an end. After an error nothing has changed but counts.
pub fn rows_of<W: World, T: Row>(
    alloc: Global,
    world: &mut W,
    group: &Group,
) -> Result<Vec<T>, StepFault>
    ensures found { IfOk result (λ rows. IfContents (W.outside world.old).told (λ image. map T.cell_of rows.items ≡ cells_of (global image) group.now)) }
    ensures told { (W.outside world.new).told ≡ (W.outside world.old).told }
    ensures later { IsLater (W.outside world.old) (W.outside world.new) }
    ensures cause { IsErrOf result StepFault.Store → Rose ((W.outside world.old).faults_at 0) ((W.outside world.new).faults_at 0) }
{
    let mut rows = Vec::new(alloc);
    let mut from = group.least();
    for _ in 0..u64::MAX {
        match list_piece(alloc, world, group, &from, &mut rows)? {
            None => return Ok(rows),
            Some(next) => from = next,
        }
    }
    Err(StepFault::Memory)
}
