//! The rows of a site that a local transaction alters, scanned in pieces of a bounded size.
ghost use Rattle.std.specs.Prelude.{◌≡◌, ◌<◌, ◌++◌, ◌∷◌, [], IfOk, IsErrOf, Err};
ghost use Rattle.cell_world.specs.Counts.{Rose};
ghost use Rattle.cell_world.specs.Outside.{IsLater, IsSite, OfStore};
ghost use Rattle.cell_world.specs.declared.cells.Cell.TheVariants as cell;
ghost use Rattle.local_tables.specs.Altering.{altered};
ghost use Rattle.local_tables.specs.Scanning.{LeadsOn, IsUpTo, Lists, TakesRows, altered_in};

use crate::altering::Work;
use cell_world::cells::{Cell, CellKey, LocalRow, Site};
use cell_world::operations::Op;
use cell_world::outside::World;
use global_tables::faults::{StepFault, fault_of};
use global_tables::rows::Row;
use std::alloc::Global;

/// How many cells are scanned at once.
const PIECE_SIZE: u32 = 256;

/// Puts what the cell says at the end.
fn push_read<T: Row>(cell: &Cell, rows: &mut Vec<T>) -> Result<(), StepFault>
    ensures pushed { IfOk result (λ done. (row : T) × (cell.now ≡ T.cell_of row) × (rows.new.items ≡ rows.old.items ++ row ∷ [])) }
    ensures memory { result ≡ Err StepFault.Store → ⊥ }
{
    match T::read(cell) {
        None => Err(StepFault::Memory),
        Some(row) => {
            if rows.push(row).is_err() {
                return Err(StepFault::Memory);
            }
            Ok(())
        }
    }
}

/// Puts the row of the cell at the end, if it is altered.
fn push_row(work: Work, op: &Op, cell: &Cell, rows: &mut Vec<LocalRow>) -> Result<(), StepFault>
    ensures pushed { IfOk result (λ done. rows.new.items ≡ rows.old.items ++ altered_in work op.now (cell.now ∷ [])) }
    ensures memory { result ≡ Err StepFault.Store → ⊥ }
{
    match cell {
        Cell::Local(row) => {
            if work.alters(op, row) {
                return push_read(cell, rows);
            }
            Ok(())
        }
        _ => Err(StepFault::Memory),
    }
}

/// Puts those of all these cells at the end.
fn push_rows(work: Work, op: &Op, cells: &[Cell], rows: &mut Vec<LocalRow>) -> Result<(), StepFault>
    ensures pushed { IfOk result (λ done. rows.new.items ≡ rows.old.items ++ altered_in work op.now cells.now) }
    ensures memory { result ≡ Err StepFault.Store → ⊥ }
{
    for cell in cells {
        push_row(work, op, cell, rows)?;
    }
    Ok(())
}

/// The key from which on the next piece is scanned, after one that ends with this cell. `None`: no altered row is there.
fn next_from(work: Work, op: &Op, last: &Cell) -> Result<Option<CellKey>, StepFault>
    ensures next { IfOk result (λ next. (row : LocalRow) × (last.now ≡ cell.Local row) × LeadsOn work op.now row next) }
    ensures memory { result ≡ Err StepFault.Store → ⊥ }
{
    match LocalRow::read(last) {
        None => Err(StepFault::Memory),
        Some(row) => {
            if work.is_past(op, &row) {
                return Ok(None);
            }
            Ok(Some(row.key()))
        }
    }
}

/// Lists the altered rows of a piece. The last cell of a full piece is left to the next one, which begins there.
fn take_piece(
    work: Work,
    op: &Op,
    found: &[Cell],
    rows: &mut Vec<LocalRow>,
) -> Result<Option<CellKey>, StepFault>
    ensures taken { IfOk result (λ next. TakesRows work op.now found.now rows.old.items rows.new.items next) }
    ensures memory { result ≡ Err StepFault.Store → ⊥ }
{
    let count = found.len();
    if count < PIECE_SIZE as usize {
        push_rows(work, op, found, rows)?;
        return Ok(None);
    }
    push_rows(work, op, &found[..count - 1], rows)?;
    next_from(work, op, &found[count - 1])
}

/// Lists one more piece, from the key on. `None`: all are listed.
fn list_piece<W: World>(
    alloc: Global,
    world: &mut W,
    site: Site,
    work: Work,
    op: &Op,
    from: &CellKey,
    rows: &mut Vec<LocalRow>,
) -> Result<Option<CellKey>, StepFault>
    requires site { IsSite (W.outside world.old) site }
    requires shard { 0 < site.0 }
    ensures listed { IfOk result (λ next. OfStore (W.outside world.old) site (λ s. IsUpTo work op.now s.locals from.now rows.old.items → Lists work op.now s.locals rows.new.items next)) }
    ensures reads { (W.outside world.new).global_reads ≡ (W.outside world.old).global_reads }
    ensures told { (W.outside world.new).told ≡ (W.outside world.old).told }
    ensures later { IsLater (W.outside world.old) (W.outside world.new) }
    ensures cause { IsErrOf result StepFault.Store → Rose ((W.outside world.old).faults_at site.0) ((W.outside world.new).faults_at site.0) }
{
    match world.scan(alloc, site, from, PIECE_SIZE) {
        Ok(found) => take_piece(work, op, &found, rows),
        Err(error) => Err(fault_of(error)),
    }
}

/// All rows of a shard that the transaction alters, in key order. The global store isn't read. `Store`: the shard's
/// store refused. `Memory`: also where a world that tells nothing never came to an end. After an error nothing has
/// changed but counts.
pub fn altered_rows<W: World>(
    alloc: Global,
    world: &mut W,
    site: Site,
    work: Work,
    op: &Op,
) -> Result<Vec<LocalRow>, StepFault>
    requires site { IsSite (W.outside world.old) site }
    requires shard { 0 < site.0 }
    ensures found { IfOk result (λ rows. OfStore (W.outside world.old) site (λ s. rows.items ≡ altered work op.now s.locals)) }
    ensures reads { (W.outside world.new).global_reads ≡ (W.outside world.old).global_reads }
    ensures told { (W.outside world.new).told ≡ (W.outside world.old).told }
    ensures later { IsLater (W.outside world.old) (W.outside world.new) }
    ensures cause { IsErrOf result StepFault.Store → Rose ((W.outside world.old).faults_at site.0) ((W.outside world.new).faults_at site.0) }
{
    let mut rows = Vec::new(alloc);
    let mut from = work.first_key(op);
    for _ in 0..u64::MAX {
        match list_piece(alloc, world, site, work, op, &from, &mut rows)? {
            None => return Ok(rows),
            Some(next) => from = next,
        }
    }
    Err(StepFault::Memory)
}
