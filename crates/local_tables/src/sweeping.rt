//! The edits that a local transaction makes of the rows that it alters.
ghost use Rattle.std.specs.Prelude.{◌≡◌, ◌≤◌, ◌+◌, ◌++◌, true, length, filter, IfOk, IsErrOf, Some, None, Err, IsTrue, if◌then◌else◌};
ghost use Rattle.cell_world.specs.Counts.{Rose};
ghost use Rattle.cell_world.specs.Images.{global};
ghost use Rattle.cell_world.specs.Meaning.{counts, is_logged};
ghost use Rattle.cell_world.specs.Outside.{IfContents, IsLater};
ghost use Rattle.cell_world.specs.Sweep.{marked_as, reaches, sweep};
ghost use Rattle.image_laws.specs.LocalSteps.{settle};
ghost use Rattle.image_laws.specs.RowEdits.{edit_to, edits_by};
ghost use Rattle.local_tables.specs.Altering.{has_mark_of, is_foreign};
ghost use Rattle.local_tables.specs.Sweeping.{AllReach, AllOwn, foreign_reads};

use crate::altering::{has_mark_of, is_new};
use crate::judging::row_counts;
use cell_world::cells::{Cell, LocalRow, Mark};
use cell_world::changes::Change;
use cell_world::operations::Op;
use cell_world::outside::World;
use global_tables::faults::StepFault;
use global_tables::rows::Row;
use std::alloc::Global;

/// Puts the row with this mark in its place, or takes it away.
fn push_edit(row: &LocalRow, mark: Mark, stays: bool, change: &mut Change) -> Result<(), StepFault>
    ensures pushed { IfOk result (λ done. change.new ≡ change.old ++ edit_to row.now (if stays then Some (marked_as mark row.now) else None)) }
    ensures memory { result ≡ Err StepFault.Store → ⊥ }
{
    let done = if stays {
        change.put(Cell::Local(LocalRow {
            map: row.map,
            span: row.span,
            number: row.number,
            status: row.status,
            mark,
        }))
    } else {
        change.delete(row.key())
    };
    if done.is_err() {
        return Err(StepFault::Memory);
    }
    Ok(())
}

/// Whether a row counts while the operation of this number is logged. A Plain row and one with a mark of that operation
/// cost no read, another one at most one read of the log.
fn counts_beside<W: World>(
    alloc: Global,
    world: &mut W,
    number: u64,
    row: &LocalRow,
) -> Result<bool, StepFault>
    ensures found { IfOk result (λ is. IfContents (W.outside world.old).told (λ image. is_logged (global image).log number ≡ true → is ≡ counts (global image).log row.now)) }
    ensures reads { (W.outside world.new).global_reads ≤ (W.outside world.old).global_reads + foreign_reads number row.now }
    ensures told { (W.outside world.new).told ≡ (W.outside world.old).told }
    ensures later { IsLater (W.outside world.old) (W.outside world.new) }
    ensures cause { IsErrOf result StepFault.Store → Rose ((W.outside world.old).faults_at 0) ((W.outside world.new).faults_at 0) }
{
    if has_mark_of(number, row) {
        return Ok(!is_new(row.mark));
    }
    row_counts(alloc, world, row)
}

/// Sweeps a row of the hull: it gets the mark where it counts, and goes where it doesn't.
fn sweep_row<W: World>(
    alloc: Global,
    world: &mut W,
    op: &Op,
    mark: Mark,
    row: &LocalRow,
    change: &mut Change,
) -> Result<(), StepFault>
    ensures swept { IfOk result (λ done. IfContents (W.outside world.old).told (λ image. is_logged (global image).log op.now.number ≡ true → IsTrue (reaches op.now row.now) → change.new ≡ change.old ++ edit_to row.now (sweep (global image).log op.now mark row.now))) }
    ensures reads { (W.outside world.new).global_reads ≤ (W.outside world.old).global_reads + foreign_reads op.now.number row.now }
    ensures told { (W.outside world.new).told ≡ (W.outside world.old).told }
    ensures later { IsLater (W.outside world.old) (W.outside world.new) }
    ensures cause { IsErrOf result StepFault.Store → Rose ((W.outside world.old).faults_at 0) ((W.outside world.new).faults_at 0) }
{
    let stays = counts_beside(alloc, world, op.number, row)?;
    push_edit(row, mark, stays, change)
}

/// The sweep of these rows of the hull, as a change. At most one read of the log for each mark of another operation.
pub fn swept<W: World>(
    alloc: Global,
    world: &mut W,
    op: &Op,
    mark: Mark,
    rows: &[LocalRow],
) -> Result<Change, StepFault>
    ensures swept { IfOk result (λ change. IfContents (W.outside world.old).told (λ image. is_logged (global image).log op.now.number ≡ true → AllReach op.now rows.now → change ≡ edits_by (sweep (global image).log op.now mark) rows.now)) }
    ensures reads { (W.outside world.new).global_reads ≤ (W.outside world.old).global_reads + length (filter (is_foreign op.now.number) rows.now) }
    ensures told { (W.outside world.new).told ≡ (W.outside world.old).told }
    ensures later { IsLater (W.outside world.old) (W.outside world.new) }
    ensures cause { IsErrOf result StepFault.Store → Rose ((W.outside world.old).faults_at 0) ((W.outside world.new).faults_at 0) }
{
    let mut change = Change::empty(alloc);
    for row in rows {
        sweep_row(alloc, world, op, mark, row, &mut change)?;
    }
    Ok(change)
}

/// The settling of these rows, which have marks of the operation of this number, as a change.
pub fn settled(alloc: Global, number: u64, rows: &[LocalRow]) -> Result<Change, StepFault>
    ensures settled { IfOk result (λ change. AllOwn number rows.now → change ≡ edits_by (settle number) rows.now) }
    ensures memory { IsErrOf result StepFault.Store → ⊥ }
{
    let mut change = Change::empty(alloc);
    for row in rows {
        push_edit(row, Mark::Plain, is_new(row.mark), &mut change)?;
    }
    Ok(change)
}
