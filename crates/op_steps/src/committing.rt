//! The commit of an operation.
ghost use Rattle.std.specs.Prelude.{◌≡◌, ◌++◌, IfOk, IsErrOf, IsOk, OnOk, option_to_list};
ghost use Rattle.cell_world.specs.Outside.{StoreRoseBy};
ghost use Rattle.cell_world.specs.Sound.{Sound};
ghost use Rattle.cell_world.specs.Spelled.{listed};
ghost use Rattle.cell_world.specs.UnderWay.{IsUnderWay};
ghost use Rattle.image_laws.specs.CommitEdits.{commit_edits, deletes, extra_edits, puts};
ghost use Rattle.op_steps.specs.Advancing.{Commits, sites_with};
ghost use Rattle.op_steps.specs.Passing.{FailsByMemory, Passes};

use crate::commits::commit;
use cell_world::cells::{Cell, CellKey, Site};
use cell_world::changes::Change;
use cell_world::memory::Memory;
use cell_world::operations::{Extra, Op, Piece, Pieces};
use cell_world::outside::World;
use global_tables::faults::StepFault;
use std::alloc::Global;

/// Deletes a mapping, if there is one.
fn delete_piece(change: &mut Change, piece: &Option<Piece>) -> Result<(), Memory>
    ensures { OnOk result (change.new ≡ change.old ++ deletes (option_to_list piece.now)) }
{
    match piece {
        None => Ok(()),
        Some(piece) => {
            change.delete(CellKey::Piece(piece.map, *piece.span.low()))?;
            Ok(())
        }
    }
}

/// Deletes the mappings.
fn delete_pieces(change: &mut Change, pieces: &Pieces) -> Result<(), Memory>
    ensures { OnOk result (change.new ≡ change.old ++ deletes (listed pieces.now)) }
{
    delete_piece(change, &pieces.one)?;
    delete_piece(change, &pieces.two)?;
    Ok(())
}

/// Puts a mapping, if there is one.
fn put_piece(change: &mut Change, piece: &Option<Piece>) -> Result<(), Memory>
    ensures { OnOk result (change.new ≡ change.old ++ puts (option_to_list piece.now)) }
{
    match piece {
        None => Ok(()),
        Some(piece) => {
            change.put(Cell::Piece(*piece))?;
            Ok(())
        }
    }
}

/// Puts the mappings.
fn put_pieces(change: &mut Change, pieces: &Pieces) -> Result<(), Memory>
    ensures { OnOk result (change.new ≡ change.old ++ puts (listed pieces.now)) }
{
    put_piece(change, &pieces.one)?;
    put_piece(change, &pieces.two)?;
    Ok(())
}

/// Puts the job, if one is put.
fn put_extra(change: &mut Change, extra: &Extra) -> Result<(), Memory>
    ensures { OnOk result (change.new ≡ change.old ++ extra_edits extra.now) }
{
    match extra {
        Extra::None => Ok(()),
        Extra::JobPut(job) => {
            change.put(Cell::Job(*job))?;
            Ok(())
        }
        Extra::JobDrop(number) => {
            change.delete(CellKey::Job(*number))?;
            Ok(())
        }
    }
}

/// The change that replaces the old mappings of an operation by the new ones, puts its job and deletes its log row.
fn commit_change(alloc: Global, op: &Op) -> Result<Change, Memory>
    ensures { IfOk result (λ change. change ≡ commit_edits op.now) }
{
    let mut change = Change::empty(alloc);
    delete_pieces(&mut change, &op.olds)?;
    put_pieces(&mut change, &op.news)?;
    put_extra(&mut change, &op.extra)?;
    change.delete(CellKey::Log(op.number))?;
    Ok(change)
}

/// Commits an operation that has all its marks.
pub fn commit_operation<W: World>(alloc: Global, world: &mut W, op: &Op) -> Result<(), StepFault>
    ensures passes { Passes (λ image hs. Sound image → IsUnderWay image op.now (sites_with op.now.news.one op.now.olds.one) → Commits op.now (IsOk result) (FailsByMemory result) image hs) (W.outside world.old) (W.outside world.new) }
    ensures cause { IsErrOf result StepFault.Store → StoreRoseBy 1 (W.outside world.old) (W.outside world.new) }
{
    match commit_change(alloc, op) {
        Ok(change) => commit(alloc, world, Site::GLOBAL, &change),
        Err(Memory) => Err(StepFault::Memory),
    }
}
