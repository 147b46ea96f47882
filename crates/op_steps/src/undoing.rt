//! The undo of operations.
ghost use Rattle.std.specs.Prelude.{◌≡◌, ◌∷◌, [], IfOk, IsErrOf, IsOk};
ghost use Rattle.cell_world.specs.Images.{global};
ghost use Rattle.cell_world.specs.Outside.{StoreRoseBy};
ghost use Rattle.cell_world.specs.Sound.{Sound, HasLog, locals_at};
ghost use Rattle.cell_world.specs.Sweep.{IsSweptPlain};
ghost use Rattle.image_laws.specs.LocalSteps.{IsUndone};
ghost use Rattle.op_steps.specs.Passing.{Passes};
ghost use Rattle.op_steps.specs.Undoing.{DropsRow, IsOwnAt, IsOwnSite, IsPlainAt, PlainsSites, Recovers, Undoes, UndoesList};

use crate::commits::commit;
use cell_world::cells::{CellKey, Site};
use cell_world::changes::{Change, Edit};
use cell_world::locations::Location;
use cell_world::memory::Memory;
use cell_world::operations::{Op, Piece, Pieces};
use cell_world::outside::World;
use global_tables::faults::StepFault;
use global_tables::lists::log_rows;
use local_tables::changes::undo_change;
use std::alloc::Global;

/// Takes the marks of a logged operation back at one site, where there are any.
fn undo_at<W: World>(
    alloc: Global,
    world: &mut W,
    op: &Op,
    location: &Location,
) -> Result<(), StepFault>
    ensures passes { Passes (λ image hs. Sound image → HasLog (global image).log op.now → IsOwnSite op.now location.now image → PlainsSites op.now (IsOk result) (λ after. IsSweptPlain op.now (locals_at after location.now)) image hs) (W.outside world.old) (W.outside world.new) }
    ensures cause { IsErrOf result StepFault.Store → StoreRoseBy 1 (W.outside world.old) (W.outside world.new) }
{
    let Some(site) = world.locate(location) else {
        return Err(StepFault::Memory);
    };
    match undo_change(alloc, world, site, op) {
        Ok(None) => Ok(()),
        Ok(Some(change)) => commit(alloc, world, site, &change),
        Err(fault) => Err(fault),
    }
}

/// So at the site of a mapping, if there is one, but for the site of this other mapping, where it is done.
fn undo_beside<W: World>(
    alloc: Global,
    world: &mut W,
    op: &Op,
    piece: &Option<Piece>,
    done: &Option<Piece>,
) -> Result<(), StepFault>
    ensures passes { Passes (λ image hs. Sound image → HasLog (global image).log op.now → IsOwnAt op.now piece.now image → IsPlainAt op.now done.now image → PlainsSites op.now (IsOk result) (IsPlainAt op.now piece.now) image hs) (W.outside world.old) (W.outside world.new) }
    ensures cause { IsErrOf result StepFault.Store → StoreRoseBy 1 (W.outside world.old) (W.outside world.new) }
{
    match (piece, done) {
        (None, _) => Ok(()),
        (Some(piece), None) => undo_at(alloc, world, op, &piece.location),
        (Some(piece), Some(done)) => {
            if piece.location.cmp(&done.location).is_eq() {
                Ok(())
            } else {
                undo_at(alloc, world, op, &piece.location)
            }
        }
    }
}

/// So at the sites of two mappings.
fn undo_both<W: World>(
    alloc: Global,
    world: &mut W,
    op: &Op,
    pieces: &Pieces,
    done: &Option<Piece>,
) -> Result<(), StepFault>
    ensures passes { Passes (λ image hs. Sound image → HasLog (global image).log op.now → IsOwnAt op.now pieces.now.one image → IsOwnAt op.now pieces.now.two image → IsPlainAt op.now done.now image →
        PlainsSites op.now (IsOk result) (λ after. IsPlainAt op.now pieces.now.one after × IsPlainAt op.now pieces.now.two after) image hs) (W.outside world.old) (W.outside world.new) }
    ensures cause { IsErrOf result StepFault.Store → StoreRoseBy 1 (W.outside world.old) (W.outside world.new) }
{
    match undo_beside(alloc, world, op, &pieces.one, done) {
        Ok(()) => undo_beside(alloc, world, op, &pieces.two, &pieces.one),
        Err(fault) => Err(fault),
    }
}

/// So at all its sites.
fn undo_sites<W: World>(alloc: Global, world: &mut W, op: &Op) -> Result<(), StepFault>
    ensures passes { Passes (λ image hs. Sound image → HasLog (global image).log op.now → PlainsSites op.now (IsOk result) (λ after. IsUndone after op.now) image hs) (W.outside world.old) (W.outside world.new) }
    ensures cause { IsErrOf result StepFault.Store → StoreRoseBy 1 (W.outside world.old) (W.outside world.new) }
{
    match undo_both(alloc, world, op, &op.olds, &None) {
        Ok(()) => undo_both(alloc, world, op, &op.news, &op.olds.one),
        Err(fault) => Err(fault),
    }
}

/// The change that deletes the log row of the operation of this number.
fn drop_change(alloc: Global, number: u64) -> Result<Change, Memory>
    ensures { IfOk result (λ change. change ≡ Edit.Delete (CellKey.Log number) ∷ []) }
{
    let mut change = Change::empty(alloc);
    change.delete(CellKey::Log(number))?;
    Ok(change)
}

/// Deletes the log row of an operation that is undone at all its sites.
fn drop_log_row<W: World>(alloc: Global, world: &mut W, op: &Op) -> Result<(), StepFault>
    ensures passes { Passes (λ image hs. HasLog (global image).log op.now → IsUndone image op.now → DropsRow op.now (IsOk result) image hs) (W.outside world.old) (W.outside world.new) }
    ensures cause { IsErrOf result StepFault.Store → StoreRoseBy 1 (W.outside world.old) (W.outside world.new) }
{
    match drop_change(alloc, op.number) {
        Ok(change) => commit(alloc, world, Site::GLOBAL, &change),
        Err(Memory) => Err(StepFault::Memory),
    }
}

/// Undoes one logged operation: its marks are taken back at each of its sites, and then its log row goes. Its log cell stands and is this operation.
///
/// What the stores stand for stays, whatever is answered. `Store`: a store refused. After an error the operation may be undone in part, and after `Store` wholly: look at the log first, and where its log row still stands, to undo it once more does the rest.
pub fn undo<W: World>(alloc: Global, world: &mut W, op: &Op) -> Result<(), StepFault>
    ensures passes { Passes (Undoes op.now (IsOk result)) (W.outside world.old) (W.outside world.new) }
    ensures cause { IsErrOf result StepFault.Store → StoreRoseBy 1 (W.outside world.old) (W.outside world.new) }
{
    match undo_sites(alloc, world, op) {
        Ok(()) => drop_log_row(alloc, world, op),
        Err(fault) => Err(fault),
    }
}

/// Undoes these logged operations one after another.
pub fn undo_all<W: World>(alloc: Global, world: &mut W, ops: &[Op]) -> Result<(), StepFault>
    ensures passes { Passes (UndoesList ops.now (IsOk result)) (W.outside world.old) (W.outside world.new) }
    ensures cause { IsErrOf result StepFault.Store → StoreRoseBy 1 (W.outside world.old) (W.outside world.new) }
{
    for op in ops {
        match undo(alloc, world, op) {
            Ok(()) => {}
            Err(fault) => return Err(fault),
        }
    }
    Ok(())
}

/// Undoes all logged operations, one after another.
///
/// What the stores stand for stays, whatever is answered. `Store`: a store refused. After an error some may be undone, and one in part; to recover once more does the rest.
pub fn recover<W: World>(alloc: Global, world: &mut W) -> Result<(), StepFault>
    ensures passes { Passes (Recovers (IsOk result)) (W.outside world.old) (W.outside world.new) }
    ensures cause { IsErrOf result StepFault.Store → StoreRoseBy 1 (W.outside world.old) (W.outside world.new) }
{
    match log_rows(alloc, world) {
        Ok(ops) => undo_all(alloc, world, &ops),
        Err(fault) => Err(fault),
    }
}
