//! The changes that the local transactions of an operation make at one site: its local step, its undo and its settling.
ghost use Rattle.std.specs.Prelude.{◌≡◌, ◌≤◌, ◌<◌, ◌+◌, ◌⊎◌, ◌++◌, IfOk, IsErrOf, Err, option_to_list};
ghost use Rattle.cell_world.specs.Counts.{Rose};
ghost use Rattle.cell_world.specs.Images.{global};
ghost use Rattle.cell_world.specs.Keys.{same};
ghost use Rattle.cell_world.specs.Outside.{IfContents, IsLater, IsSite};
ghost use Rattle.cell_world.specs.Sound.{HasLog, locals_at};
ghost use Rattle.cell_world.specs.Texts.{Text};
ghost use Rattle.image_laws.specs.RowEdits.{news_edits};
ghost use Rattle.local_tables.specs.Altering.{IsSiteOf, foreign_marks, if_any, to_mark, to_settle, to_undo};

use crate::altering::Work;
use crate::scanning::altered_rows;
use crate::sweeping::{settled, swept};
use cell_world::cells::{Cell, LocalRow, Mark, Site};
use cell_world::changes::Change;
use cell_world::locations::Location;
use cell_world::operations::{Op, Piece};
use cell_world::outside::World;
use global_tables::faults::StepFault;
use std::alloc::Global;

/// Whether the location is the one of the site.
fn is_here<W: World>(world: &W, site: Site, at: &Location) -> bool
    ensures { (location : Text) → IsSiteOf (W.outside world.now) site location → result ≡ same at.now location }
{
    match world.locate(at) {
        None => false,
        Some(found) => found.0 == site.0,
    }
}

/// Puts the New row of a mapping of the operation of this number, if there is one and it is at the site.
fn put_new<W: World>(
    world: &W,
    site: Site,
    number: u64,
    new: &Option<Piece>,
    change: &mut Change,
) -> Result<(), StepFault>
    ensures put { IfOk result (λ done. (location : Text) → IsSiteOf (W.outside world.now) site location → change.new ≡ change.old ++ news_edits number location (option_to_list new.now)) }
    ensures memory { IsErrOf result StepFault.Store → ⊥ }
{
    if let Some(piece) = new {
        if is_here(world, site, &piece.location) {
            let row = LocalRow {
                map: piece.map,
                span: piece.span,
                number,
                status: piece.status,
                mark: Mark::New,
            };
            if change.put(Cell::Local(row)).is_err() {
                return Err(StepFault::Memory);
            }
        }
    }
    Ok(())
}

/// The change, if it does anything.
fn if_any(change: Change) -> Option<Change>
    ensures { result ≡ if_any change }
{
    if change.as_slice().is_empty() {
        return None;
    }
    Some(change)
}

/// The local step of a logged operation at a site, as a change that isn't made yet. Of the rows of its map that overlap
/// its hull those that count become Old of it, and the others go; then its new mappings at the site get their New rows.
/// `None`: there is nothing to do.
///
/// The site is a shard's. Its rows of the map are scanned; besides them the log alone is read, at most once for each row of
/// the hull with a mark of another operation. `Store`: the shard's store or the global one refused. `Memory`: also where
/// a world that tells nothing never came to an end. After an error nothing has changed but counts.
pub fn mark_change<W: World>(
    alloc: Global,
    world: &mut W,
    site: Site,
    op: &Op,
) -> Result<Option<Change>, StepFault>
    requires site { IsSite (W.outside world.old) site }
    requires shard { 0 < site.0 }
    ensures change { IfOk result (λ change. IfContents (W.outside world.old).told (λ image. HasLog (global image).log op.now → (location : Text) → IsSiteOf (W.outside world.old) site location → change ≡ if_any (to_mark (global image).log op.now location (locals_at image location)))) }
    ensures reads { IfContents (W.outside world.old).told (λ image. (location : Text) → IsSiteOf (W.outside world.old) site location → (W.outside world.new).global_reads ≤ (W.outside world.old).global_reads + foreign_marks op.now (locals_at image location)) }
    ensures told { (W.outside world.new).told ≡ (W.outside world.old).told }
    ensures later { IsLater (W.outside world.old) (W.outside world.new) }
    ensures cause { IsErrOf result StepFault.Store → Rose ((W.outside world.old).faults_at site.0) ((W.outside world.new).faults_at site.0) ⊎ Rose ((W.outside world.old).faults_at 0) ((W.outside world.new).faults_at 0) }
{
    let rows = altered_rows(alloc, world, site, Work::ToMark, op)?;
    let mut change = swept(alloc, world, op, Mark::Old(op.number), &rows)?;
    put_new(world, site, op.number, &op.news.one, &mut change)?;
    put_new(world, site, op.number, &op.news.two, &mut change)?;
    Ok(if_any(change))
}

/// The undo of a logged operation at a site, as a change that isn't made yet. Of the rows of its map that overlap its hull
/// and aren't Plain those that count become Plain, and the others go. `None`: there is nothing to do, since all of them
/// are Plain.
///
/// The site is a shard's. Its rows of the map are scanned; besides them the log alone is read, at most once for each row of
/// the hull with a mark of another operation. `Store`: the shard's store or the global one refused. `Memory`: also where
/// a world that tells nothing never came to an end. After an error nothing has changed but counts.
pub fn undo_change<W: World>(
    alloc: Global,
    world: &mut W,
    site: Site,
    op: &Op,
) -> Result<Option<Change>, StepFault>
    requires site { IsSite (W.outside world.old) site }
    requires shard { 0 < site.0 }
    ensures change { IfOk result (λ change. IfContents (W.outside world.old).told (λ image. HasLog (global image).log op.now → (location : Text) → IsSiteOf (W.outside world.old) site location → change ≡ if_any (to_undo (global image).log op.now (locals_at image location)))) }
    ensures reads { IfContents (W.outside world.old).told (λ image. (location : Text) → IsSiteOf (W.outside world.old) site location → (W.outside world.new).global_reads ≤ (W.outside world.old).global_reads + foreign_marks op.now (locals_at image location)) }
    ensures told { (W.outside world.new).told ≡ (W.outside world.old).told }
    ensures later { IsLater (W.outside world.old) (W.outside world.new) }
    ensures cause { IsErrOf result StepFault.Store → Rose ((W.outside world.old).faults_at site.0) ((W.outside world.new).faults_at site.0) ⊎ Rose ((W.outside world.old).faults_at 0) ((W.outside world.new).faults_at 0) }
{
    let rows = altered_rows(alloc, world, site, Work::ToUndo, op)?;
    let change = swept(alloc, world, op, Mark::Plain, &rows)?;
    Ok(if_any(change))
}

/// The settling of a committed operation at a site, as a change that isn't made yet. Its Old rows there go, and its New
/// ones become Plain; no other row is touched. `None`: there is nothing to do, since no row there has a mark of it.
///
/// The site is a shard's. All its local rows are scanned, of whatever map, so that afterwards no mark of the operation is
/// left there, whatever was there before. The global store isn't read. `Store`: the shard's store refused. `Memory`: also
/// where a world that tells nothing never came to an end. After an error nothing has changed but counts.
pub fn settle_change<W: World>(
    alloc: Global,
    world: &mut W,
    site: Site,
    op: &Op,
) -> Result<Option<Change>, StepFault>
    requires site { IsSite (W.outside world.old) site }
    requires shard { 0 < site.0 }
    ensures change { IfOk result (λ change. IfContents (W.outside world.old).told (λ image. (location : Text) → IsSiteOf (W.outside world.old) site location → change ≡ if_any (to_settle op.now (locals_at image location)))) }
    ensures reads { (W.outside world.new).global_reads ≡ (W.outside world.old).global_reads }
    ensures told { (W.outside world.new).told ≡ (W.outside world.old).told }
    ensures later { IsLater (W.outside world.old) (W.outside world.new) }
    ensures cause { IsErrOf result StepFault.Store → Rose ((W.outside world.old).faults_at site.0) ((W.outside world.new).faults_at site.0) }
{
    let rows = altered_rows(alloc, world, site, Work::ToSettle, op)?;
    let change = settled(alloc, op.number, &rows)?;
    Ok(if_any(change))
}
