//! Whether a mapping shares a key with a span, by two reads whatever the number of mappings: the greatest mapping at or
//! below the low key, and the first one at or above it.
ghost use Rattle.std.specs.Prelude.{◌≡◌, ◌+◌, ◌≤◌, option_map, slice_get, IfOk, IsErrOf, Err};
ghost use Rattle.cell_world.specs.Counts.{Rose};
ghost use Rattle.cell_world.specs.Images.{global};
ghost use Rattle.cell_world.specs.Outside.{IfContents, IsLater};
ghost use Rattle.cell_world.specs.Sound.{Sound};
ghost use Rattle.cell_world.specs.declared.cells.Cell.TheVariants as cell;
ghost use Rattle.global_tables.specs.Reads.{ReadsOnce};
ghost use Rattle.map_ops.specs.Overlapping.{has_overlap, is_overlapping, IsFirstFrom};

use cell_world::cells::{Cell, CellKey, Site};
use cell_world::names::Name;
use cell_world::operations::Piece;
use cell_world::outside::World;
use cell_world::spans::Span;
use global_tables::faults::{StepFault, fault_of};
use global_tables::reads::floor_row;
use global_tables::rows::Row;
use std::alloc::Global;

/// The mapping that the first of the cells says, if there is one. A cell of another kind is answered as want of memory.
fn first_piece(cells: &[Cell]) -> Result<Option<Piece>, StepFault>
    ensures found { IfOk result (λ piece. slice_get cells.now 0 ≡ option_map cell.Piece piece) }
    ensures memory { result ≡ Err StepFault.Store → ⊥ }
{
    match cells.first() {
        None => Ok(None),
        Some(first) => match Piece::read(first) {
            Some(piece) => Ok(Some(piece)),
            None => Err(StepFault::Memory),
        },
    }
}

/// The first mapping, of whatever map, at or above the key, by one read.
fn first_from<W: World>(
    alloc: Global,
    world: &mut W,
    key: &CellKey,
) -> Result<Option<Piece>, StepFault>
    ensures found { IfOk result (λ piece. IfContents (W.outside world.old).told (λ image. IsFirstFrom (global image) key.now (option_map cell.Piece piece))) }
    ensures same { ReadsOnce (W.outside world.old) (W.outside world.new) }
    ensures cause { IsErrOf result StepFault.Store → Rose ((W.outside world.old).faults_at 0) ((W.outside world.new).faults_at 0) }
{
    match world.scan(alloc, Site::GLOBAL, key, 1) {
        Ok(found) => first_piece(&found),
        Err(error) => Err(fault_of(error)),
    }
}

/// Whether the mapping, if there is one, is of the map and shares a key with the span.
fn is_overlapping(name: &Name, span: &Span, piece: &Option<Piece>) -> bool
    ensures { result ≡ is_overlapping name.now span.now piece.now }
{
    match piece {
        None => false,
        Some(piece) => name.cmp(&piece.map).is_eq() && piece.span.overlaps(span),
    }
}

/// Whether a mapping of the map shares a key with the span. The global store is read twice. `Store`: it refused. After
/// an error nothing has changed but counts.
pub fn has_overlap<W: World>(
    alloc: Global,
    world: &mut W,
    name: &Name,
    span: &Span,
) -> Result<bool, StepFault>
    ensures found { IfOk result (λ found. IfContents (W.outside world.old).told (λ image. Sound image → found ≡ has_overlap (global image).mappings name.now span.now)) }
    ensures reads { (W.outside world.new).global_reads ≤ (W.outside world.old).global_reads + 2 }
    ensures told { (W.outside world.new).told ≡ (W.outside world.old).told }
    ensures later { IsLater (W.outside world.old) (W.outside world.new) }
    ensures cause { IsErrOf result StepFault.Store → Rose ((W.outside world.old).faults_at 0) ((W.outside world.new).faults_at 0) }
{
    let key = CellKey::Piece(*name, *span.low());
    let below = floor_row(alloc, world, Site::GLOBAL, &key)?;
    let first = first_from(alloc, world, &key)?;
    Ok(is_overlapping(name, span, &below) || is_overlapping(name, span, &first))
}
