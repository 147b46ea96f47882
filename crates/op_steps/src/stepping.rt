//! The local steps of an operation.
ghost use Rattle.std.specs.Prelude.{◌≡◌, ◌∷◌, List, IsErrOf, IsOk, option_to_list};
ghost use Rattle.cell_world.specs.Lists.{IsOneOf};
ghost use Rattle.cell_world.specs.Operations.{locations_of};
ghost use Rattle.cell_world.specs.Outside.{StoreRoseBy};
ghost use Rattle.cell_world.specs.Sound.{Sound};
ghost use Rattle.cell_world.specs.Texts.{Text};
ghost use Rattle.cell_world.specs.UnderWay.{IsUnderWay};
ghost use Rattle.op_steps.specs.Advancing.{Marks, sites_with};
ghost use Rattle.op_steps.specs.Passing.{FailsByMemory, Passes};
ghost use Rattle.op_steps.specs.Undoing.{IsOwnAt, IsOwnSite};

use crate::commits::commit;
use cell_world::locations::Location;
use cell_world::operations::{Op, Piece};
use cell_world::outside::World;
use global_tables::faults::StepFault;
use local_tables::changes::mark_change;
use std::alloc::Global;

/// Makes the local step of a logged operation at one site.
fn mark_at<W: World>(
    alloc: Global,
    world: &mut W,
    op: &Op,
    location: &Location,
) -> Result<(), StepFault>
    ensures passes { Passes (λ image hs. (sites : List Text) → Sound image → IsUnderWay image op.now sites → IsOwnSite op.now location.now image → (IsOneOf sites location.now → ⊥) → Marks op.now (location.now ∷ sites) (IsOk result) (FailsByMemory result) image hs) (W.outside world.old) (W.outside world.new) }
    ensures cause { IsErrOf result StepFault.Store → StoreRoseBy 1 (W.outside world.old) (W.outside world.new) }
{
    let Some(site) = world.locate(location) else {
        return Err(StepFault::Memory);
    };
    match mark_change(alloc, world, site, op) {
        Ok(None) => Ok(()),
        Ok(Some(change)) => commit(alloc, world, site, &change),
        Err(fault) => Err(fault),
    }
}

/// So at the site of a mapping, if there is one, but for the site of this other mapping, where it is done.
pub fn mark_beside<W: World>(
    alloc: Global,
    world: &mut W,
    op: &Op,
    piece: &Option<Piece>,
    done: &Option<Piece>,
) -> Result<(), StepFault>
    ensures passes { Passes (λ image hs. Sound image → IsUnderWay image op.now (locations_of (option_to_list done.now)) → IsOwnAt op.now piece.now image → Marks op.now (sites_with piece.now done.now) (IsOk result) (FailsByMemory result) image hs) (W.outside world.old) (W.outside world.new) }
    ensures cause { IsErrOf result StepFault.Store → StoreRoseBy 1 (W.outside world.old) (W.outside world.new) }
{
    match (piece, done) {
        (None, _) => Ok(()),
        (Some(piece), None) => mark_at(alloc, world, op, &piece.location),
        (Some(piece), Some(done)) => {
            if piece.location.cmp(&done.location).is_eq() {
                Ok(())
            } else {
                mark_at(alloc, world, op, &piece.location)
            }
        }
    }
}
