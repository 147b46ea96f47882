//! The settling of a committed operation.
ghost use Rattle.std.specs.Prelude.{◌≡◌, None, IfOk, IfSome, IsErrOf, IsOk, IsTrue};
ghost use Rattle.std.specs.FinMap as map;
ghost use Rattle.cell_world.specs.Counts.{Rose};
ghost use Rattle.cell_world.specs.Images.{global};
ghost use Rattle.cell_world.specs.Keys.{is_among};
ghost use Rattle.cell_world.specs.Lists.{IsOneOf};
ghost use Rattle.cell_world.specs.Operations as operation;
ghost use Rattle.cell_world.specs.Outside.{IfContents, IsLater, StoreRoseBy};
ghost use Rattle.cell_world.specs.Plain.{is_attached};
ghost use Rattle.cell_world.specs.Sound.{Sound};
ghost use Rattle.cell_world.specs.Texts.{Text};
ghost use Rattle.op_log.specs.Sites.{AreAtMostTwo};
ghost use Rattle.op_steps.specs.Advancing.{Settles, SettlesBoth, SettlesIf};
ghost use Rattle.op_steps.specs.Passing.{Passes};

use crate::commits::commit;
use cell_world::cells::SiteState;
use cell_world::locations::Location;
use cell_world::operations::Op;
use cell_world::outside::World;
use global_tables::faults::StepFault;
use global_tables::lookups::site_state;
use local_tables::changes::settle_change;
use op_log::sites::sites_of;
use std::alloc::Global;

/// Whether the site is attached, by one read.
fn is_attached_now<W: World>(alloc: Global, world: &mut W, at: &Location) -> Result<bool, StepFault>
    ensures found { IfOk result (λ attached. IfContents (W.outside world.old).told (λ image. attached ≡ is_attached (map.get (global image).away at.now))) }
    ensures told { (W.outside world.new).told ≡ (W.outside world.old).told }
    ensures later { IsLater (W.outside world.old) (W.outside world.new) }
    ensures cause { IsErrOf result StepFault.Store → Rose ((W.outside world.old).faults_at 0) ((W.outside world.new).faults_at 0) }
{
    match site_state(alloc, world, at) {
        Ok(state) => Ok(state == SiteState::Attached),
        Err(fault) => Err(fault),
    }
}

/// Settles an operation at an attached site, where it has marks.
fn settle_attached<W: World>(
    alloc: Global,
    world: &mut W,
    op: &Op,
    location: &Location,
) -> Result<(), StepFault>
    ensures passes { Passes (λ image hs. IsTrue (is_attached (map.get (global image).away location.now)) → Sound image → IsOneOf (operation.sites_of op.now) location.now → IsTrue (is_among image.locations location.now) → map.get (global image).log op.now.number ≡ None → Settles op.now location.now (IsOk result) image hs) (W.outside world.old) (W.outside world.new) }
    ensures cause { IsErrOf result StepFault.Store → StoreRoseBy 1 (W.outside world.old) (W.outside world.new) }
{
    let Some(site) = world.locate(location) else {
        return Err(StepFault::Memory);
    };
    match settle_change(alloc, world, site, op) {
        Ok(None) => Ok(()),
        Ok(Some(change)) => commit(alloc, world, site, &change),
        Err(fault) => Err(fault),
    }
}

/// Settles an operation at a site, if it is attached.
fn settle_at<W: World>(
    alloc: Global,
    world: &mut W,
    op: &Op,
    location: &Location,
) -> Result<(), StepFault>
    ensures passes { Passes (λ image hs. Sound image → IsOneOf (operation.sites_of op.now) location.now → IsTrue (is_among image.locations location.now) → map.get (global image).log op.now.number ≡ None → Settles op.now location.now (IsOk result) image hs) (W.outside world.old) (W.outside world.new) }
    ensures cause { IsErrOf result StepFault.Store → StoreRoseBy 1 (W.outside world.old) (W.outside world.new) }
{
    match is_attached_now(alloc, world, location) {
        Ok(attached) => {
            if attached {
                settle_attached(alloc, world, op, location)
            } else {
                Ok(())
            }
        }
        Err(fault) => Err(fault),
    }
}

/// So at a site, if there is one.
fn settle_if<W: World>(
    alloc: Global,
    world: &mut W,
    op: &Op,
    location: &Option<Location>,
) -> Result<(), StepFault>
    ensures passes { Passes (λ image hs. Sound image → IfSome location.now (λ l. IsOneOf (operation.sites_of op.now) l × IsTrue (is_among image.locations l)) → map.get (global image).log op.now.number ≡ None → SettlesIf op.now location.now (IsOk result) image hs) (W.outside world.old) (W.outside world.new) }
    ensures cause { IsErrOf result StepFault.Store → StoreRoseBy 1 (W.outside world.old) (W.outside world.new) }
{
    match location {
        None => Ok(()),
        Some(location) => settle_at(alloc, world, op, location),
    }
}

/// Settles a committed operation at its sites, passing over one that isn't attached.
pub fn settle_sites<W: World>(alloc: Global, world: &mut W, op: &Op) -> Result<(), StepFault>
    ensures passes { Passes (λ image hs. Sound image → AreAtMostTwo (operation.sites_of op.now) → ((location : Text) → IsOneOf (operation.sites_of op.now) location → IsTrue (is_among image.locations location)) → map.get (global image).log op.now.number ≡ None → SettlesBoth op.now (IsOk result) image hs) (W.outside world.old) (W.outside world.new) }
    ensures cause { IsErrOf result StepFault.Store → StoreRoseBy 1 (W.outside world.old) (W.outside world.new) }
{
    let sites = sites_of(op);
    match settle_if(alloc, world, op, &sites.one) {
        Ok(()) => settle_if(alloc, world, op, &sites.two),
        Err(fault) => Err(fault),
    }
}
