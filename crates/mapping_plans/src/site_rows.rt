//! Whether rows stand under the keys of a mapping.
ghost use Rattle.std.specs.Prelude.{◌≡◌, ◌+◌, ◌≤◌, IfOk, IfErr, IsErrOf, IsTrue};
ghost use Rattle.cell_world.specs.Outside.{IfContents, IsLater, StoreRoseBy};
ghost use Rattle.cell_world.specs.Spelled.{is_spelled};
ghost use Rattle.map_ops.specs.Planning.{IsLongPlan};
ghost use Rattle.mapping_plans.specs.SiteRows.{HasRowsUnder, IsFault, PlansIfEmpty, is_over};

use crate::exchanges::plan_op;
use cell_world::cells::Cell;
use cell_world::norm_keys::NormKey;
use cell_world::operations::{Op, Piece};
use cell_world::outside::World;
use cell_world::spans::Span;
use global_tables::faults::fault_of;
use map_ops::stops::stop_of;
use plain_model::plans::{Plan, PlanStop};
use plain_model::replies::Refusal;
use std::alloc::Global;

/// Whether there is a key, and the span contains it.
fn is_over(span: &Span, key: &Option<NormKey>) -> bool
    ensures { result ≡ is_over span.now key.now }
{
    match key {
        None => false,
        Some(key) => span.contains(key),
    }
}

/// Whether a row stands under a key of the mapping, by one read of its site: that of the least key with a row from its
/// low key on. `Store`: the site refused. `Memory`: also where the world doesn't know the mapping's location; a core
/// begins over no such store. After an error nothing has changed but counts.
pub fn has_rows<W: World>(alloc: Global, world: &mut W, piece: &Piece) -> Result<bool, PlanStop>
    ensures found { IfOk result (λ has. IfContents (W.outside world.old).told (HasRowsUnder piece.now has)) }
    ensures fault { IfErr result IsFault }
    ensures reads { (W.outside world.new).global_reads ≤ (W.outside world.old).global_reads + 1 }
    ensures told { (W.outside world.new).told ≡ (W.outside world.old).told }
    ensures later { IsLater (W.outside world.old) (W.outside world.new) }
    ensures cause { IsErrOf result PlanStop.Store → StoreRoseBy 1 (W.outside world.old) (W.outside world.new) }
{
    let Some(site) = world.locate(&piece.location) else {
        return Err(PlanStop::Memory);
    };
    match world.next_key(alloc, site, &piece.map, piece.span.low(), false) {
        Ok(found) => Ok(is_over(&piece.span, &found)),
        Err(error) => Err(stop_of(fault_of(error))),
    }
}

/// The plan of an operation on a mapping that nothing but rows may keep from it: refused where a row stands under a key
/// of the mapping, `RowsPresent`. `Memory`: also where its location is unknown or its token is a job's, as in `plan_op`.
pub fn plan_if_empty<W: World>(
    alloc: Global,
    world: &mut W,
    piece: &Piece,
    op: Op,
) -> Result<Plan, PlanStop>
    requires { IsTrue (is_spelled (Cell.Log op)) }
    ensures plans { IfContents (W.outside world.old).told (PlansIfEmpty piece.now op result) }
    ensures long { IsLongPlan result }
    ensures reads { (W.outside world.new).global_reads ≤ (W.outside world.old).global_reads + 1 }
    ensures told { (W.outside world.new).told ≡ (W.outside world.old).told }
    ensures later { IsLater (W.outside world.old) (W.outside world.new) }
    ensures cause { IsErrOf result PlanStop.Store → StoreRoseBy 1 (W.outside world.old) (W.outside world.new) }
{
    match has_rows(alloc, world, piece) {
        Ok(has) => {
            if has {
                Err(PlanStop::Refused(Refusal::RowsPresent))
            } else {
                plan_op(world, piece, op)
            }
        }
        Err(stop) => Err(stop),
    }
}
