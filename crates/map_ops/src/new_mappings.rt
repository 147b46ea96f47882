//! What all commands that add a mapping have in common: the refusals of its site and its span, and the operation.
#![tactic(auto, unfolding(plain_model::specs::Refusing::refusal))]

ghost use Rattle.std.specs.Prelude.{◌≡◌, ◌+◌, ◌≤◌, true, IfSome, IfOk, IsErrOf};
ghost use Rattle.cell_world.specs.Counts.{Rose};
ghost use Rattle.cell_world.specs.Images.{global};
ghost use Rattle.cell_world.specs.Outside.{IfContents, IsLater};
ghost use Rattle.cell_world.specs.Plain.{Connections};
ghost use Rattle.global_tables.specs.Known.{known_of};
ghost use Rattle.plain_model.specs.Refusing.{first_refusal};
ghost use Rattle.plain_model.specs.ShortCommands.{is_short_refusal, standing_with};
ghost use Rattle.map_ops.specs.Adding.{add_op, site_checks, PlansNew, RefusesNew};
ghost use Rattle.map_ops.specs.Planning.{IsLongPlan};

use crate::overlapping::has_overlap;
use crate::refusals::{first_of, is_detached, is_location, is_suspect};
use crate::stops::stop_of;
use cell_world::cells::Status;
use cell_world::locations::Location;
use cell_world::names::Name;
use cell_world::operations::{Extra, Op, Piece, Pieces};
use cell_world::outside::World;
use cell_world::spans::Span;
use global_tables::faults::StepFault;
use global_tables::known::KnownTables;
use plain_model::plans::{Plan, PlanStop};
use plain_model::replies::Refusal;
use std::alloc::Global;

/// The refusal of the site of a new mapping, if one holds: the world doesn't know it, it is no shard of the map, or it
/// isn't attached.
fn site_refusal<W: World>(
    world: &W,
    known: &KnownTables,
    name: &Name,
    at: &Location,
) -> Option<Refusal>
    ensures first { IfContents (W.outside world.now).told (λ image. known.now ≡ known_of (global image) → (connections : Connections) → result ≡ first_refusal (site_checks (standing_with image connections) name.now at.now)) }
    ensures short { IfSome result (λ refusal. is_short_refusal refusal ≡ true) }
{
    first_of(&[
        (!is_location(world, at), Refusal::NoLocation),
        (!known.is_shard(name, at), Refusal::NotAShard),
        (is_detached(known, at), Refusal::Detached),
        (is_suspect(known, at), Refusal::Unresolved),
    ])
}

/// The refusal of the site or of the span of a new mapping, if one holds. The global store is read, twice at most, where
/// none of the site does. `Store`: it refused. After an error nothing has changed but counts.
fn new_refusal<W: World>(
    alloc: Global,
    world: &mut W,
    known: &KnownTables,
    name: &Name,
    span: &Span,
    at: &Location,
) -> Result<Option<Refusal>, StepFault>
    ensures refuses { IfOk result (λ refused. IfContents (W.outside world.old).told (RefusesNew known.now name.now span.now at.now refused)) }
    ensures short { IfOk result (λ refused. IfSome refused (λ refusal. is_short_refusal refusal ≡ true)) }
    ensures reads { (W.outside world.new).global_reads ≤ (W.outside world.old).global_reads + 2 }
    ensures told { (W.outside world.new).told ≡ (W.outside world.old).told }
    ensures later { IsLater (W.outside world.old) (W.outside world.new) }
    ensures cause { IsErrOf result StepFault.Store → Rose ((W.outside world.old).faults_at 0) ((W.outside world.new).faults_at 0) }
{
    let early = site_refusal(world, known, name, at);
    if early.is_some() {
        return Ok(early);
    }
    let overlaps = has_overlap(alloc, world, name, span)?;
    Ok(first_of(&[(overlaps, Refusal::Overlap)]))
}

/// The operation that adds a mapping over the span at the location, without a number yet.
fn add_op(name: Name, span: &Span, at: Location) -> Op
    ensures { result ≡ add_op name span.now at }
{
    Op {
        number: 0,
        map: name,
        hull: *span,
        olds: Pieces {
            one: None,
            two: None,
        },
        news: Pieces {
            one: Some(Piece {
                map: name,
                span: *span,
                location: at,
                status: Status::Online,
                token: None,
            }),
            two: None,
        },
        extra: Extra::None,
    }
}

/// The plan of a new mapping over a span that is of the map's kind and key type: refused, or the operation that adds it.
pub fn plan_new<W: World>(
    alloc: Global,
    world: &mut W,
    known: &KnownTables,
    name: Name,
    span: &Span,
    at: Location,
) -> Result<Plan, PlanStop>
    ensures plans { IfContents (W.outside world.old).told (PlansNew known.now name span.now at result) }
    ensures long { IsLongPlan result }
    ensures reads { (W.outside world.new).global_reads ≤ (W.outside world.old).global_reads + 2 }
    ensures told { (W.outside world.new).told ≡ (W.outside world.old).told }
    ensures later { IsLater (W.outside world.old) (W.outside world.new) }
    ensures cause { IsErrOf result PlanStop.Store → Rose ((W.outside world.old).faults_at 0) ((W.outside world.new).faults_at 0) }
{
    match new_refusal(alloc, world, known, &name, span, &at) {
        Ok(Some(refusal)) => Err(PlanStop::Refused(refusal)),
        Ok(None) => Ok(Plan::Long(add_op(name, span, at))),
        Err(fault) => Err(stop_of(fault)),
    }
}
