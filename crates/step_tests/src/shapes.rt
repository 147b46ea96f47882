//! Every shape of an operation, on one span, one after the other: what stands after each, and after each crash. On a range map
//! all of them, on a list map all but the split and the merge.
use crate::adds::settled;
use crate::parts::{Parts, make_parts, operation};
use crate::stores::logged;
use crate::worlds::{standing, world_of};
use cell_world::cells::MapKind;
use cell_world::outside::World;
use op_steps::beginning::{Begun, begin};
use op_steps::live::LiveList;
use op_steps::undoing::recover;
use std::alloc::Global;
use std::test::Fail;
use world_memory::world::MemoryWorld;

/// Whether the operation of this place is one for maps of this kind.
pub(crate) fn is_of(kind: MapKind, step: u8) -> bool {
    match kind {
        MapKind::Range => true,
        MapKind::List => step != 1 && step != 2,
    }
}

/// How many transactions it makes up to its commit: the log row, one at each site, the commit.
fn commits_at(step: u8) -> u64 {
    if step == 4 { 4 } else { 3 }
}

/// What stands before the operation of this place, as `standing` shows it.
fn before(step: u8) -> &'static [u8] {
    match step {
        1 | 3 => b"wa+",
        2 => b"la+ua+",
        4 => b"wa-",
        5 | 7 => b"wb-",
        6 => b"wb+",
        _ => b"",
    }
}

// ---- what is done

/// Makes the operation of this place, from its beginning to Settled.
pub(crate) fn make(
    alloc: Global,
    world: &mut MemoryWorld,
    parts: &Parts,
    step: u8,
) -> Result<(), Fail> {
    let op = operation(parts, step);
    match begin(alloc, world, &op, &LiveList::new()) {
        Ok(Begun::Going(op, stage)) => {
            let _last = settled(alloc, world, &op, stage)?;
            Ok(())
        }
        Ok(Begun::Pending(_)) => Err(Fail::from("pending")),
        Err(_) => Err(Fail::from("a fault")),
    }
}

/// Whether a crash at this moment recovers to an empty log and these mappings.
fn recovers_to(
    alloc: Global,
    world: &MemoryWorld,
    parts: &Parts,
    moment: u64,
    wanted: &[u8],
) -> Result<bool, Fail> {
    if moment > world.moment() {
        return Err(Fail::from("no moment"));
    }
    let mut crashed = world.crashed(alloc, moment)?;
    recover(alloc, &mut crashed)?;
    let empty = logged(alloc, &mut crashed)? == 0;
    Ok(empty && standing(alloc, &mut crashed, parts)?.as_slice() == wanted)
}

/// Makes the operation of this place, if it is one for this map. Whether it found what stands before it, and leaves no log row.
fn is_made(alloc: Global, world: &mut MemoryWorld, parts: &Parts, step: u8) -> Result<bool, Fail> {
    if !is_of(parts.kind, step) {
        return Ok(true);
    }
    let stood = standing(alloc, world, parts)?;
    make(alloc, world, parts, step)?;
    Ok(stood.as_slice() == before(step) && logged(alloc, world)? == 0)
}

#[test]
fn each_shape_is_made(rt: HostRuntime) -> Result<(), Fail> {
    for kind in [MapKind::Range, MapKind::List] {
        let parts = make_parts(kind)?;
        let mut world = world_of(rt.alloc(), &parts)?;
        for step in 0..8u8 {
            assert!(rt;
                is_made(rt.alloc(), &mut world, &parts, step)?,
                "operation {step}"
            );
        }
        assert!(rt; standing(rt.alloc(), &mut world, &parts)?.as_slice() == before(8));
    }
    Ok(())
}

/// Whether each crash within the operation of this place, the first after `begun` transactions, recovers to what stood before it or after it.
fn crashes_recover(
    alloc: Global,
    world: &MemoryWorld,
    parts: &Parts,
    step: u8,
    begun: u64,
) -> Result<bool, Fail> {
    let commit = begun.saturating_add(commits_at(step));
    for moment in begun..=world.moment() {
        let wanted = if moment < commit {
            before(step)
        } else {
            before(step.saturating_add(1))
        };
        if !recovers_to(alloc, world, parts, moment, wanted)? {
            return Ok(false);
        }
    }
    Ok(true)
}

/// Makes the operation of this place, if it is one for this map. Whether each crash within it recovers.
fn recovers(alloc: Global, world: &mut MemoryWorld, parts: &Parts, step: u8) -> Result<bool, Fail> {
    if !is_of(parts.kind, step) {
        return Ok(true);
    }
    let begun = world.moment();
    make(alloc, world, parts, step)?;
    let commit = begun.saturating_add(commits_at(step));
    Ok(world.moment() >= commit && crashes_recover(alloc, world, parts, step, begun)?)
}

#[test]
fn each_crash_recovers(rt: HostRuntime) -> Result<(), Fail> {
    for kind in [MapKind::Range, MapKind::List] {
        let parts = make_parts(kind)?;
        let mut world = world_of(rt.alloc(), &parts)?;
        for step in 0..8u8 {
            assert!(rt;
                recovers(rt.alloc(), &mut world, &parts, step)?,
                "operation {step}"
            );
        }
    }
    Ok(())
}
