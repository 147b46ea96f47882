//! Adds that go on, are pending, are undone, and crash.
use crate::stores::{add, logged, mappings, store};
use cell_world::operations::{Op, StageName};
use cell_world::outside::World;
use global_tables::lists::log_rows;
use op_steps::advancing::advance;
use op_steps::beginning::{Begun, begin};
use op_steps::live::LiveList;
use op_steps::stages::Stage;
use op_steps::undoing::{recover, undo};
use std::alloc::Global;
use std::test::Fail;
use world_memory::world::MemoryWorld;

/// Leads an operation that begun on to Settled.
pub(crate) fn settled(
    alloc: Global,
    world: &mut MemoryWorld,
    op: &Op,
    stage: Stage,
) -> Result<Stage, Fail> {
    let source = advance(alloc, world, op, stage)?;
    let target = advance(alloc, world, op, source)?;
    let committed = advance(alloc, world, op, target)?;
    Ok(advance(alloc, world, op, committed)?)
}

/// Begins the add of a range, and goes no further. Its number; none where a live operation is in the way.
fn begun(
    alloc: Global,
    world: &mut MemoryWorld,
    low: u32,
    high: u32,
    live: &LiveList,
) -> Result<Option<u64>, Fail> {
    match add(low, high) {
        Ok(op) => match begin(alloc, world, &op, live) {
            Ok(Begun::Going(op, _stage)) => Ok(Some(op.number)),
            Ok(Begun::Pending(_)) => Ok(None),
            Err(_) => Err(Fail::from("a fault")),
        },
        Err(fail) => Err(fail),
    }
}

/// Undoes the logged operation of this number.
fn undone(alloc: Global, world: &mut MemoryWorld, number: u64) -> Result<(), Fail> {
    let ops = log_rows(alloc, world)?;
    for op in ops.as_slice() {
        if op.number == number {
            undo(alloc, world, op)?;
        }
    }
    Ok(())
}

/// Begins the add of a range, undoes another operation, and leads the add on to Settled. Its number.
fn made_beside(
    alloc: Global,
    world: &mut MemoryWorld,
    low: u32,
    high: u32,
    other: u64,
) -> Result<u64, Fail> {
    match add(low, high) {
        Ok(op) => match begin(alloc, world, &op, &LiveList::new()) {
            Ok(Begun::Going(op, stage)) => {
                undone(alloc, world, other)?;
                let last = settled(alloc, world, &op, stage)?;
                if last.name() == StageName::Settled {
                    Ok(op.number)
                } else {
                    Err(Fail::from("not settled"))
                }
            }
            Ok(Begun::Pending(_)) => Err(Fail::from("pending")),
            Err(_) => Err(Fail::from("a fault")),
        },
        Err(fail) => Err(fail),
    }
}

#[test]
fn an_add_comes_to_its_end(rt: HostRuntime) -> Result<(), Fail> {
    let mut world = store(rt.alloc())?;
    assert!(rt; made_beside(rt.alloc(), &mut world, 0, 10, 0)? == 1);
    assert!(rt; logged(rt.alloc(), &mut world)? == 0);
    assert!(rt; mappings(rt.alloc(), &mut world)? == 1);
    Ok(())
}

#[test]
fn two_side_by_side_and_one_is_undone(rt: HostRuntime) -> Result<(), Fail> {
    let mut world = store(rt.alloc())?;
    let live = LiveList::new();
    assert!(rt; begun(rt.alloc(), &mut world, 0, 10, &live)? == Some(1));
    assert!(rt; logged(rt.alloc(), &mut world)? == 1);
    assert!(rt; made_beside(rt.alloc(), &mut world, 20, 30, 1)? == 2);
    assert!(rt; logged(rt.alloc(), &mut world)? == 0);
    assert!(rt; mappings(rt.alloc(), &mut world)? == 1);
    Ok(())
}

#[test]
fn a_live_operation_is_in_the_way_and_an_abandoned_one_is_undone(
    rt: HostRuntime,
) -> Result<(), Fail> {
    let mut world = store(rt.alloc())?;
    let mut live = LiveList::new();
    assert!(rt; begun(rt.alloc(), &mut world, 0, 10, &live)? == Some(1));
    live.add(1);
    assert!(rt; begun(rt.alloc(), &mut world, 9, 20, &live)?.is_none());
    assert!(rt; begun(rt.alloc(), &mut world, 10, 20, &live)? == Some(2));
    live.remove(1);
    assert!(rt; begun(rt.alloc(), &mut world, 5, 6, &live)? == Some(3));
    // the operations 2 and 3
    assert!(rt; logged(rt.alloc(), &mut world)? == 2);
    Ok(())
}

/// How many mappings stand once it is recovered, and nothing is logged.
fn recovered(alloc: Global, world: &mut MemoryWorld) -> Result<usize, Fail> {
    recover(alloc, world)?;
    if logged(alloc, world)? != 0 {
        return Err(Fail::from("logged"));
    }
    mappings(alloc, world)
}

#[test]
fn each_crash_image_recovers(rt: HostRuntime) -> Result<(), Fail> {
    let mut world = store(rt.alloc())?;
    assert!(rt; made_beside(rt.alloc(), &mut world, 0, 10, 0)? == 1);
    let end = world.moment();
    // the map, the log row, the row at the shard, the commit, the settling
    assert!(rt; end == 5);
    for moment in 0..=end {
        if moment <= world.moment() {
            let mut crashed = world.crashed(rt.alloc(), moment)?;
            let stands = recovered(rt.alloc(), &mut crashed)?;
            assert!(rt; (stands == 1) == (moment >= 4), "at {moment}");
        }
    }
    Ok(())
}
