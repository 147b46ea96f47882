//! Rows that operations left which are gone: at both sites of a move, and where a logged add begins anew.
use crate::parts::{
    Parts, across, lower, make_parts, offline_here, operation, outer, outer_there, whole,
};
use crate::stages::goes_on;
use crate::worlds::{put_row, shown, standing, world_of};
use cell_world::cells::{Cell, Counters, LocalRow, MapKind, Mark, Site, Status};
use cell_world::changes::Change;
use cell_world::outside::World;
use cell_world::spans::Span;
use op_steps::beginning::{Begun, begin};
use op_steps::live::LiveList;
use op_steps::undoing::recover;
use std::alloc::Global;
use std::test::Fail;
use world_memory::world::MemoryWorld;

/// A row of the map.
fn row(parts: &Parts, span: Span, number: u64, status: Status, mark: Mark) -> LocalRow {
    LocalRow {
        map: parts.map,
        span,
        number,
        status,
        mark,
    }
}

/// The global cells: the next operation has number 3, the whole range is offline at the first location, and what is beyond it at the second one.
fn put_mappings(alloc: Global, world: &mut MemoryWorld, parts: &Parts) -> Result<(), Fail> {
    let mut change = Change::empty(alloc);
    change.put(Cell::Counter(Counters {
        operation: 3,
        job: 1,
    }))?;
    change.put(Cell::Piece(offline_here(parts)))?;
    change.put(Cell::Piece(outer_there(parts)))?;
    world.commit(alloc, Site::GLOBAL, &change)?;
    Ok(())
}

/// The rows of the mappings are New of operations that are gone; at the second location rows stand besides that are Old of one, in the hull of a move of the whole range, reaching into it, and beyond it.
fn left(alloc: Global, parts: &Parts) -> Result<MemoryWorld, Fail> {
    let mut world = world_of(alloc, parts)?;
    put_mappings(alloc, &mut world, parts)?;
    let old = Mark::Old(2);
    let here = row(parts, whole(parts), 2, Status::Offline, Mark::New);
    put_row(alloc, &mut world, &parts.here, here)?;
    for span in [lower(parts), across(parts), outer(parts)] {
        let there = row(parts, span, 1, Status::Offline, old);
        put_row(alloc, &mut world, &parts.there, there)?;
    }
    let beyond = row(parts, outer(parts), 2, Status::Offline, Mark::New);
    put_row(alloc, &mut world, &parts.there, beyond)?;
    Ok(world)
}

/// Begins the operation of this place, and goes no further.
fn begins(alloc: Global, world: &mut MemoryWorld, parts: &Parts, step: u8) -> Result<(), Fail> {
    match begin(alloc, world, &operation(parts, step), &LiveList::new()) {
        Ok(Begun::Going(_op, _stage)) => Ok(()),
        Ok(Begun::Pending(_)) => Err(Fail::from("pending")),
        Err(_) => Err(Fail::from("a fault")),
    }
}

/// Moves the whole range to the second location. Whether the table of the move among leftovers says what stands after each stage.
fn moves(alloc: Global, world: &mut MemoryWorld, parts: &Parts) -> Result<bool, Fail> {
    match begin(alloc, world, &operation(parts, 4), &LiveList::new()) {
        Ok(Begun::Going(op, stage)) => goes_on(alloc, world, parts, &op, stage, 8),
        Ok(Begun::Pending(_)) => Err(Fail::from("pending")),
        Err(_) => Err(Fail::from("a fault")),
    }
}

/// The log and the rows once a crash at this moment is recovered.
fn recovered(
    alloc: Global,
    world: &MemoryWorld,
    parts: &Parts,
    moment: u64,
) -> Result<Vec<u8>, Fail> {
    if moment > world.moment() {
        return Err(Fail::from("no moment"));
    }
    let mut crashed = world.crashed(alloc, moment)?;
    recover(alloc, &mut crashed)?;
    shown(alloc, &mut crashed, parts, 3)
}

#[test]
fn leftovers_in_the_hull_of_a_move_are_swept_at_both_sites(rt: HostRuntime) -> Result<(), Fail> {
    let parts = make_parts(MapKind::Range)?;
    let mut world = left(rt.alloc(), &parts)?;
    let start = world.moment();
    assert!(rt; moves(rt.alloc(), &mut world, &parts)?);
    // the log row, the one site, the other one
    for done in 1..=3u64 {
        let after = recovered(rt.alloc(), &world, &parts, start.saturating_add(done))?;
        assert!(rt;
            after.as_slice() == b"- a w-. b y-O y-N".as_slice(),
            "after {done}"
        );
    }
    Ok(())
}

/// No mapping stands; an add of the whole range is logged as operation 3, and over its keys a row is online that operation 2 was to replace, which is gone.
fn add_over_a_leftover(alloc: Global, parts: &Parts) -> Result<MemoryWorld, Fail> {
    let mut world = world_of(alloc, parts)?;
    let mut change = Change::empty(alloc);
    change.put(Cell::Counter(Counters {
        operation: 3,
        job: 1,
    }))?;
    world.commit(alloc, Site::GLOBAL, &change)?;
    begins(alloc, &mut world, parts, 0)?;
    let online = row(parts, whole(parts), 1, Status::Online, Mark::Old(2));
    put_row(alloc, &mut world, &parts.here, online)?;
    Ok(world)
}

/// Without the log row the stores would not be sound while the online row stands, since nobody owns its keys: it goes before the log row does.
#[test]
fn an_online_leftover_goes_with_the_logged_add(rt: HostRuntime) -> Result<(), Fail> {
    for kind in [MapKind::Range, MapKind::List] {
        let parts = make_parts(kind)?;
        let mut world = add_over_a_leftover(rt.alloc(), &parts)?;
        assert!(rt;
            shown(rt.alloc(), &mut world, &parts, 3)?.as_slice() == b"L a w+O b".as_slice()
        );
        recover(rt.alloc(), &mut world)?;
        assert!(rt; shown(rt.alloc(), &mut world, &parts, 3)?.as_slice() == b"- a b".as_slice());
        assert!(rt; standing(rt.alloc(), &mut world, &parts)?.is_empty());
    }
    Ok(())
}
