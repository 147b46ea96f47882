//! Rows that earlier operations left, rows of other operations, of another map and beside the hull, and when there is nothing to do.
use crate::lines::{Line, MAX, NEW, POINT, Shape, are, exchange, live, off, on};
use crate::worlds::{Call, after, is_something, made, put_log, put_row, table, world_of};
use std::alloc::Global;
use std::test::Fail;
use world_memory::world::MemoryWorld;

/// Operation 1, which adds [4, 8).
fn adds() -> Shape {
    exchange(4, 8, None, live(4, 8))
}

/// In the hull, reaching into it from below and beyond, and beside it: an Old row of operation 3 and a New one of
/// operation 5.
fn leftovers() -> [Line; 6] {
    [
        on(0, 4, 0, 3),
        on(0, 5, 5, NEW),
        on(2, 9, 0, 3),
        on(7, 9, 5, NEW),
        on(8, 9, 0, 3),
        on(8, MAX, 5, NEW),
    ]
}

#[test]
fn leftovers_are_swept_in_the_hull_alone(rt: HostRuntime) -> Result<(), Fail> {
    let marked = after(rt.alloc(), &leftovers(), Call::Mark, &adds())?;
    let want = [
        on(0, 4, 0, 3),
        on(0, 5, 5, 1),
        on(4, 8, 1, NEW),
        on(7, 9, 5, 1),
        on(8, 9, 0, 3),
        on(8, MAX, 5, NEW),
    ];
    assert!(rt; are(&marked, &want));
    Ok(())
}

#[test]
fn undo_sweeps_leftovers_too(rt: HostRuntime) -> Result<(), Fail> {
    let undone = after(rt.alloc(), &leftovers(), Call::Undo, &adds())?;
    let want = [
        on(0, 4, 0, 3),
        on(0, 5, 5, 0),
        on(7, 9, 5, 0),
        on(8, 9, 0, 3),
        on(8, MAX, 5, NEW),
    ];
    assert!(rt; are(&undone, &want));
    Ok(())
}

#[test]
fn marks_of_logged_operations_count(rt: HostRuntime) -> Result<(), Fail> {
    let mut world = world_of(rt.alloc(), &leftovers())?;
    put_log(rt.alloc(), &mut world, 3)?;
    put_log(rt.alloc(), &mut world, 5)?;
    made(rt.alloc(), &mut world, Call::Undo, &adds())?;
    let want = [
        on(0, 4, 0, 3),
        on(2, 9, 0, 0),
        on(8, 9, 0, 3),
        on(8, MAX, 5, NEW),
    ];
    assert!(rt; are(&table(rt.alloc(), &mut world)?, &want));
    Ok(())
}

#[test]
fn settling_touches_its_own_marks_alone(rt: HostRuntime) -> Result<(), Fail> {
    let rows = [
        off(0, 4, 0, 3),
        on(4, 8, 0, 1),
        on(4, 8, 1, NEW),
        on(5, 6, 5, NEW),
        on(6, 7, 1, 3),
        on(8, MAX, 1, 0),
    ];
    let settled = after(rt.alloc(), &rows, Call::Settle, &adds())?;
    let want = [
        off(0, 4, 0, 3),
        on(4, 8, 1, 0),
        on(5, 6, 5, NEW),
        on(6, 7, 1, 3),
        on(8, MAX, 1, 0),
    ];
    assert!(rt; are(&settled, &want));
    Ok(())
}

#[test]
fn nothing_is_to_be_done(rt: HostRuntime) -> Result<(), Fail> {
    let deletes = exchange(4, 8, live(4, 8), None);
    let plain = [on(0, 4, 0, 3), on(4, 8, 0, 0)];
    assert!(rt; !is_something(rt.alloc(), &plain, Call::Undo, &deletes)?);
    assert!(rt; !is_something(rt.alloc(), &plain, Call::Settle, &deletes)?);
    assert!(rt; !is_something(rt.alloc(), &[on(4, 8, 0, 1)], Call::Mark, &deletes)?);
    assert!(rt; is_something(rt.alloc(), &plain, Call::Mark, &deletes)?);
    Ok(())
}

#[test]
fn rows_of_another_map_stay(rt: HostRuntime) -> Result<(), Fail> {
    let mut world = world_of(rt.alloc(), &[on(4, 8, 0, 3)])?;
    put_row(rt.alloc(), &mut world, b"mm", &on(4, 8, 0, 3))?;
    made(rt.alloc(), &mut world, Call::Mark, &adds())?;
    assert!(rt;
        are(
            &table(rt.alloc(), &mut world)?,
            &[on(4, 8, 1, NEW), on(4, 8, 0, 3)]
        )
    );
    Ok(())
}

/// 400 points, each Old of operation 1, made by operations 0 and 1.
fn many(alloc: Global) -> Result<MemoryWorld, Fail> {
    let mut world = world_of(alloc, &[])?;
    for low in 0..200u8 {
        put_row(alloc, &mut world, b"m", &on(low, POINT, 0, 1))?;
        put_row(alloc, &mut world, b"m", &on(low, POINT, 1, 1))?;
    }
    Ok(world)
}

#[test]
fn many_rows_are_undone_in_pieces(rt: HostRuntime) -> Result<(), Fail> {
    let mut world = many(rt.alloc())?;
    let deletes = exchange(0, MAX, live(0, MAX), None);
    assert!(rt; made(rt.alloc(), &mut world, Call::Undo, &deletes)?);
    assert!(rt; !made(rt.alloc(), &mut world, Call::Undo, &deletes)?);
    assert!(rt; table(rt.alloc(), &mut world)?.len() == 400);
    Ok(())
}
