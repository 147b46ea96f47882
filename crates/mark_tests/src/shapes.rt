//! Each shape of an operation: the rows of a site when it is marked, and from there when it is undone or settled.
use crate::lines::{Line, MAX, NEW, POINT, Shape, are, away, exchange, idle, live, off, on};
use crate::worlds::{Call, after};
use std::alloc::Global;
use std::test::Fail;

/// Whether marking leads from the rows before to the marked ones, undo from there back to those before, and settling to
/// the settled ones.
fn goes(
    alloc: Global,
    shape: &Shape,
    before: &[Line],
    marked: &[Line],
    settled: &[Line],
) -> Result<bool, Fail> {
    let mark = after(alloc, before, Call::Mark, shape)?;
    let undo = after(alloc, marked, Call::Undo, shape)?;
    let settle = after(alloc, marked, Call::Settle, shape)?;
    Ok(are(&mark, marked) && are(&undo, before) && are(&settle, settled))
}

#[test]
fn add(rt: HostRuntime) -> Result<(), Fail> {
    let adds = exchange(4, 8, None, live(4, 8));
    let before = [on(0, 4, 0, 0), on(8, MAX, 0, 0)];
    let marked = [on(0, 4, 0, 0), on(4, 8, 1, NEW), on(8, MAX, 0, 0)];
    let settled = [on(0, 4, 0, 0), on(4, 8, 1, 0), on(8, MAX, 0, 0)];
    assert!(rt; goes(rt.alloc(), &adds, &before, &marked, &settled)?);
    Ok(())
}

#[test]
fn delete(rt: HostRuntime) -> Result<(), Fail> {
    let deletes = exchange(4, 8, idle(4, 8), None);
    let before = [on(0, 4, 0, 0), off(4, 8, 0, 0), on(8, MAX, 0, 0)];
    let marked = [on(0, 4, 0, 0), off(4, 8, 0, 1), on(8, MAX, 0, 0)];
    assert!(rt;
        goes(
            rt.alloc(),
            &deletes,
            &before,
            &marked,
            &[on(0, 4, 0, 0), on(8, MAX, 0, 0)]
        )?
    );
    Ok(())
}

#[test]
fn offline(rt: HostRuntime) -> Result<(), Fail> {
    let ends = exchange(4, 8, live(4, 8), idle(4, 8));
    let marked = [on(4, 8, 0, 1), off(4, 8, 1, NEW)];
    assert!(rt;
        goes(
            rt.alloc(),
            &ends,
            &[on(4, 8, 0, 0)],
            &marked,
            &[off(4, 8, 1, 0)]
        )?
    );
    Ok(())
}

#[test]
fn online(rt: HostRuntime) -> Result<(), Fail> {
    let begins = exchange(4, MAX, idle(4, MAX), live(4, MAX));
    let marked = [off(4, MAX, 0, 1), on(4, MAX, 1, NEW)];
    assert!(rt;
        goes(
            rt.alloc(),
            &begins,
            &[off(4, MAX, 0, 0)],
            &marked,
            &[on(4, MAX, 1, 0)]
        )?
    );
    Ok(())
}

#[test]
fn move_from_here(rt: HostRuntime) -> Result<(), Fail> {
    let moves = exchange(4, 8, idle(4, 8), away(4, 8));
    assert!(rt;
        goes(
            rt.alloc(),
            &moves,
            &[off(4, 8, 0, 0)],
            &[off(4, 8, 0, 1)],
            &[]
        )?
    );
    Ok(())
}

#[test]
fn move_to_here(rt: HostRuntime) -> Result<(), Fail> {
    let moves = exchange(4, 8, away(4, 8), idle(4, 8));
    assert!(rt;
        goes(
            rt.alloc(),
            &moves,
            &[],
            &[off(4, 8, 1, NEW)],
            &[off(4, 8, 1, 0)]
        )?
    );
    Ok(())
}

#[test]
fn split(rt: HostRuntime) -> Result<(), Fail> {
    let mut splits = exchange(4, 8, live(4, 8), live(4, 6));
    splits.other_new = live(6, 8);
    let marked = [on(4, 8, 0, 1), on(4, 6, 1, NEW), on(6, 8, 1, NEW)];
    let settled = [on(4, 6, 1, 0), on(6, 8, 1, 0)];
    assert!(rt; goes(rt.alloc(), &splits, &[on(4, 8, 0, 0)], &marked, &settled)?);
    Ok(())
}

#[test]
fn merge(rt: HostRuntime) -> Result<(), Fail> {
    let mut merges = exchange(4, 8, live(4, 6), live(4, 8));
    merges.other_old = live(6, 8);
    let before = [on(4, 6, 0, 0), on(6, 8, 3, 0)];
    let marked = [on(4, 6, 0, 1), on(4, 8, 1, NEW), on(6, 8, 3, 1)];
    assert!(rt; goes(rt.alloc(), &merges, &before, &marked, &[on(4, 8, 1, 0)])?);
    Ok(())
}

#[test]
fn add_of_a_point(rt: HostRuntime) -> Result<(), Fail> {
    let adds = exchange(4, POINT, None, live(4, POINT));
    let before = [on(3, POINT, 0, 0), on(5, POINT, 0, 0)];
    let marked = [on(3, POINT, 0, 0), on(4, POINT, 1, NEW), on(5, POINT, 0, 0)];
    let settled = [on(3, POINT, 0, 0), on(4, POINT, 1, 0), on(5, POINT, 0, 0)];
    assert!(rt; goes(rt.alloc(), &adds, &before, &marked, &settled)?);
    Ok(())
}

#[test]
fn delete_of_a_point(rt: HostRuntime) -> Result<(), Fail> {
    let deletes = exchange(4, POINT, idle(4, POINT), None);
    let before = [on(3, POINT, 0, 0), off(4, POINT, 0, 0), on(5, POINT, 0, 0)];
    let marked = [on(3, POINT, 0, 0), off(4, POINT, 0, 1), on(5, POINT, 0, 0)];
    assert!(rt;
        goes(
            rt.alloc(),
            &deletes,
            &before,
            &marked,
            &[on(3, POINT, 0, 0), on(5, POINT, 0, 0)]
        )?
    );
    Ok(())
}

#[test]
fn points_change_their_status(rt: HostRuntime) -> Result<(), Fail> {
    let ends = exchange(4, POINT, live(4, POINT), idle(4, POINT));
    let marked = [on(4, POINT, 0, 1), off(4, POINT, 1, NEW)];
    assert!(rt;
        goes(
            rt.alloc(),
            &ends,
            &[on(4, POINT, 0, 0)],
            &marked,
            &[off(4, POINT, 1, 0)]
        )?
    );
    let begins = exchange(4, POINT, idle(4, POINT), live(4, POINT));
    let again = [off(4, POINT, 0, 1), on(4, POINT, 1, NEW)];
    assert!(rt;
        goes(
            rt.alloc(),
            &begins,
            &[off(4, POINT, 0, 0)],
            &again,
            &[on(4, POINT, 1, 0)]
        )?
    );
    Ok(())
}

#[test]
fn points_move(rt: HostRuntime) -> Result<(), Fail> {
    let leaves = exchange(4, POINT, idle(4, POINT), away(4, POINT));
    assert!(rt;
        goes(
            rt.alloc(),
            &leaves,
            &[off(4, POINT, 0, 0)],
            &[off(4, POINT, 0, 1)],
            &[]
        )?
    );
    let comes = exchange(4, POINT, away(4, POINT), idle(4, POINT));
    assert!(rt;
        goes(
            rt.alloc(),
            &comes,
            &[],
            &[off(4, POINT, 1, NEW)],
            &[off(4, POINT, 1, 0)]
        )?
    );
    Ok(())
}
