//! Which location is the first unknown one.
use crate::stores::{
    first_of, here, is_first, place, put_job, put_kind, put_operation, put_others, put_shard,
};
use cell_world::changes::Change;
use cell_world::locations::Location;
use std::alloc::Global;
use std::test::Fail;

/// How many kinds of cells name locations.
const KINDS: usize = 5;

/// An unknown location for each of these kinds in cell order, in byte order against it.
fn unknown_at(kind: usize) -> &'static [u8] {
    match kind {
        0 => b"s/e",
        1 => b"s/d",
        2 => b"s/c",
        3 => b"s/b",
        _ => b"s/a",
    }
}

#[test]
fn none_in_empty_stores(rt: HostRuntime) -> Result<(), Fail> {
    let change = Change::empty(rt.alloc());
    assert!(rt; first_of(rt.alloc(), &change)?.is_none());
    Ok(())
}

#[test]
fn none_where_all_are_known(rt: HostRuntime) -> Result<(), Fail> {
    let mut change = Change::empty(rt.alloc());
    put_others(&mut change)?;
    for kind in 0..KINDS {
        put_kind(&mut change, kind, here()?)?;
    }
    assert!(rt; first_of(rt.alloc(), &change)?.is_none());
    Ok(())
}

/// Whether it is told where one kind has an unknown location and the others the known one.
fn is_told(alloc: Global, unknown: usize) -> Result<bool, Fail> {
    let mut change = Change::empty(alloc);
    for kind in 0..KINDS {
        put_kind(&mut change, kind, here()?)?;
    }
    put_kind(&mut change, unknown, place(unknown_at(unknown))?)?;
    is_first(alloc, &change, unknown_at(unknown))
}

#[test]
fn one_in_each_kind(rt: HostRuntime) -> Result<(), Fail> {
    for kind in 0..KINDS {
        assert!(rt; is_told(rt.alloc(), kind)?);
    }
    Ok(())
}

/// Whether that of a kind is told where this kind and all later ones have unknown locations.
fn is_before_later(alloc: Global, first: usize) -> Result<bool, Fail> {
    let mut change = Change::empty(alloc);
    for kind in first..KINDS {
        put_kind(&mut change, kind, place(unknown_at(kind))?)?;
    }
    is_first(alloc, &change, unknown_at(first))
}

#[test]
fn kinds_in_cell_order(rt: HostRuntime) -> Result<(), Fail> {
    for kind in 0..KINDS {
        assert!(rt; is_before_later(rt.alloc(), kind)?);
    }
    Ok(())
}

#[test]
fn shards_by_map_and_then_by_location(rt: HostRuntime) -> Result<(), Fail> {
    let mut change = Change::empty(rt.alloc());
    put_shard(&mut change, b"b", place(b"s/a")?)?;
    put_shard(&mut change, b"a", place(b"s/c")?)?;
    assert!(rt; is_first(rt.alloc(), &change, b"s/c")?);
    put_shard(&mut change, b"a", place(b"s/b")?)?;
    assert!(rt; is_first(rt.alloc(), &change, b"s/b")?);
    Ok(())
}

/// Whether it is told where an operation has the known location at all places before this one, and unknown ones from there on.
fn is_told_at(alloc: Global, unknown: usize) -> Result<bool, Fail> {
    let mut at = [here()?; 6];
    for (i, slot) in at.iter_mut().enumerate() {
        if i >= unknown {
            *slot = place(b"s/a")?;
        }
    }
    if let Some(slot) = at.get_mut(unknown) {
        *slot = place(b"s/z")?;
    }
    let mut change = Change::empty(alloc);
    put_operation(&mut change, 1, &at)?;
    is_first(alloc, &change, b"s/z")
}

#[test]
fn each_place_of_an_operation(rt: HostRuntime) -> Result<(), Fail> {
    for place in 0..6 {
        assert!(rt; is_told_at(rt.alloc(), place)?);
    }
    Ok(())
}

#[test]
fn the_source_of_a_job_and_then_its_target(rt: HostRuntime) -> Result<(), Fail> {
    let mut change = Change::empty(rt.alloc());
    put_job(&mut change, here()?, place(b"s/a")?)?;
    assert!(rt; is_first(rt.alloc(), &change, b"s/a")?);
    put_job(&mut change, place(b"s/b")?, place(b"s/a")?)?;
    assert!(rt; is_first(rt.alloc(), &change, b"s/b")?);
    Ok(())
}

/// Operations of the numbers from 1 on, with the known location.
fn put_operations(change: &mut Change, count: u64) -> Result<(), Fail> {
    let at: [Location; 6] = [here()?; 6];
    for number in 0..count {
        put_operation(change, number + 1, &at)?;
    }
    Ok(())
}

#[test]
fn one_past_256_cells(rt: HostRuntime) -> Result<(), Fail> {
    let mut change = Change::empty(rt.alloc());
    put_operations(&mut change, 256)?;
    assert!(rt; first_of(rt.alloc(), &change)?.is_none());
    put_operation(&mut change, 257, &[place(b"s/z")?; 6])?;
    assert!(rt; is_first(rt.alloc(), &change, b"s/z")?);
    Ok(())
}
