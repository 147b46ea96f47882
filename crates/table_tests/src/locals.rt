//! What is read of the store of a shard.
ghost use Rattle.std.specs.Prelude.{◌≡◌};

use crate::globals::{empty_world, here, key};
use cell_world::cells::{Cell, LocalRow, Mark, Site, Status};
use cell_world::changes::Change;
use cell_world::locations::Location;
use cell_world::names::Name;
use cell_world::operations::{Extra, Op, Pieces};
use cell_world::outside::World;
use cell_world::spans::{High, Span};
use local_tables::resolving::resolved_at;
use std::alloc::Global;
use std::test::Fail;
use world_memory::world::MemoryWorld;

fn name() -> Result<Name, Fail> {
    Ok(Name::read(b"m").ok_or("a name")?)
}

/// The end of a range at a key of one byte.
fn end_at(byte: u8) -> Result<High, Fail> {
    Ok(High::At(key(&[byte])?))
}

/// The range from the key of one zero byte on.
fn up_to(high: High) -> Result<Span, Fail> {
    Ok(Span::Range(key(&[0])?, high))
}

/// Puts a local row at a location that the world knows.
fn put_row(
    alloc: Global,
    world: &mut MemoryWorld,
    at: &Location,
    row: LocalRow,
) -> Result<(), Fail> {
    let mut change = Change::empty(alloc);
    change.put(Cell::Local(row))?;
    match world.locate(at) {
        None => Ok(()),
        Some(site) => Ok(world.commit(alloc, site, &change)?),
    }
}

/// The status of a key there.
fn status_at(
    alloc: Global,
    world: &mut MemoryWorld,
    at: &Location,
    bytes: &[u8],
) -> Result<Option<Status>, Fail> {
    let map = name()?;
    let at_key = key(bytes)?;
    match world.locate(at) {
        None => Ok(None),
        Some(site) => Ok(resolved_at(alloc, world, site, &map, &at_key)?),
    }
}

/// [0, 10) online made by 0 and to be deleted by operation 1, and [0, 4) online made by operation 1.
fn marked_rows(alloc: Global) -> Result<MemoryWorld, Fail> {
    let at = here()?;
    let mut world = empty_world(alloc)?;
    let (far, near) = (end_at(10)?, end_at(4)?);
    let old = LocalRow {
        map: name()?,
        span: up_to(far)?,
        number: 0,
        status: Status::Online,
        mark: Mark::Old(1),
    };
    put_row(alloc, &mut world, &at, old)?;
    let new = LocalRow {
        map: name()?,
        span: up_to(near)?,
        number: 1,
        status: Status::Online,
        mark: Mark::New,
    };
    put_row(alloc, &mut world, &at, new)?;
    Ok(world)
}

/// Puts the log row of operation 1.
fn put_log(alloc: Global, world: &mut MemoryWorld) -> Result<(), Fail> {
    let none = Pieces {
        one: None,
        two: None,
    };
    let op = Op {
        number: 1,
        map: name()?,
        hull: up_to(end_at(10)?)?,
        olds: none,
        news: none,
        extra: Extra::None,
    };
    let mut change = Change::empty(alloc);
    change.put(Cell::Log(op))?;
    world.commit(alloc, Site::GLOBAL, &change)?;
    Ok(())
}

#[test]
fn old_rows_count_while_their_operation_is_logged(rt: HostRuntime) -> Result<(), Fail> {
    let mut world = marked_rows(rt.alloc())?;
    put_log(rt.alloc(), &mut world)?;
    let at = here()?;
    assert!(rt; status_at(rt.alloc(), &mut world, &at, &[3])? == Some(Status::Online));
    assert!(rt; status_at(rt.alloc(), &mut world, &at, &[7])? == Some(Status::Online));
    Ok(())
}

#[test]
fn new_rows_count_once_it_is_out_of_the_log(rt: HostRuntime) -> Result<(), Fail> {
    let mut world = marked_rows(rt.alloc())?;
    let at = here()?;
    assert!(rt; status_at(rt.alloc(), &mut world, &at, &[3])? == Some(Status::Online));
    assert!(rt; status_at(rt.alloc(), &mut world, &at, &[7])?.is_none());
    assert!(rt; status_at(rt.alloc(), &mut world, &at, &[10])?.is_none());
    Ok(())
}
