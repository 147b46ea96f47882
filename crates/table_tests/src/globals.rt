//! What is read of the global store.
use cell_world::cells::{Cell, Counters, KeyType, MapKind, Site, SiteState, Status};
use cell_world::changes::Change;
use cell_world::locations::Location;
use cell_world::names::Name;
use cell_world::norm_keys::NormKey;
use cell_world::operations::Piece;
use cell_world::outside::World;
use cell_world::spans::{High, Span};
use global_tables::counts::is_full;
use global_tables::faults::StepFault;
use global_tables::groups::Group;
use global_tables::known::KnownTables;
use global_tables::lists::{log_rows, pieces_of, shards_of};
use global_tables::lookups::{counters, job_row, log_row, piece_at, site_state};
use std::alloc::Global;
use std::test::Fail;
use world_memory::world::MemoryWorld;

pub(crate) fn name(bytes: &[u8]) -> Result<Name, Fail> {
    Ok(Name::read(bytes).ok_or("a name")?)
}

pub(crate) fn key(bytes: &[u8]) -> Result<NormKey, Fail> {
    Ok(NormKey::of_bytes(bytes).ok_or("a key")?)
}

pub(crate) fn here() -> Result<Location, Fail> {
    Ok(Location::read(b"s/a").ok_or("a location")?)
}

/// A world of one location, without cells.
pub(crate) fn empty_world(alloc: Global) -> Result<MemoryWorld, Fail> {
    let at = here()?;
    Ok(MemoryWorld::new(alloc, &[at])?)
}

fn piece(map: &[u8], span: Span) -> Result<Piece, Fail> {
    Ok(Piece {
        map: name(map)?,
        span,
        location: here()?,
        status: Status::Online,
        token: None,
    })
}

/// Puts a range map and a mapping of it.
fn put_range(change: &mut Change, map: &[u8], low: &[u8], high: High) -> Result<(), Fail> {
    change.put(Cell::Piece(piece(map, Span::Range(key(low)?, high))?))?;
    Ok(())
}

fn put_point(change: &mut Change, map: &[u8], at: &[u8]) -> Result<(), Fail> {
    change.put(Cell::Piece(piece(map, Span::Point(key(at)?))?))?;
    Ok(())
}

/// The span of the owner; where there is none that of all keys, which no mapping here has.
fn owner_span(alloc: Global, world: &mut MemoryWorld, map: &[u8], at: &[u8]) -> Result<Span, Fail> {
    match piece_at(alloc, world, &name(map)?, &key(at)?)? {
        None => Ok(Span::Range(key(b"")?, High::Max)),
        Some(piece) => Ok(piece.span),
    }
}

/// Whether the owner has the keys from `low` up to an end, or the key `low` alone.
fn is_owner(
    alloc: Global,
    world: &mut MemoryWorld,
    map: &[u8],
    at: &[u8],
    low: &[u8],
    end: Option<High>,
) -> Result<bool, Fail> {
    let low = key(low)?;
    let span = match end {
        None => Span::Point(low),
        Some(high) => Span::Range(low, high),
    };
    Ok(owner_span(alloc, world, map, at)? == span)
}

/// Whether nobody owns the key.
fn is_free(alloc: Global, world: &mut MemoryWorld, map: &[u8], at: &[u8]) -> Result<bool, Fail> {
    is_owner(alloc, world, map, at, b"", Some(High::Max))
}

/// The end at a key.
fn up_to(bytes: &[u8]) -> Result<Option<High>, Fail> {
    Ok(Some(High::At(key(bytes)?)))
}

/// Three maps whose names are prefixes of one another: `a` is a list, `ab` and `abc` are ranges.
fn three_maps(alloc: Global) -> Result<MemoryWorld, Fail> {
    let mut world = empty_world(alloc)?;
    let mut change = Change::empty(alloc);
    put_point(&mut change, b"a", b"")?;
    put_point(&mut change, b"a", &[255; 128])?;
    put_range(&mut change, b"ab", b"", High::At(key(&[5])?))?;
    put_range(&mut change, b"ab", &[5], High::At(key(&[9])?))?;
    put_range(&mut change, b"ab", &[9, 0], High::Max)?;
    world.commit(alloc, Site::GLOBAL, &change)?;
    put_rest(alloc, world)
}

fn put_rest(alloc: Global, world: MemoryWorld) -> Result<MemoryWorld, Fail> {
    let mut world = world;
    let mut change = Change::empty(alloc);
    put_range(&mut change, b"abc", &[1], High::At(key(&[2])?))?;
    world.commit(alloc, Site::GLOBAL, &change)?;
    Ok(world)
}

#[test]
fn owners_of_a_range(rt: HostRuntime) -> Result<(), Fail> {
    let mut world = three_maps(rt.alloc())?;
    assert!(rt; is_owner(rt.alloc(), &mut world, b"ab", b"", b"", up_to(&[5])?)?);
    assert!(rt; is_owner(rt.alloc(), &mut world, b"ab", &[4, 255], b"", up_to(&[5])?)?);
    assert!(rt; is_owner(rt.alloc(), &mut world, b"ab", &[5], &[5], up_to(&[9])?)?);
    assert!(rt; is_free(rt.alloc(), &mut world, b"ab", &[9])?);
    Ok(())
}

#[test]
fn owners_without_bound(rt: HostRuntime) -> Result<(), Fail> {
    let mut world = three_maps(rt.alloc())?;
    assert!(rt;
        is_owner(
            rt.alloc(),
            &mut world,
            b"ab",
            &[9, 0],
            &[9, 0],
            Some(High::Max)
        )?
    );
    assert!(rt;
        is_owner(
            rt.alloc(),
            &mut world,
            b"ab",
            &[255; 128],
            &[9, 0],
            Some(High::Max)
        )?
    );
    assert!(rt; is_free(rt.alloc(), &mut world, b"abc", b"")?);
    assert!(rt; is_owner(rt.alloc(), &mut world, b"abc", &[1, 7], &[1], up_to(&[2])?)?);
    assert!(rt; is_free(rt.alloc(), &mut world, b"abc", &[2])?);
    Ok(())
}

#[test]
fn owners_of_points(rt: HostRuntime) -> Result<(), Fail> {
    let mut world = three_maps(rt.alloc())?;
    assert!(rt; is_owner(rt.alloc(), &mut world, b"a", b"", b"", None)?);
    assert!(rt; is_free(rt.alloc(), &mut world, b"a", &[0])?);
    assert!(rt; is_free(rt.alloc(), &mut world, b"a", &[255; 127])?);
    assert!(rt; is_owner(rt.alloc(), &mut world, b"a", &[255; 128], &[255; 128], None)?);
    Ok(())
}

/// A hundred mappings of single keys, of the numbers from one on, in one change; a key is a number in two bytes.
fn put_hundred(alloc: Global, world: &mut MemoryWorld, from: u16) -> Result<(), Fail> {
    let mut change = Change::empty(alloc);
    for n in from..from.saturating_add(100) {
        put_point(&mut change, b"m", &n.to_be_bytes())?;
    }
    world.commit(alloc, Site::GLOBAL, &change)?;
    Ok(())
}

#[test]
fn a_thousand_mappings_in_order(rt: HostRuntime) -> Result<(), Fail> {
    let mut world = three_maps(rt.alloc())?;
    for hundred in 0..10u16 {
        put_hundred(rt.alloc(), &mut world, hundred * 100)?;
    }
    let pieces = pieces_of(rt.alloc(), &mut world, &name(b"m")?)?;
    assert!(rt; pieces.len() == 1000);
    for (n, piece) in pieces.iter().enumerate() {
        let bytes = (n as u16).to_be_bytes();
        assert!(rt; piece.span.low().as_slice() == bytes.as_slice());
    }
    let few = pieces_of(rt.alloc(), &mut world, &name(b"ab")?)?;
    assert!(rt; few.len() == 3);
    Ok(())
}

#[test]
fn what_is_absent(rt: HostRuntime) -> Result<(), Fail> {
    let mut world = empty_world(rt.alloc())?;
    let next = counters(rt.alloc(), &mut world)?;
    assert!(rt; next.operation == 1 && next.job == 1);
    let state = site_state(rt.alloc(), &mut world, &here()?)?;
    assert!(rt; state == SiteState::Attached);
    Ok(())
}

/// Whether an operation of this number is in the log.
fn has_op(alloc: Global, world: &mut MemoryWorld, number: u64) -> Result<bool, StepFault> {
    match log_row(alloc, world, number) {
        Ok(op) => Ok(op.is_some()),
        Err(fault) => Err(fault),
    }
}

/// Whether a job of this number stands.
fn has_job(alloc: Global, world: &mut MemoryWorld, number: u32) -> Result<bool, StepFault> {
    match job_row(alloc, world, number) {
        Ok(job) => Ok(job.is_some()),
        Err(fault) => Err(fault),
    }
}

#[test]
fn operations_and_jobs_that_are_absent(rt: HostRuntime) -> Result<(), Fail> {
    let mut world = three_maps(rt.alloc())?;
    assert!(rt; !has_op(rt.alloc(), &mut world, 0)?);
    assert!(rt; !has_op(rt.alloc(), &mut world, u64::MAX)?);
    assert!(rt; !has_job(rt.alloc(), &mut world, 0)?);
    assert!(rt; !has_job(rt.alloc(), &mut world, u32::MAX)?);
    Ok(())
}

#[test]
fn lists_of_a_store(rt: HostRuntime) -> Result<(), Fail> {
    let mut world = empty_world(rt.alloc())?;
    let mut change = Change::empty(rt.alloc());
    change.put(Cell::Map(name(b"m")?, MapKind::Range, KeyType::Int))?;
    change.put(Cell::Shard(name(b"m")?, here()?))?;
    world.commit(rt.alloc(), Site::GLOBAL, &change)?;
    assert!(rt; shards_of(rt.alloc(), &mut world, &name(b"m")?)?.len() == 1);
    assert!(rt; log_rows(rt.alloc(), &mut world)?.is_empty());
    KnownTables::read(rt.alloc(), &mut world)?;
    Ok(())
}

#[test]
fn tables_are_counted_for_their_map(rt: HostRuntime) -> Result<(), Fail> {
    let mut world = empty_world(rt.alloc())?;
    let mut change = Change::empty(rt.alloc());
    change.put(Cell::Table(name(b"a")?, name(b"x")?))?;
    change.put(Cell::Table(name(b"a")?, name(b"y")?))?;
    change.put(Cell::Table(name(b"ab")?, name(b"x")?))?;
    world.commit(rt.alloc(), Site::GLOBAL, &change)?;
    let group = Group::TablesOf(name(b"a")?);
    assert!(rt; is_full(rt.alloc(), &mut world, &group, 2)?);
    assert!(rt; !is_full(rt.alloc(), &mut world, &group, 3)?);
    Ok(())
}
