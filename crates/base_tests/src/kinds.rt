//! Each kind of cell and each happening, with enough memory: a copy that answers want of memory for one of them is seen.
ghost use Rattle.std.specs.Prelude.{◌≡◌, IsTrue, IfOk};
ghost use Rattle.cell_world.specs.Spelled.{is_spelled};

use crate::memory::empty_world;
use cell_world::cells::{
    Away, Cell, CellKey, Counters, KeyType, LocalRow, MapKind, Mark, RowName, Site, Status, Token,
};
use cell_world::changes::Change;
use cell_world::items::RowBytes;
use cell_world::locations::Location;
use cell_world::names::Name;
use cell_world::norm_keys::NormKey;
use cell_world::operations::{Extra, JobRow, Op, Phase, Piece, Pieces};
use cell_world::outside::World;
use cell_world::spans::{High, Span};
use std::alloc::Global;
use std::test::Fail;
use world_memory::world::MemoryWorld;

/// What the cells are made of.
#[derive(Clone, Copy)]
struct Parts {
    map: Name,
    table: Name,
    location: Location,
    key: NormKey,
}

fn make_parts() -> Result<Parts, Fail> {
    let map = Name::read(b"orders").ok_or("a name")?;
    let table = Name::read(b"lines").ok_or("a name")?;
    let location = Location::read(b"s/a").ok_or("a location")?;
    let key = NormKey::of_bytes(&[128, 0, 0, 5]).ok_or("a key")?;
    Ok(Parts {
        map,
        table,
        location,
        key,
    })
}

/// The name of a row.
fn row_name(parts: &Parts) -> RowName {
    RowName {
        map: parts.map,
        key: parts.key,
        table: parts.table,
        number: 7,
    }
}

/// The key of the kind with this place in cell order.
fn key_of_kind(parts: &Parts, kind: u8) -> CellKey {
    match kind {
        1 => CellKey::Map(parts.map),
        2 => CellKey::Shard(parts.map, parts.location),
        3 => CellKey::Table(parts.map, parts.table),
        4 => CellKey::Piece(parts.map, parts.key),
        5 => CellKey::Log(3),
        6 => CellKey::Job(2),
        7 => CellKey::Counter,
        8 => CellKey::SiteState(parts.location),
        9 => CellKey::Local(parts.map, parts.key, 3),
        _ => CellKey::Row(row_name(parts)),
    }
}

/// A mapping with a lock.
fn piece(parts: &Parts) -> Piece
    ensures { result.map ≡ parts.now.map }
{
    Piece {
        map: parts.map,
        span: Span::Range(parts.key, High::Max),
        location: parts.location,
        status: Status::Online,
        token: Some(Token(9)),
    }
}

/// A log cell.
fn log_cell(parts: &Parts) -> Cell
    ensures { IsTrue (is_spelled result) }
{
    Cell::Log(Op {
        number: 3,
        map: parts.map,
        hull: Span::Range(parts.key, High::Max),
        olds: Pieces {
            one: None,
            two: None,
        },
        news: Pieces {
            one: None,
            two: None,
        },
        extra: Extra::JobPut(job(parts)),
    })
}

/// A log cell with a mapping before.
fn log_cell_of_a_mapping(parts: &Parts) -> Cell
    ensures { IsTrue (is_spelled result) }
{
    Cell::Log(Op {
        number: 3,
        map: parts.map,
        hull: Span::Range(parts.key, High::Max),
        olds: Pieces {
            one: Some(piece(parts)),
            two: None,
        },
        news: Pieces {
            one: None,
            two: None,
        },
        extra: Extra::None,
    })
}

/// A job that copies.
fn job(parts: &Parts) -> JobRow {
    JobRow {
        number: 2,
        map: parts.map,
        low: parts.key,
        high: High::Max,
        source: parts.location,
        target: parts.location,
        batch: 1,
        cursor: High::At(parts.key),
        phase: Phase::Copying(High::Max),
    }
}

/// A local row with a mark.
fn local(parts: &Parts) -> LocalRow {
    LocalRow {
        map: parts.map,
        span: Span::Point(parts.key),
        number: 3,
        status: Status::Offline,
        mark: Mark::Old(4),
    }
}

/// The cell of a kind that holds no bytes.
fn cell_of_kind(parts: &Parts, kind: u8) -> Cell
    ensures { IsTrue (is_spelled result) }
{
    match kind {
        1 => Cell::Map(parts.map, MapKind::List, KeyType::Bytes),
        2 => Cell::Shard(parts.map, parts.location),
        3 => Cell::Table(parts.map, parts.table),
        4 => Cell::Piece(piece(parts)),
        5 => log_cell(parts),
        6 => Cell::Job(job(parts)),
        7 => Cell::Counter(Counters {
            operation: 4,
            job: 3,
        }),
        8 => Cell::SiteState(parts.location, Away::Suspect),
        _ => Cell::Local(local(parts)),
    }
}

/// A row with a value of so many bytes, at most 1,024.
fn row_cell(alloc: Global, parts: &Parts, length: usize) -> Result<Cell, Fail>
    ensures { IfOk result (λ cell. IsTrue (is_spelled cell)) }
{
    let bytes = vec![in alloc; 7u8; length]?;
    let value = RowBytes::from_vec(bytes).ok_or("a row")?;
    Ok(Cell::Row(row_name(parts), value))
}

/// A world in which the cell was put, all at moment 1.
fn world_with(alloc: Global, cell: Cell) -> Result<MemoryWorld, Fail>
    requires { IsTrue (is_spelled cell) }
{
    let mut world = empty_world(alloc)?;
    let mut change = Change::empty(alloc);
    change.put(cell)?;
    world.commit(alloc, Site::GLOBAL, &change)?;
    Ok(world)
}

/// Whether each call that reads finds the one cell.
fn is_found(alloc: Global, world: &mut MemoryWorld, key: &CellKey) -> Result<bool, Fail> {
    let read = world.read(alloc, Site::GLOBAL, key)?;
    let floor = world.floor(alloc, Site::GLOBAL, key)?;
    let scanned = world.scan(alloc, Site::GLOBAL, key, 2)?;
    Ok(read.is_some() && floor.is_some() && scanned.len() == 1)
}

/// Whether no cell is there after the key was deleted.
fn is_deleted(alloc: Global, world: &mut MemoryWorld, key: &CellKey) -> Result<bool, Fail> {
    let mut change = Change::empty(alloc);
    change.delete(*key)?;
    world.commit(alloc, Site::GLOBAL, &change)?;
    let read = world.read(alloc, Site::GLOBAL, key)?;
    Ok(read.is_none())
}

/// Whether the cell is found, also after a crash, and then deleted.
fn comes_and_goes(alloc: Global, cell: Cell, key: &CellKey) -> Result<bool, Fail>
    requires { IsTrue (is_spelled cell) }
{
    let mut world = world_with(alloc, cell)?;
    let mut again = crashed_now(alloc, &world)?;
    let found = is_found(alloc, &mut world, key)?;
    let kept = is_found(alloc, &mut again, key)?;
    let deleted = is_deleted(alloc, &mut world, key)?;
    Ok(found && kept && deleted)
}

/// The world that a crash now leaves.
pub fn crashed_now(alloc: Global, world: &MemoryWorld) -> Result<MemoryWorld, Fail> {
    let moment = world.moment();
    Ok(world.crashed(alloc, moment)?)
}

#[test]
fn each_kind_of_cell_comes_and_goes(rt: HostRuntime) -> Result<(), Fail> {
    let parts = make_parts()?;
    for kind in 1..10u8 {
        let cell = cell_of_kind(&parts, kind);
        let key = key_of_kind(&parts, kind);
        assert!(rt; comes_and_goes(rt.alloc(), cell, &key)?, "kind {kind}");
    }
    Ok(())
}

#[test]
fn rows_come_and_go_with_bytes_and_without(rt: HostRuntime) -> Result<(), Fail> {
    let parts = make_parts()?;
    for length in [0, 1, 1024] {
        let cell = row_cell(rt.alloc(), &parts, length)?;
        let key = key_of_kind(&parts, 10);
        assert!(rt; comes_and_goes(rt.alloc(), cell, &key)?, "{length} bytes");
    }
    Ok(())
}

#[test]
fn a_log_cell_of_a_mapping_comes_and_goes(rt: HostRuntime) -> Result<(), Fail> {
    let parts = make_parts()?;
    let cell = log_cell_of_a_mapping(&parts);
    let key = key_of_kind(&parts, 5);
    assert!(rt; comes_and_goes(rt.alloc(), cell, &key)?);
    Ok(())
}

/// A world with a happening of each kind: a change without edits, bytes, none, and a store opened anew.
fn world_of_each(alloc: Global) -> Result<MemoryWorld, Fail> {
    let mut world = empty_world(alloc)?;
    world.commit(alloc, Site::GLOBAL, &Change::empty(alloc))?;
    world.write(alloc, b"ok\n")?;
    world.write(alloc, b"")?;
    world.reopen(alloc, Site::GLOBAL)?;
    Ok(world)
}

#[test]
fn each_happening_is_kept_over_a_crash(rt: HostRuntime) -> Result<(), Fail> {
    let world = world_of_each(rt.alloc())?;
    let length = world.moment();
    assert!(rt; length == 4);
    for moment in 0..=length {
        if moment <= world.moment() {
            let crashed = world.crashed(rt.alloc(), moment)?;
            assert!(rt; crashed.moment() == 0, "at {moment}");
        }
    }
    Ok(())
}
