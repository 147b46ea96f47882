//! A world of one location with local rows, and what the calls make of them.
ghost use Rattle.std.specs.Prelude.{◌≡◌, ◌<◌};
ghost use Rattle.cell_world.specs.Outside.{IsSite};
ghost use Rattle.world_memory.specs.Memory.{outside_of};

use crate::lines::{Line, MAX, NEW, POINT, Part, Shape, code_of};
use cell_world::cells::{Cell, CellKey, LocalRow, Mark, Site, Status};
use cell_world::changes::Change;
use cell_world::locations::Location;
use cell_world::names::Name;
use cell_world::norm_keys::NormKey;
use cell_world::operations::{Extra, Op, Piece, Pieces};
use cell_world::outside::World;
use cell_world::spans::{High, Span};
use global_tables::faults::StepFault;
use local_tables::changes::{mark_change, settle_change, undo_change};
use std::alloc::Global;
use std::test::Fail;
use world_memory::world::MemoryWorld;

/// Which change is made.
#[derive(Clone, Copy)]
pub(crate) enum Call {
    Mark,
    Undo,
    Settle,
}

// ---- rows and operations

fn name(bytes: &[u8]) -> Result<Name, Fail> {
    Ok(Name::read(bytes).ok_or("a name")?)
}

fn key(byte: u8) -> Result<NormKey, Fail> {
    Ok(NormKey::of_bytes(&[byte]).ok_or("a key")?)
}

fn location(here: bool) -> Result<Location, Fail> {
    if here {
        return Ok(Location::read(b"s/a").ok_or("a location")?);
    }
    Ok(Location::read(b"s/b").ok_or("a location")?)
}

/// The span from the low byte up to the high one, or what `POINT` or `MAX` says.
fn span(low: u8, high: u8) -> Result<Span, Fail> {
    let from = key(low)?;
    if high == POINT {
        return Ok(Span::Point(from));
    }
    if high == MAX {
        return Ok(Span::Range(from, High::Max));
    }
    Ok(Span::Range(from, High::At(key(high)?)))
}

fn status_of(online: bool) -> Status {
    if online {
        Status::Online
    } else {
        Status::Offline
    }
}

fn mark_of(mark: u8) -> Mark {
    if mark == 0 {
        return Mark::Plain;
    }
    if mark == NEW {
        return Mark::New;
    }
    Mark::Old(u64::from(mark))
}

fn row_of(map: &[u8], line: &Line) -> Result<LocalRow, Fail> {
    Ok(LocalRow {
        map: name(map)?,
        span: span(line.low, line.high)?,
        number: u64::from(line.number),
        status: status_of(line.online),
        mark: mark_of(line.mark),
    })
}

fn piece_of(part: &Part) -> Result<Piece, Fail> {
    Ok(Piece {
        map: name(b"m")?,
        span: span(part.low, part.high)?,
        location: location(part.here)?,
        status: status_of(part.online),
        token: None,
    })
}

fn some_piece(part: &Option<Part>) -> Result<Option<Piece>, Fail> {
    match part {
        None => Ok(None),
        Some(part) => Ok(Some(piece_of(part)?)),
    }
}

fn pieces_of(one: &Option<Part>, two: &Option<Part>) -> Result<Pieces, Fail> {
    Ok(Pieces {
        one: some_piece(one)?,
        two: some_piece(two)?,
    })
}

fn op_of(shape: &Shape) -> Result<Op, Fail> {
    Ok(Op {
        number: 1,
        map: name(b"m")?,
        hull: span(shape.low, shape.high)?,
        olds: pieces_of(&shape.old, &shape.other_old)?,
        news: pieces_of(&shape.new, &shape.other_new)?,
        extra: Extra::None,
    })
}

// ---- worlds

fn empty_world(alloc: Global) -> Result<MemoryWorld, Fail> {
    let at = location(true)?;
    Ok(MemoryWorld::new(alloc, &[at])?)
}

fn commit_here(alloc: Global, world: &mut MemoryWorld, change: &Change) -> Result<(), Fail> {
    let at = location(true)?;
    match world.locate(&at) {
        None => Ok(()),
        Some(site) => Ok(world.commit(alloc, site, change)?),
    }
}

/// Puts a local row of a map.
pub(crate) fn put_row(
    alloc: Global,
    world: &mut MemoryWorld,
    map: &[u8],
    line: &Line,
) -> Result<(), Fail> {
    let row = row_of(map, line)?;
    let mut change = Change::empty(alloc);
    change.put(Cell::Local(row))?;
    commit_here(alloc, world, &change)
}

/// A world with these rows of the map `m`.
pub(crate) fn world_of(alloc: Global, lines: &[Line]) -> Result<MemoryWorld, Fail> {
    let mut world = empty_world(alloc)?;
    for line in lines {
        put_row(alloc, &mut world, b"m", line)?;
    }
    Ok(world)
}

/// Puts a log row of this number.
pub(crate) fn put_log(alloc: Global, world: &mut MemoryWorld, number: u64) -> Result<(), Fail> {
    let none = Pieces {
        one: None,
        two: None,
    };
    let op = Op {
        number,
        map: name(b"m")?,
        hull: span(0, 1)?,
        olds: none,
        news: none,
        extra: Extra::None,
    };
    let mut change = Change::empty(alloc);
    change.put(Cell::Log(op))?;
    world.commit(alloc, Site::GLOBAL, &change)?;
    Ok(())
}

fn change_at(
    alloc: Global,
    world: &mut MemoryWorld,
    site: Site,
    call: Call,
    op: &Op,
) -> Result<Option<Change>, StepFault>
    requires site { IsSite (outside_of world.old) site }
    requires shard { 0 < site.0 }
{
    match call {
        Call::Mark => mark_change(alloc, world, site, op),
        Call::Undo => undo_change(alloc, world, site, op),
        Call::Settle => settle_change(alloc, world, site, op),
    }
}

fn change_by(
    alloc: Global,
    world: &mut MemoryWorld,
    call: Call,
    op: &Op,
) -> Result<Option<Change>, Fail> {
    let at = location(true)?;
    match world.locate(&at) {
        None => Ok(None),
        Some(site) => Ok(change_at(alloc, world, site, call, op)?),
    }
}

fn change_of(
    alloc: Global,
    world: &mut MemoryWorld,
    call: Call,
    shape: &Shape,
) -> Result<Option<Change>, Fail> {
    match op_of(shape) {
        Err(fail) => Err(fail),
        Ok(op) => change_by(alloc, world, call, &op),
    }
}

/// Makes the change. Says whether there was something to do.
pub(crate) fn made(
    alloc: Global,
    world: &mut MemoryWorld,
    call: Call,
    shape: &Shape,
) -> Result<bool, Fail> {
    match change_of(alloc, world, call, shape)? {
        None => Ok(false),
        Some(change) => {
            commit_here(alloc, world, &change)?;
            Ok(true)
        }
    }
}

// ---- tables

fn first_byte(key: &NormKey) -> u8 {
    let bytes = key.as_slice();
    if bytes.is_empty() {
        return 0;
    }
    bytes[0]
}

fn number_of(row: &LocalRow) -> u64 {
    let high = match &row.span {
        Span::Point(_) => POINT,
        Span::Range(_, High::Max) => MAX,
        Span::Range(_, High::At(high)) => first_byte(high),
    };
    let mark = match row.mark {
        Mark::Plain => 0,
        Mark::New => u64::from(NEW),
        Mark::Old(number) => number,
    };
    let bit = match row.status {
        Status::Online => 1,
        Status::Offline => 0,
    };
    code_of(first_byte(row.span.low()), high, row.number, mark, bit)
}

fn cells_at(alloc: Global, world: &mut MemoryWorld) -> Result<Vec<Cell>, Fail> {
    let at = location(true)?;
    let from = CellKey::Local(name(b"m")?, key(0)?, 0);
    match world.locate(&at) {
        None => Ok(Vec::new(alloc)),
        Some(site) => Ok(world.scan(alloc, site, &from, 1000)?),
    }
}

/// The rows of the site, as numbers.
pub(crate) fn table(alloc: Global, world: &mut MemoryWorld) -> Result<Vec<u64>, Fail> {
    let mut codes = Vec::new(alloc);
    let cells = cells_at(alloc, world)?;
    for cell in &cells {
        if let Cell::Local(row) = cell {
            codes.push(number_of(row))?;
        }
    }
    Ok(codes)
}

/// The rows after a call over these rows, with no operation in the log.
pub(crate) fn after(
    alloc: Global,
    lines: &[Line],
    call: Call,
    shape: &Shape,
) -> Result<Vec<u64>, Fail> {
    let mut world = world_of(alloc, lines)?;
    made(alloc, &mut world, call, shape)?;
    table(alloc, &mut world)
}

/// Whether there is something to do.
pub(crate) fn is_something(
    alloc: Global,
    lines: &[Line],
    call: Call,
    shape: &Shape,
) -> Result<bool, Fail> {
    let mut world = world_of(alloc, lines)?;
    made(alloc, &mut world, call, shape)
}
