//! A world of two locations, what is put there, and what stands there, in letters.
use crate::parts::{Parts, across, lower, outer, upper, whole};
use crate::stores::logged;
use cell_world::cells::{Cell, CellKey, KeyType, LocalRow, Mark, Site, Status};
use cell_world::changes::Change;
use cell_world::locations::Location;
use cell_world::outside::World;
use cell_world::spans::Span;
use global_tables::lists::pieces_of;
use std::alloc::Global;
use std::test::Fail;
use world_memory::world::MemoryWorld;

/// A world of two locations with the map, of which both are shards.
pub(crate) fn world_of(alloc: Global, parts: &Parts) -> Result<MemoryWorld, Fail> {
    if parts.here.cmp(&parts.there).is_eq() {
        return Err(Fail::from("one location"));
    }
    let mut world = MemoryWorld::new(alloc, &[parts.here, parts.there])?;
    let mut change = Change::empty(alloc);
    change.put(Cell::Map(parts.map, parts.kind, KeyType::Int))?;
    change.put(Cell::Shard(parts.map, parts.here))?;
    change.put(Cell::Shard(parts.map, parts.there))?;
    world.commit(alloc, Site::GLOBAL, &change)?;
    Ok(world)
}

/// Puts a local row at the location, if the world has it.
pub(crate) fn put_row(
    alloc: Global,
    world: &mut MemoryWorld,
    at: &Location,
    row: LocalRow,
) -> Result<(), Fail> {
    let mut change = Change::empty(alloc);
    change.put(Cell::Local(row))?;
    match world.locate(at) {
        None => Err(Fail::from("no such site")),
        Some(site) => Ok(world.commit(alloc, site, &change)?),
    }
}

// ---- what stands

fn letter_of(parts: &Parts, span: &Span) -> u8 {
    if *span == whole(parts) {
        b'w'
    } else if *span == lower(parts) {
        b'l'
    } else if *span == upper(parts) {
        b'u'
    } else if *span == across(parts) {
        b'x'
    } else if *span == outer(parts) {
        b'y'
    } else {
        b'?'
    }
}

fn sign_of(status: Status) -> u8 {
    match status {
        Status::Online => b'+',
        Status::Offline => b'-',
    }
}

/// In small letters where the mark is of the operation of this number.
fn mark_of(number: u64, row: &LocalRow) -> u8 {
    match row.mark {
        Mark::Plain => b'.',
        Mark::Old(by) => { if by == number { b'o' } else { b'O' } }
        Mark::New => { if row.number == number { b'n' } else { b'N' } }
    }
}

/// The mappings in key order, three letters each: the span, at which location, `+` for online and `-` for offline.
pub(crate) fn standing(
    alloc: Global,
    world: &mut MemoryWorld,
    parts: &Parts,
) -> Result<Vec<u8>, Fail> {
    let mut shown = Vec::new(alloc);
    let found = pieces_of(alloc, world, &parts.map)?;
    for piece in found.as_slice() {
        shown.push(letter_of(parts, &piece.span))?;
        shown.push(if piece.location.cmp(&parts.here).is_eq() {
            b'a'
        } else {
            b'b'
        })?;
        shown.push(sign_of(piece.status))?;
    }
    Ok(shown)
}

fn cells_at(
    alloc: Global,
    world: &mut MemoryWorld,
    parts: &Parts,
    at: &Location,
) -> Result<Vec<Cell>, Fail> {
    let from = CellKey::Local(parts.map, parts.low, 0);
    match world.locate(at) {
        None => Err(Fail::from("no such site")),
        Some(site) => Ok(world.scan(alloc, site, &from, 100)?),
    }
}

/// Adds a blank and three letters for each local row of a location, in the order of its keys: the span, `+` or `-`, the mark.
fn push_rows(
    alloc: Global,
    world: &mut MemoryWorld,
    parts: &Parts,
    at: &Location,
    number: u64,
    shown: &mut Vec<u8>,
) -> Result<(), Fail> {
    let cells = cells_at(alloc, world, parts, at)?;
    for cell in &cells {
        if let Cell::Local(row) = cell {
            shown.push(b' ')?;
            shown.push(letter_of(parts, &row.span))?;
            shown.push(sign_of(row.status))?;
            shown.push(mark_of(number, row))?;
        }
    }
    Ok(())
}

/// `L` while an operation is logged, else `-`; then `a` and the local rows at the first location, then `b` and those at the second one. A row
/// is its span, `+` or `-`, and its mark: `.` Plain, `o` Old and `n` New of the operation of this number, `O` and `N` of another one.
pub(crate) fn shown(
    alloc: Global,
    world: &mut MemoryWorld,
    parts: &Parts,
    number: u64,
) -> Result<Vec<u8>, Fail> {
    let mut shown = Vec::new(alloc);
    shown.push(if logged(alloc, world)? == 0 {
        b'-'
    } else {
        b'L'
    })?;
    shown.extend_from_slice(b" a")?;
    push_rows(alloc, world, parts, &parts.here, number, &mut shown)?;
    shown.extend_from_slice(b" b")?;
    push_rows(alloc, world, parts, &parts.there, number, &mut shown)?;
    Ok(shown)
}
