//! What a world answers to all that is asked of its global store.

use crate::parts::{Parts, cell_of_kind, key_of_kind, make_parts};
use cell_world::cells::{Cell, CellKey, Site};
use cell_world::changes::Change;
use cell_world::outside::World;
use record_form::writing::write_cell;
use std::alloc::Global;
use std::test::Fail;

/// Adds the bytes of a cell, or 0 where there is none.
fn tell(alloc: Global, told: &mut Vec<u8>, found: Option<&Cell>) -> Result<(), Fail> {
    match found {
        Some(cell) => {
            let bytes = write_cell(alloc, cell)?;
            told.extend_from_slice(bytes.as_slice())?;
        }
        None => told.push(0)?,
    }
    Ok(())
}

/// Adds the first so many cells from a key on.
fn ask_scan<W: World>(
    world: &mut W,
    alloc: Global,
    key: &CellKey,
    limit: u32,
    told: &mut Vec<u8>,
) -> Result<(), Fail> {
    let cells = world.scan(alloc, Site::GLOBAL, key, limit)?;
    for cell in cells.as_slice() {
        tell(alloc, told, Some(cell))?;
    }
    told.push(0)?;
    Ok(())
}

/// Adds what is under a key, at or below it, and from it on.
fn ask_key<W: World>(
    world: &mut W,
    alloc: Global,
    key: &CellKey,
    told: &mut Vec<u8>,
) -> Result<(), Fail> {
    let read = world.read(alloc, Site::GLOBAL, key)?;
    tell(alloc, told, read.as_ref())?;
    let floor = world.floor(alloc, Site::GLOBAL, key)?;
    tell(alloc, told, floor.as_ref())?;
    for limit in [0, 1, 2, 99] {
        ask_scan(world, alloc, key, limit, told)?;
    }
    Ok(())
}

/// Adds the next key of a row, at or above a key or past it.
fn ask_next<W: World>(
    world: &mut W,
    alloc: Global,
    parts: &Parts,
    past: bool,
    told: &mut Vec<u8>,
) -> Result<(), Fail> {
    match world.next_key(alloc, Site::GLOBAL, &parts.map, &parts.key, past)? {
        Some(key) => told.extend_from_slice(key.as_slice())?,
        None => told.push(99)?,
    }
    Ok(())
}

/// All that the world answers about the parts of these numbers.
pub fn ask_all<W: World>(world: &mut W, alloc: Global, numbers: u8) -> Result<Vec<u8>, Fail> {
    let mut told: Vec<u8> = Vec::new(alloc);
    for number in 0..numbers {
        let parts = make_parts(number)?;
        for kind in 1..11u8 {
            ask_key(world, alloc, &key_of_kind(&parts, kind), &mut told)?;
        }
        ask_next(world, alloc, &parts, false, &mut told)?;
        ask_next(world, alloc, &parts, true, &mut told)?;
    }
    Ok(told)
}

/// Puts or deletes the cell of each kind, by turns: first the one, then the other.
fn add_edits(
    alloc: Global,
    change: &mut Change,
    number: u8,
    put_last: bool,
    both: bool,
) -> Result<(), Fail> {
    let parts = make_parts(number)?;
    for kind in 1..11u8 {
        if both || !put_last {
            change.put(cell_of_kind(alloc, &parts, kind)?)?;
            change.delete(key_of_kind(&parts, kind))?;
        }
        if put_last {
            change.put(cell_of_kind(alloc, &parts, kind)?)?;
        }
    }
    Ok(())
}

/// The change of a step: cells are put; one is put and deleted and another deleted and put; all but one go.
pub fn change_of(alloc: Global, step: u8) -> Result<Change, Fail> {
    let mut change = Change::empty(alloc);
    for number in [1, 2, 4] {
        match step {
            0 => add_edits(alloc, &mut change, number, true, false)?,
            1 => add_edits(alloc, &mut change, number + 1, number != 2, true)?,
            _ => add_edits(alloc, &mut change, number, false, false)?,
        }
    }
    Ok(change)
}

/// Makes the change of a step, and asks.
pub fn step<W: World>(world: &mut W, alloc: Global, step: u8) -> Result<Vec<u8>, Fail> {
    let change = change_of(alloc, step)?;
    world.commit(alloc, Site::GLOBAL, &change)?;
    ask_all(world, alloc, 7)
}
