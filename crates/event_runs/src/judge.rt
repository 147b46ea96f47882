//! A judge of stores, by what stands in them alone: no key is online at two sites, and the rows that count say what the
//! mappings say.

use crate::stores::crashed;
use crate::words::{here, key, map, there};
use cell_world::cells::{Cell, CellKey, LocalRow, Mark, Status};
use cell_world::locations::Location;
use cell_world::names::Name;
use cell_world::norm_keys::NormKey;
use cell_world::operations::{Op, Piece};
use cell_world::outside::World;
use global_tables::lists::{log_rows, pieces_of};
use std::alloc::Global;
use std::test::Fail;
use world_memory::world::MemoryWorld;

/// The local rows at a location.
pub fn rows_at(alloc: Global, world: &mut MemoryWorld, at: &Location) -> Result<Vec<Cell>, Fail> {
    let from = CellKey::Local(Name::least(), key(0)?, 0);
    match world.locate(at) {
        None => Err(Fail::from("no such location")),
        Some(site) => Ok(world.scan(alloc, site, &from, 1000)?),
    }
}

/// Whether one of the rows is online over the key.
fn is_online(rows: &[Cell], key: &NormKey) -> bool {
    rows.iter().any(|cell| match cell {
        Cell::Local(row) => row.status == Status::Online && row.span.contains(key),
        _ => false,
    })
}

/// Whether each of the keys from 0 to 9 is online at one site at most.
fn are_online_once(alloc: Global, world: &mut MemoryWorld) -> Result<bool, Fail> {
    let ours = rows_at(alloc, world, &here()?)?;
    let theirs = rows_at(alloc, world, &there()?)?;
    for number in 0..10 {
        let key = key(number)?;
        if is_online(ours.as_slice(), &key) && is_online(theirs.as_slice(), &key) {
            return Ok(false);
        }
    }
    Ok(true)
}

/// Whether it is a mapping at the location that has the key.
fn is_there(new: &Option<Piece>, key: &NormKey, at: &Location) -> bool {
    match new {
        None => false,
        Some(piece) => piece.span.contains(key) && piece.location.cmp(at).is_eq(),
    }
}

/// Whether the operation of this number is logged, and makes a mapping at the location that has the key.
fn is_coming(logged: &[Op], number: u64, key: &NormKey, at: &Location) -> bool {
    logged.iter().any(|op| {
        op.number == number && (is_there(&op.news.one, key, at) || is_there(&op.news.two, key, at))
    })
}

/// Whether the operation of this number is logged.
fn is_logged(logged: &[Op], number: u64) -> bool {
    logged.iter().any(|op| op.number == number)
}

/// Whether the row counts: it is plain, or old of an operation that is logged, or new of one that isn't.
fn counts(row: &LocalRow, logged: &[Op]) -> bool {
    match row.mark {
        Mark::Plain => true,
        Mark::Old(number) => is_logged(logged, number),
        Mark::New => !is_logged(logged, row.number),
    }
}

/// Whether the rows at the location that count say of the key what its mapping says: just one has it, with the status of
/// the mapping, where the mapping is there; and else none.
fn say_as_mapped(
    rows: &[Cell],
    mappings: &[Piece],
    logged: &[Op],
    key: &NormKey,
    at: &Location,
) -> bool {
    let mapping = mappings.iter().find(|piece| piece.span.contains(key)
        && piece.location.cmp(at).is_eq());
    let mut found = false;
    for cell in rows {
        if let Cell::Local(row) = cell
            && row.span.contains(key)
            && counts(row, logged)
        {
            match mapping {
                Some(piece) if piece.status == row.status && !found => found = true,
                _ => return false,
            }
        }
    }
    found == mapping.is_some()
}

/// Whether a row that doesn't count has its cause: it is old, of an operation that was committed; or new, of one that is logged and makes a
/// mapping there.
fn has_its_cause(row: &LocalRow, logged: &[Op], key: &NormKey, at: &Location) -> bool {
    row.mark != Mark::New || is_coming(logged, row.number, key, at)
}

/// Whether each of the rows at the location that have the key counts, or has its cause.
fn have_their_cause(rows: &[Cell], logged: &[Op], key: &NormKey, at: &Location) -> bool {
    rows.iter().all(|cell| match cell {
        Cell::Local(row) => {
            !row.span.contains(key) || counts(row, logged) || has_its_cause(row, logged, key, at)
        }
        _ => false,
    })
}

/// Whether the rows at the location say of each of the keys from 0 to 9 what its mapping says, and the others have their cause.
fn are_backed(alloc: Global, world: &mut MemoryWorld, at: &Location) -> Result<bool, Fail> {
    let rows = rows_at(alloc, world, at)?;
    let mappings = pieces_of(alloc, world, &map()?)?;
    let logged = log_rows(alloc, world)?;
    for number in 0..10 {
        let key = key(number)?;
        if !say_as_mapped(&rows, &mappings, &logged, &key, at)
            || !have_their_cause(&rows, &logged, &key, at)
        {
            return Ok(false);
        }
    }
    Ok(true)
}

/// Whether each of the keys from 0 to 9 is online at one site at most, and the rows say of it what its mapping says.
pub fn is_judged_sound(alloc: Global, world: &mut MemoryWorld) -> Result<bool, Fail> {
    Ok(
        are_online_once(alloc, world)?
            && are_backed(alloc, world, &here()?)?
            && are_backed(alloc, world, &there()?)?,
    )
}

/// Whether each image of the world is sound.
pub fn are_sound(alloc: Global, world: &MemoryWorld) -> Result<bool, Fail> {
    for moment in 0..=world.moment() {
        let mut image = crashed(alloc, world, moment)?;
        if !is_judged_sound(alloc, &mut image)? {
            return Ok(false);
        }
    }
    Ok(true)
}
