//! What stands in stores, as text: a line for each logged operation, then one for each row at a shard.

use crate::judge::rows_at;
use crate::words::{here, there};
use cell_world::cells::{Cell, LocalRow, Mark, Status};
use cell_world::locations::Location;
use cell_world::norm_keys::NormKey;
use global_tables::lists::log_rows;
use std::alloc::Global;
use std::test::Fail;
use world_memory::world::MemoryWorld;

/// The number that is this key of an int map.
fn number_of(key: &NormKey) -> u32 {
    let mut number: u32 = 0;
    for byte in key.as_slice() {
        number = number.wrapping_mul(256).wrapping_add(u32::from(*byte));
    }
    number.wrapping_sub(1 << 31)
}

fn status_word(status: Status) -> &'static str {
    match status {
        Status::Online => "online",
        Status::Offline => "offline",
    }
}

/// How far the row is: the operation of this number deletes it, it made the row, or none is under way.
fn mark_words(alloc: Global, mark: Mark) -> Result<String, Fail> {
    Ok(match mark {
        Mark::Plain => format!(in alloc; "plain")?,
        Mark::Old(number) => format!(in alloc; "old {number}")?,
        Mark::New => format!(in alloc; "new")?,
    })
}

/// A row: its site, its low key, the operation that made it, how far it is, and its status.
fn row_line(alloc: Global, site: &str, row: &LocalRow) -> Result<String, Fail> {
    let low = number_of(row.span.low());
    let number = row.number;
    let mark = mark_words(alloc, row.mark)?;
    let status = status_word(row.status);
    Ok(format!(in alloc; "{site} {low} {number} {mark} {status}\n")?)
}

/// Adds a line for each row at a site.
fn add_rows(
    alloc: Global,
    told: &mut String,
    world: &mut MemoryWorld,
    site: &str,
    at: &Location,
) -> Result<(), Fail> {
    for cell in rows_at(alloc, world, at)?.as_slice() {
        match cell {
            Cell::Local(row) => told.push_str(row_line(alloc, site, row)?.as_str())?,
            _ => return Err(Fail::from("no row")),
        }
    }
    Ok(())
}

/// What stands: the numbers of the logged operations, and the rows at both sites.
pub fn told(alloc: Global, world: &mut MemoryWorld) -> Result<String, Fail> {
    let mut told = String::new(alloc);
    for op in log_rows(alloc, world)?.as_slice() {
        let number = op.number;
        told.push_str(format!(in alloc; "log {number}\n")?.as_str())?;
    }
    add_rows(alloc, &mut told, world, "s/a", &here()?)?;
    add_rows(alloc, &mut told, world, "s/b", &there()?)?;
    Ok(told)
}
