//! Times the cells of a folder's global store: `bench_sqlite FOLDER WHAT THOUSANDS CALLS`, where WHAT is fill, commit, read or floor. Writes how many cells were put or found.
#![tactic(auto)]

ghost use Rattle.std.specs.Prelude.{IsTrue, IfOk};
ghost use Rattle.cell_world.specs.Spelled.{is_spelled};

use anyhow::{Context, Error, bail};
use cell_world::cells::{Cell, CellKey, RowName, Site};
use cell_world::changes::Change;
use cell_world::items::RowBytes;
use cell_world::names::Name;
use cell_world::norm_keys::NormKey;
use cell_world::outside::World;
use std::alloc::Global;
use std::env;
use world_sqlite::SqliteWorld;

/// The name of the row of a number. The keys of numbers that follow each other are far apart.
fn row_name(number: u32) -> Result<RowName, Error> {
    let stirred = number.wrapping_mul(0x9e37_79b1);
    let map = Name::read(b"m").context("a name")?;
    let key = NormKey::of_bytes(&stirred.to_be_bytes()).context("a key")?;
    let table = Name::read(b"t").context("a name")?;
    Ok(RowName {
        map,
        key,
        table,
        number: 1,
    })
}

/// The row of a number, with a value of 60 bytes.
fn row_cell(alloc: Global, number: u32) -> Result<Cell, Error>
    ensures { IfOk result (λ cell. IsTrue (is_spelled cell)) }
{
    let bytes = vec![in alloc; 7u8; 60]?;
    let value = RowBytes::from_vec(bytes).context("a value")?;
    Ok(Cell::Row(row_name(number)?, value))
}

/// Puts the cells of so many numbers from one on, in one change.
fn put_cells<W: World>(world: &mut W, alloc: Global, from: u32, count: u32) -> Result<(), Error> {
    let mut change = Change::empty(alloc);
    for step in 0..count {
        let cell = row_cell(alloc, from.wrapping_add(step))?;
        if change.put(cell).is_err() {
            bail!("out of memory");
        }
    }
    if world.commit(alloc, Site::GLOBAL, &change).is_err() {
        bail!("a commit failed");
    }
    Ok(())
}

/// Puts so many thousand cells, a thousand a change.
fn fill<W: World>(world: &mut W, alloc: Global, thousands: u32) -> Result<u32, Error> {
    for part in 0..thousands {
        put_cells(world, alloc, part.wrapping_mul(1000), 1000)?;
    }
    Ok(thousands.wrapping_mul(1000))
}

/// Puts so many more cells, each by a change of its own.
fn commit<W: World>(
    world: &mut W,
    alloc: Global,
    thousands: u32,
    calls: u32,
) -> Result<u32, Error> {
    let first = thousands.wrapping_mul(1000);
    for call in 0..calls {
        put_cells(world, alloc, first.wrapping_add(call), 1)?;
    }
    Ok(calls)
}

/// The number of a call's cell, one of those that were put.
fn called(thousands: u32, call: u32) -> Result<u32, Error> {
    let count = thousands.wrapping_mul(1000);
    let number = call.wrapping_mul(7919);
    number.checked_rem(count).context("no cells")
}

/// Whether a call finds a cell: the one of its number, or the greatest up to a key just after it.
fn finds<W: World>(
    world: &mut W,
    alloc: Global,
    is_floor: bool,
    number: u32,
) -> Result<bool, Error> {
    let mut name = row_name(number)?;
    let found = if is_floor {
        name.number = 2;
        world.floor(alloc, Site::GLOBAL, &CellKey::Row(name))
    } else {
        world.read(alloc, Site::GLOBAL, &CellKey::Row(name))
    };
    match found {
        Ok(cell) => Ok(cell.is_some()),
        Err(_) => bail!("a call failed"),
    }
}

/// How many of so many calls find a cell.
fn find<W: World>(
    world: &mut W,
    alloc: Global,
    is_floor: bool,
    thousands: u32,
    calls: u32,
) -> Result<u32, Error> {
    let mut count = 0u32;
    for call in 0..calls {
        if finds(world, alloc, is_floor, called(thousands, call)?)? {
            count = count.wrapping_add(1);
        }
    }
    Ok(count)
}

/// Does what is asked, and says how many cells were put or found.
fn run<W: World>(
    world: &mut W,
    alloc: Global,
    what: &str,
    thousands: u32,
    calls: u32,
) -> Result<u32, Error> {
    match what {
        "fill" => fill(world, alloc, thousands),
        "commit" => commit(world, alloc, thousands, calls),
        "read" => find(world, alloc, false, thousands, calls),
        "floor" => find(world, alloc, true, thousands, calls),
        _ => bail!("WHAT is fill, commit, read or floor"),
    }
}

/// A number of the command line.
fn number_of(word: Option<String>) -> Result<u32, Error> {
    let word = word.context("FOLDER WHAT THOUSANDS CALLS")?;
    word.parse::<u32>().context("not a number")
}

/// Does what is asked in the store of a folder.
fn run_at(
    rt: &HostRuntime,
    folder: &str,
    what: &str,
    thousands: u32,
    calls: u32,
) -> Result<u32, Error> {
    let alloc = rt.alloc();
    let out: Vec<u8> = Vec::new(alloc);
    match SqliteWorld::at_folder(rt, folder, out, &[]) {
        Ok(mut world) => run(&mut world, alloc, what, thousands, calls),
        Err(_) => bail!("the folder is refused"),
    }
}

fn main(rt: HostRuntime) -> Result<(), Error> {
    let mut words = env::args(&rt)?;
    let _program = words.next();
    let folder = words.next().context("FOLDER WHAT THOUSANDS CALLS")?;
    let what = words.next().context("FOLDER WHAT THOUSANDS CALLS")?;
    let thousands = number_of(words.next())?;
    let calls = number_of(words.next())?;
    let count = run_at(&rt, folder.as_str(), what.as_str(), thousands, calls)?;
    println!(rt; "{count}")?;
    Ok(())
}
