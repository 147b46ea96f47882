//! What a script makes of empty stores, event for event, and what a crash leaves of it.

use cell_world::cells::{Cell, KeyType, MapKind, Mark};
use cell_world::outside::World;
use event_runs::judge::rows_at;
use event_runs::listing::{listed, logged};
use event_runs::runs::{GOOD, Run};
use event_runs::stores::{crashed, empty_world};
use event_runs::turns::Turn;
use event_runs::words::{here, map};
use global_tables::lists::pieces_of;
use manager_core::manager::Outcome;
use plain_model::commands::Command;
use std::alloc::Global;
use std::test::Fail;
use world_memory::world::MemoryWorld;

/// `map m range int`, `shard m s/a`: each makes one transaction and writes its line.
fn with_map(alloc: Global) -> Result<Run, Fail> {
    let mut run = Run::start(alloc, empty_world(alloc)?, 1, false)?;
    let map = map()?;
    let made = run.ask(alloc, 1, Command::Map(map, MapKind::Range, KeyType::Int))?;
    let shard = run.ask(alloc, 1, Command::Shard(map, here()?))?;
    if made == GOOD && shard == GOOD {
        Ok(run)
    } else {
        Err(Fail::from("no map"))
    }
}

/// `add m 0 10 s/a` up to its end. Adds how much has happened after each event.
fn add_whole(alloc: Global, run: &mut Run, moments: &mut Vec<u64>) -> Result<(), Fail> {
    let mut outcome = run.take(alloc, 1, Turn::Add(0, 10))?;
    for _ in 0..3 {
        moments.push(run.moment())?;
        if outcome == Outcome::Going(1) {
            outcome = run.go(alloc, 1)?;
        }
    }
    Ok(())
}

/// How much has happened before the `add`, after each of its events, and once the core has ended.
fn added(alloc: Global) -> Result<(Vec<u64>, MemoryWorld), Fail> {
    let mut run = with_map(alloc)?;
    let mut moments = Vec::new(alloc);
    moments.push(run.moment())?;
    add_whole(alloc, &mut run, &mut moments)?;
    let over = run.end(alloc)?;
    moments.push(over.world.moment())?;
    Ok((moments, over.world))
}

/// The log row, the row at the shard, the commit with its line, the settling.
#[test]
fn each_event_makes_its_one_transaction(rt: HostRuntime) -> Result<(), Fail> {
    let (moments, world) = added(rt.alloc())?;
    assert_eq!(rt; moments.as_slice(), [4, 5, 6, 8, 9].as_slice());
    assert_eq!(rt;
        world.output(rt.alloc())?.as_slice(),
        b"ok\nok\nok\n".as_slice()
    );
    Ok(())
}

/// What a crash leaves: how many operations are logged, how far the row at `s/a` is if there is one, and how many
/// mappings stand.
#[derive(Clone, Copy, PartialEq, Eq)]
struct Left {
    logged: usize,
    row: Option<Mark>,
    mappings: usize,
}

/// How far the one row is. `None` where there is no row.
fn mark_of(rows: &[Cell]) -> Result<Option<Mark>, Fail> {
    match rows {
        [] => Ok(None),
        [Cell::Local(row)] => Ok(Some(row.mark)),
        _ => Err(Fail::from("more than one row")),
    }
}

/// What a crash at the moment leaves.
fn left_after(alloc: Global, world: &MemoryWorld, moment: u64) -> Result<Left, Fail> {
    let mut image = crashed(alloc, world, moment)?;
    let rows = rows_at(alloc, &mut image, &here()?)?;
    Ok(Left {
        logged: logged(alloc, &mut image)?,
        row: mark_of(&rows)?,
        mappings: pieces_of(alloc, &mut image, &map()?)?.len(),
    })
}

/// What is to be left after so many moments of the run.
fn wanted_after(moment: u64) -> Left {
    let (logged, row, mappings) = match moment {
        // the map, the shard, and their lines
        4 => (0, None, 0),
        // the log row
        5 => (1, None, 0),
        // the row at the shard
        6 => (1, Some(Mark::New), 0),
        // the commit, and its line
        7 | 8 => (0, Some(Mark::New), 1),
        // the settling
        _ => (0, Some(Mark::Plain), 1),
    };
    Left {
        logged,
        row,
        mappings,
    }
}

#[test]
fn each_transaction_puts_its_cells(rt: HostRuntime) -> Result<(), Fail> {
    let (_moments, world) = added(rt.alloc())?;
    for moment in 4..=9 {
        let left = left_after(rt.alloc(), &world, moment)?;
        assert!(rt; left == wanted_after(moment), "after {moment}");
    }
    Ok(())
}

/// What `list m` writes in a new run after a crash at the moment, where no operation is logged any more.
fn listed_after(alloc: Global, world: &MemoryWorld, moment: u64) -> Result<Vec<u8>, Fail> {
    let (written, logged) = listed(alloc, crashed(alloc, world, moment)?)?;
    if logged == 0 {
        Ok(written)
    } else {
        Err(Fail::from("a log row is left"))
    }
}

#[test]
fn a_crash_keeps_the_mapping_from_its_commit_on(rt: HostRuntime) -> Result<(), Fail> {
    let (_moments, world) = added(rt.alloc())?;
    for moment in 4..=9 {
        let written = listed_after(rt.alloc(), &world, moment)?;
        if moment < 7 {
            assert_eq!(rt; written.as_slice(), b"mappings 0\n".as_slice());
        } else {
            assert_eq!(rt;
                written.as_slice(),
                b"mappings 1\n0 10 s/a online\n".as_slice()
            );
        }
    }
    Ok(())
}
