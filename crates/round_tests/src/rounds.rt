//! Three sessions go round by turns, each with commands of its own on mappings of all three. What they are answered is compared with the plain
//! map, and each image on the way, and each that a crash leaves, is judged.
ghost use Rattle.std.specs.Prelude.{◌≡◌, IfOk, true};
ghost use Rattle.map_ops.specs.Planning.{is_asked};

use cell_world::cells::{KeyType, MapKind};
use cell_world::outside::World;
use event_runs::commands::{add, delete, lock, merge, move_to, offline, online, split, unlock};
use event_runs::judge::are_sound;
use event_runs::listing::listed;
use event_runs::runs::{Over, Run};
use event_runs::stores::{crashed, empty_world};
use event_runs::words::{here, map, there};
use plain_map::asking::{PlainMap, is_built};
use plain_model::commands::Command;
use plain_model::history::Entry;
use plain_model::replies::Reply;
use script_lang::replies::write_reply;
use std::alloc::Global;
use std::test::Fail;
use world_memory::world::MemoryWorld;

/// What session 1 asks after so many answers. The first six make the map, and ranges of four keys each, from 0 to 12; the range from 0
/// on then goes to the other site and back.
fn first_asks(answered: u64) -> Result<Command, Fail>
    ensures { IfOk result (λ command. is_asked command ≡ true) }
{
    match answered {
        0 => Ok(Command::Map(map()?, MapKind::Range, KeyType::Int)),
        1 => Ok(Command::Shard(map()?, here()?)),
        2 => Ok(Command::Shard(map()?, there()?)),
        3 => add(b"0", b"4", here()?),
        4 => add(b"4", b"8", here()?),
        5 => add(b"8", b"12", there()?),
        _ => goes_and_comes(answered),
    }
}

fn goes_and_comes(answered: u64) -> Result<Command, Fail>
    ensures { IfOk result (λ command. is_asked command ≡ true) }
{
    match answered % 6 {
        0 | 3 => offline(b"0"),
        1 => move_to(b"0", there()?),
        4 => move_to(b"0", here()?),
        _ => online(b"0"),
    }
}

/// What session 2 asks: it cuts and joins, across the ranges of the others too, and locks one for a while.
fn second_asks(answered: u64) -> Result<Command, Fail>
    ensures { IfOk result (λ command. is_asked command ≡ true) }
{
    match answered % 6 {
        0 => split(b"2", None),
        1 => merge(b"0"),
        2 => lock(b"9"),
        3 => merge(b"4"),
        4 => split(b"6", None),
        _ => unlock(b"9"),
    }
}

/// What session 3 asks: a range goes for good, and is added anew at the other site.
fn third_asks(answered: u64) -> Result<Command, Fail>
    ensures { IfOk result (λ command. is_asked command ≡ true) }
{
    match answered % 6 {
        0 | 3 => offline(b"5"),
        1 => delete(b"5"),
        2 => add(b"4", b"8", there()?),
        4 => move_to(b"5", here()?),
        _ => online(b"5"),
    }
}

/// A session goes on, or asks its next command.
pub(crate) fn turn(alloc: Global, run: &mut Run, session: u32) -> Result<(), Fail> {
    let standing = run.standing(session)?;
    let _outcome = if standing.going {
        run.go(alloc, session)?
    } else {
        match session {
            1 => run.ask(alloc, 1, first_asks(standing.answered)?)?,
            2 => run.ask(alloc, 2, second_asks(standing.answered)?)?,
            _ => run.ask(alloc, session, third_asks(standing.answered)?)?,
        }
    };
    Ok(())
}

/// The map with its ranges stands.
pub(crate) fn begun(alloc: Global) -> Result<Run, Fail> {
    let mut run = Run::start(alloc, empty_world(alloc)?, 3, false)?;
    for _ in 0..100 {
        if !run.standing(1)?.going && run.standing(1)?.answered == 6 {
            return Ok(run);
        }
        turn(alloc, &mut run, 1)?;
    }
    Err(Fail::from("no ranges"))
}

/// The sessions have so many turns, in an order that the number says.
pub(crate) fn go_round(alloc: Global, run: &mut Run, turns: u32, order: u32) -> Result<(), Fail> {
    let mut order = order;
    for _ in 0..turns {
        // a common generator of random numbers
        order = order.wrapping_mul(1_103_515_245).wrapping_add(12_345);
        turn(alloc, run, (order >> 16) % 3 + 1)?;
    }
    Ok(())
}

/// What is left once they had them.
fn take_turns(alloc: Global, turns: u32, order: u32) -> Result<Over, Fail> {
    let mut run = begun(alloc)?;
    go_round(alloc, &mut run, turns, order)?;
    run.end(alloc)
}

/// What the plain map answers, as it is written.
pub(crate) fn plainly(
    alloc: Global,
    plain: &mut PlainMap,
    command: &Command,
) -> Result<Vec<u8>, Fail> {
    if !is_built(command) {
        return Err(Fail::from("a command that isn't built"));
    }
    let reply = plain.ask(1, command)?;
    Ok(write_reply(alloc, None, &reply)?)
}

/// Whether the plain map answers as the entry tells. An entry that waited changed nothing.
pub(crate) fn is_plain(alloc: Global, plain: &mut PlainMap, entry: &Entry) -> Result<bool, Fail> {
    match &entry.reply {
        None => Ok(false),
        Some(Reply::Pending(_)) => Ok(true),
        Some(reply) => {
            let wanted = plainly(alloc, plain, &entry.command)?;
            Ok(write_reply(alloc, None, reply)?.as_slice() == wanted.as_slice())
        }
    }
}

/// Asks the plain map what the entries from so many on, up to so many, were asked. Whether it answers as they tell.
fn agrees(
    alloc: Global,
    plain: &mut PlainMap,
    entries: &[Entry],
    asked: usize,
    made: usize,
) -> Result<bool, Fail> {
    for entry in entries.iter().take(made).skip(asked) {
        if !is_plain(alloc, plain, entry)? {
            return Ok(false);
        }
    }
    Ok(true)
}

/// How many of the entries were made by the moment.
pub(crate) fn made_by(entries: &[Entry], moment: u64) -> usize {
    entries
        .iter()
        .take_while(|entry| entry.moment <= moment)
        .count()
}

/// A plain map over both sites, in which nothing stands.
pub(crate) fn plain_map(alloc: Global) -> Result<PlainMap, Fail> {
    Ok(PlainMap::empty(alloc, &[here()?, there()?])?)
}

/// Which of the eight commands were done, and at the end whether one waited.
type Seen = [bool; 9];

/// Notes that a command was done.
fn note_done(seen: &mut Seen, command: &Command) {
    match command {
        Command::Delete(_, _, _) => seen[0] = true,
        Command::Offline(_, _, _) => seen[1] = true,
        Command::Online(_, _, _) => seen[2] = true,
        Command::Move(_, _, _, _) => seen[3] = true,
        Command::Split(_, _, _) => seen[4] = true,
        Command::Merge(_, _, _) => seen[5] = true,
        Command::Lock(_, _, _) => seen[6] = true,
        Command::Unlock(_, _, _) => seen[7] = true,
        _ => {}
    }
}

/// Notes what an entry shows.
fn note(seen: &mut Seen, entry: &Entry) {
    match &entry.reply {
        Some(Reply::Pending(_)) => seen[8] = true,
        Some(Reply::Ok) => note_done(seen, &entry.command),
        _ => {}
    }
}

/// Whether the plain map answers as all the entries tell.
fn agrees_with_all(alloc: Global, entries: &[Entry]) -> Result<bool, Fail> {
    let mut plain = plain_map(alloc)?;
    agrees(alloc, &mut plain, entries, 0, entries.len())
}

#[test]
fn whatever_the_order_the_plain_map_agrees(rt: HostRuntime) -> Result<(), Fail> {
    let alloc = rt.alloc();
    let mut seen = [false; 9];
    for order in 1..=8 {
        let over = take_turns(alloc, 60, order)?;
        let entries = over.history.as_slice();
        assert!(rt; agrees_with_all(alloc, entries)?, "order {order}");
        assert!(rt; are_sound(alloc, &over.world)?, "order {order}");
        for entry in entries {
            note(&mut seen, entry);
        }
    }
    assert!(rt; seen == [true; 9]);
    Ok(())
}

/// Whether a new run over the world goes through sound images alone.
fn opens_soundly(alloc: Global, world: MemoryWorld) -> Result<bool, Fail> {
    let run = Run::start(alloc, world, 1, false)?;
    let over = run.end(alloc)?;
    are_sound(alloc, &over.world)
}

/// Whether a crash at the moment leaves what the plain map lists, and a new run goes through sound images alone.
fn is_kept(
    alloc: Global,
    plain: &mut PlainMap,
    world: &MemoryWorld,
    moment: u64,
) -> Result<bool, Fail> {
    let wanted = plainly(alloc, plain, &Command::List(map()?))?;
    let (written, logged) = listed(alloc, crashed(alloc, world, moment)?)?;
    Ok(
        logged == 0
            && written.as_slice() == wanted.as_slice()
            && opens_soundly(alloc, crashed(alloc, world, moment)?)?,
    )
}

/// The first moment after whose crash something else is left than the plain map lists after the entries that were made by then.
fn first_lost(alloc: Global, over: &Over) -> Result<Option<u64>, Fail> {
    let entries = over.history.as_slice();
    let mut plain = plain_map(alloc)?;
    let mut asked = 0;
    for moment in 0..=over.world.moment() {
        let made = made_by(entries, moment);
        let agreed = agrees(alloc, &mut plain, entries, asked, made)?;
        asked = made;
        if !agreed || !is_kept(alloc, &mut plain, &over.world, moment)? {
            return Ok(Some(moment));
        }
    }
    Ok(None)
}

#[test]
fn whatever_the_order_a_crash_keeps_what_was_done(rt: HostRuntime) -> Result<(), Fail> {
    let alloc = rt.alloc();
    for order in 1..=4 {
        let over = take_turns(alloc, 60, order)?;
        assert_eq!(rt; first_lost(alloc, &over)?, None, "order {order}");
    }
    Ok(())
}
