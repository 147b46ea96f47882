//! Several sessions at one core: what each event comes to, and what is written.

use cell_world::cells::{KeyType, MapKind};
use event_runs::runs::{GOOD, REFUSED, Run};
use event_runs::stores::empty_world;
use event_runs::words::{here, map, word};
use plain_model::commands::Command;
use std::alloc::Global;
use std::test::Fail;

/// Two sessions make a map with a shard in turn. Whether each event comes to what it is to come to.
fn make_in_turn(alloc: Global, run: &mut Run) -> Result<bool, Fail> {
    let map = map()?;
    let new_map = Command::Map(map, MapKind::Range, KeyType::Int);
    let made = run.ask(alloc, 1, new_map)?;
    let same_map = Command::Map(map, MapKind::List, KeyType::Guid);
    let again = run.ask(alloc, 2, same_map)?;
    let located = run.ask(alloc, 2, Command::Shard(map, here()?))?;
    Ok(made == GOOD && again == REFUSED && located == GOOD)
}

/// They make it, and ask of it in turn. Whether each event comes to what it is to come to.
fn ask_in_turn(alloc: Global, run: &mut Run) -> Result<bool, Fail> {
    let made = make_in_turn(alloc, run)?;
    let map = map()?;
    let told = run.ask(alloc, 1, Command::Shards(map))?;
    let unowned = run.ask(alloc, 2, Command::Find(map, word(b"0")?))?;
    Ok(made && told == GOOD && unowned == REFUSED)
}

/// What is written when two sessions ask in turn.
fn written(alloc: Global, tagged: bool) -> Result<Vec<u8>, Fail> {
    let mut run = Run::start(alloc, empty_world(alloc)?, 2, tagged)?;
    if ask_in_turn(alloc, &mut run)? {
        run.output(alloc)
    } else {
        Err(Fail::from("an event came to something else"))
    }
}

#[test]
fn each_line_has_its_session_where_lines_are_tagged(rt: HostRuntime) -> Result<(), Fail> {
    assert_eq!(rt;
        written(rt.alloc(), true)?.as_slice(),
        b"1 ok\n2 map-exists\n2 ok\n1 shards 1\n1 s/a\n2 no-mapping\n".as_slice()
    );
    assert_eq!(rt;
        written(rt.alloc(), false)?.as_slice(),
        b"ok\nmap-exists\nok\nshards 1\ns/a\nno-mapping\n".as_slice()
    );
    Ok(())
}

#[test]
fn the_history_has_each_event_in_order(rt: HostRuntime) -> Result<(), Fail> {
    let alloc = rt.alloc();
    let mut run = Run::start(alloc, empty_world(alloc)?, 2, true)?;
    assert!(rt; ask_in_turn(alloc, &mut run)?);
    assert_eq!(rt; run.length(), 5);
    assert_eq!(rt; run.standing(1)?.answered, 2);
    assert_eq!(rt; run.standing(2)?.answered, 3);
    let over = run.end(alloc)?;
    for (entry, session) in over.history.as_slice().iter().zip([1, 2, 2, 1, 2]) {
        assert_eq!(rt; entry.session, session);
    }
    Ok(())
}

#[test]
fn the_sixteenth_session_has_two_digits(rt: HostRuntime) -> Result<(), Fail> {
    let alloc = rt.alloc();
    let mut run = Run::start(alloc, empty_world(alloc)?, 16, true)?;
    let command = Command::Map(map()?, MapKind::Range, KeyType::Int);
    assert_eq!(rt; run.ask(alloc, 16, command)?, GOOD);
    assert_eq!(rt; run.output(alloc)?.as_slice(), b"16 ok\n".as_slice());
    Ok(())
}
