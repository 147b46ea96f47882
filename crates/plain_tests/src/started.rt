//! States that no script of these commands leads to: sites that are away, a job, and tables that no sound image stands for.
use crate::asked::{empty, first_wrong};
use cell_world::cells::Away;
use cell_world::key_texts::KeyText;
use cell_world::locations::Location;
use cell_world::names::Name;
use cell_world::operations::{JobRow, Phase};
use cell_world::spans::High;
use command_scripts::Line;
use plain_map::asking::PlainMap;
use plain_tables::changes::{drop_shard, put_shard, put_table};
use std::alloc::Global;
use std::test::Fail;

fn name(text: &str) -> Result<Name, Fail> {
    Ok(Name::read(text.as_bytes()).ok_or("a name")?)
}

fn location(text: &str) -> Result<Location, Fail> {
    Ok(Location::read(text.as_bytes()).ok_or("a location")?)
}

/// The site is in this state.
fn put_away(plain: &mut PlainMap, at: &str, away: Away) -> Result<(), Fail> {
    plain.tables.away.insert(location(at)?, away)?;
    Ok(())
}

/// A job moves the keys from 0 on of the map.
fn put_job(plain: &mut PlainMap, map: &str, source: &str, target: &str) -> Result<(), Fail> {
    let map = name(map)?;
    let zero = KeyText::read(b"0").ok_or("a word")?;
    let low = plain.tables.key_in(&map, &zero).ok_or("a key")?;
    let source = location(source)?;
    let target = location(target)?;
    plain.tables.jobs.insert(
        1,
        JobRow {
            number: 1,
            map,
            low,
            high: High::Max,
            source,
            target,
            batch: 1,
            cursor: High::At(low),
            phase: Phase::Idle,
        },
    )?;
    Ok(())
}

/// The program after these lines, which are answered as they tell.
fn after(alloc: Global, lines: &[Line]) -> Result<PlainMap, Fail> {
    let mut plain = empty(alloc)?;
    match first_wrong(alloc, &mut plain, lines, "")? {
        None => Ok(plain),
        Some(line) => Err(line.into()),
    }
}

/// The site `s/a` goes away after these.
static BEFORE: [Line; 20] = [
    ("map m range int", "ok"),
    ("map n range int", "ok"),
    ("map l list int", "ok"),
    ("map k list int", "ok"),
    ("shard m s/a", "ok"),
    ("shard m s/b", "ok"),
    ("shard n s/b", "ok"),
    ("shard l s/a", "ok"),
    ("shard k s/b", "ok"),
    ("add m 0 10 s/a", "ok"),
    ("lock m 0 00000000-0000-0001-0000-000000000000", "ok"),
    ("add m 10 20 s/a", "ok"),
    ("add m 20 30 s/a", "ok"),
    ("offline m 20", "ok"),
    ("add m 40 50 s/b", "ok"),
    ("offline m 40", "ok"),
    ("add n 0 10 s/b", "ok"),
    ("addpoint l 1 s/a", "ok"),
    ("addpoint k 1 s/b", "ok"),
    ("find m 45", "40 50 s/b offline"),
];

/// What the site's state answers, and what comes before it and after it.
static AWAY: [Line; 45] = [
    // no-map and the site
    ("shard x s/a", "no-map"),
    // the site and shard-exists
    ("shard m s/a", "site"),
    ("shard n s/a", "site"),
    // not-a-shard and the site
    ("unshard n s/a", "not-a-shard"),
    // the site and shard-in-use
    ("unshard m s/a", "site"),
    // not-a-shard and the site
    ("add n 10 20 s/a", "not-a-shard"),
    // the site and overlap
    ("add m 5 6 s/a", "site"),
    ("add m 30 40 s/a", "site"),
    // not-a-shard and the site
    ("addpoint k 2 s/a", "not-a-shard"),
    // the site and overlap
    ("addpoint l 1 s/a", "site"),
    ("addpoint l 2 s/a", "site"),
    // the site and locked
    ("delete m 5", "site"),
    ("offline m 5", "site"),
    ("online m 5", "site"),
    ("move m 5 s/z", "site"),
    ("split m 5", "site"),
    ("merge m 5", "site"),
    ("lock m 5 00000000-0000-0001-0000-000000000000", "site"),
    ("unlock m 5 00000000-0000-0002-0000-000000000000", "site"),
    // the site and not-offline
    ("delete m 15", "site"),
    ("delete m 25", "site"),
    // the site and same-status
    ("offline m 25", "site"),
    ("offline m 15", "site"),
    ("online m 15", "site"),
    ("online m 25", "site"),
    ("unlock m 15 00000000-0000-0001-0000-000000000000", "site"),
    ("lock m 15 00000000-0000-0001-0000-000000000000", "site"),
    // the site and bad-split
    ("split m 10", "site"),
    // the site and not-mergeable
    ("merge m 25", "site"),
    // the site and offline
    ("open 1 m 25", "site"),
    ("open 1 m 15", "site"),
    // bad-key and no-mapping come before
    ("open 1 m y", "bad-key"),
    ("open 1 m 35", "no-mapping"),
    // the site of the owner
    ("move m 25 s/b", "site"),
    // not-a-shard and the site of the location
    ("move n 5 s/a", "not-a-shard"),
    // the site of the location, of a mapping online and of one offline
    ("move m 45 s/a", "site"),
    ("online m 45", "ok"),
    // the site of the location and not-offline
    ("move m 45 s/a", "site"),
    // no site is asked for by these
    (
        "find m 5",
        "0 10 s/a online 00000000-0000-0001-0000-000000000000",
    ),
    ("list l", "mappings 1\n1 s/a online"),
    ("shards l", "shards 1\ns/a"),
    ("table l t", "ok"),
    // nor elsewhere
    ("open 1 m 45", "at s/b"),
    ("offline m 45", "ok"),
    ("delete m 45", "ok"),
];

#[test]
fn at_a_detached_site(rt: HostRuntime) -> Result<(), Fail> {
    let alloc = rt.alloc();
    let mut plain = after(alloc, &BEFORE)?;
    put_away(&mut plain, "s/a", Away::Detached)?;
    assert_eq!(rt; first_wrong(alloc, &mut plain, &AWAY, "detached")?, None);
    Ok(())
}

#[test]
fn at_a_suspect_site(rt: HostRuntime) -> Result<(), Fail> {
    let alloc = rt.alloc();
    let mut plain = after(alloc, &BEFORE)?;
    put_away(&mut plain, "s/a", Away::Suspect)?;
    assert_eq!(rt; first_wrong(alloc, &mut plain, &AWAY, "unresolved")?, None);
    Ok(())
}

/// In `move` the owner's site comes before that of the location.
#[test]
fn between_two_sites(rt: HostRuntime) -> Result<(), Fail> {
    let alloc = rt.alloc();
    let mut plain = after(alloc, &BEFORE)?;
    put_away(&mut plain, "s/a", Away::Detached)?;
    put_away(&mut plain, "s/b", Away::Suspect)?;
    let lines = [
        ("move m 25 s/b", "detached"),
        ("move m 45 s/a", "unresolved"),
    ];
    assert_eq!(rt; first_wrong(alloc, &mut plain, &lines, "")?, None);
    Ok(())
}

/// A job's target is in use, of its map alone; its source is where mappings are.
#[test]
fn with_a_job(rt: HostRuntime) -> Result<(), Fail> {
    let alloc = rt.alloc();
    let mut plain = after(
        alloc,
        &[
            ("map m range int", "ok"),
            ("map n range int", "ok"),
            ("shard m s/a", "ok"),
            ("shard m s/b", "ok"),
            ("shard m s/c", "ok"),
            ("shard n s/b", "ok"),
            ("add m 0 10 s/a", "ok"),
        ],
    )?;
    put_job(&mut plain, "m", "s/c", "s/b")?;
    let lines = [
        ("unshard m s/b", "shard-in-use"),
        ("unshard n s/b", "ok"),
        ("unshard m s/a", "shard-in-use"),
        ("unshard m s/c", "ok"),
        ("shards m", "shards 2\ns/a\ns/b"),
    ];
    assert_eq!(rt; first_wrong(alloc, &mut plain, &lines, "")?, None);
    Ok(())
}

/// Refusals that hold together only in tables of no sound image.
#[test]
fn in_tables_that_are_not_sound(rt: HostRuntime) -> Result<(), Fail> {
    let alloc = rt.alloc();
    let mut plain = after(
        alloc,
        &[
            ("map m range int", "ok"),
            ("shard m s/a", "ok"),
            ("add m 0 10 s/a", "ok"),
        ],
    )?;
    put_shard(&mut plain.tables.shards, &name("x")?, &location("s/a")?)?;
    put_table(&mut plain.tables.tables, &name("x")?, &name("t")?)?;
    put_shard(&mut plain.tables.shards, &name("m")?, &location("s/z")?)?;
    put_away(&mut plain, "s/z", Away::Detached)?;
    drop_shard(&mut plain.tables.shards, &name("m")?, &location("s/a")?);
    let lines = [
        // no-map and map-in-use
        ("unmap x", "no-map"),
        // no-map and table-exists
        ("table x t", "no-map"),
        // no-location, detached and shard-exists
        ("shard m s/z", "no-location"),
        ("unshard m s/z", "no-location"),
        // not-a-shard and shard-in-use
        ("unshard m s/a", "not-a-shard"),
        // not-a-shard and same-shard
        ("move m 5 s/a", "not-a-shard"),
    ];
    assert_eq!(rt; first_wrong(alloc, &mut plain, &lines, "")?, None);
    Ok(())
}
