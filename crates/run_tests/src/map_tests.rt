//! Scripts on maps and shards: what is refused, what stands after a crash, and what is found before anything is done.
use cell_world::cells::{Cell, KeyType, MapKind, Site};
use cell_world::changes::Change;
use cell_world::locations::Location;
use cell_world::names::Name;
use cell_world::outside::World;
use plain_model::finish::{Reason, RunStatus};
use script_runs::images::{crashed, location};
use script_runs::runs::{is, run_over, run_with};
use script_runs::worlds::{empty_world, words_in, world_of};
use sqlite_runs::{ends_so, run_at};
use std::alloc::Global;
use std::test::Fail;
use world_memory::world::MemoryWorld;

#[test]
fn an_empty_script_does_nothing(rt: HostRuntime) -> Result<(), Fail> {
    let alloc = rt.alloc();
    let after = run_over(alloc, empty_world(alloc)?, Vec::new(alloc));
    assert!(rt; is(alloc, &after, RunStatus::Done, b"")?);
    assert_eq!(rt; after.moment(), 0);
    Ok(())
}

/// A map is made twice.
const TWICE: &[u8] = b"map m range int\nmap m range int\n";

#[test]
fn a_second_map_of_one_name_is_refused(rt: HostRuntime) -> Result<(), Fail> {
    let alloc = rt.alloc();
    let after = run_over(alloc, empty_world(alloc)?, TWICE.to_vec(alloc)?);
    assert!(rt; is(alloc, &after, RunStatus::Refused, b"ok\nmap-exists\n")?);
    // the map, and two lines
    assert_eq!(rt; after.moment(), 3);
    Ok(())
}

#[test]
fn a_crash_keeps_what_was_committed(rt: HostRuntime) -> Result<(), Fail> {
    let alloc = rt.alloc();
    let after = run_over(alloc, empty_world(alloc)?, TWICE.to_vec(alloc)?);
    assert_eq!(rt; after.moment(), 3);
    let world = crashed(alloc, &after.world, 1)?;
    let again = run_over(alloc, world, b"map m range int\n".to_vec(alloc)?);
    assert!(rt; is(alloc, &again, RunStatus::Refused, b"map-exists\n")?);
    Ok(())
}

/// Whether a script without words has this status, and does and writes nothing.
fn does_nothing(alloc: Global, script: &[u8], status: RunStatus) -> Result<bool, Fail> {
    let after = run_over(alloc, empty_world(alloc)?, script.to_vec(alloc)?);
    Ok(after.moment() == 0 && is(alloc, &after, status, b"")?)
}

#[test]
fn a_bad_line_is_found_before_anything_is_done(rt: HostRuntime) -> Result<(), Fail> {
    let alloc = rt.alloc();
    let script = b"map m range int\nfrob\n";
    let status = RunStatus::BadScript(2, Reason::UnknownCommand);
    assert!(rt; does_nothing(alloc, script, status)?);
    // a command that isn't built yet is unknown
    let status = RunStatus::BadScript(1, Reason::UnknownCommand);
    assert!(rt; does_nothing(alloc, b"open 1 m 0\n", status)?);
    Ok(())
}

#[test]
fn the_words_are_locations(rt: HostRuntime) -> Result<(), Fail> {
    let alloc = rt.alloc();
    for (line, place) in [("s/a s/a", 2), ("-x", 1), ("x", 1), ("s/a s/b/c", 2)] {
        let after = run_at(alloc, line, b"map m range int\n")?;
        assert!(rt;
            is(alloc, &after, RunStatus::BadWords(place), b"")?,
            "{line}"
        );
        assert_eq!(rt; after.moment(), 0);
    }
    let script = b"map m range int\nshard m s/b\nshard m s/c\n";
    assert!(rt;
        ends_so(
            alloc,
            "s/a s/b",
            script,
            RunStatus::Refused,
            b"ok\nok\nno-location\n"
        )?
    );
    Ok(())
}

#[test]
fn maps_and_shards_are_made_and_removed(rt: HostRuntime) -> Result<(), Fail> {
    let alloc = rt.alloc();
    assert!(rt;
        ends_so(
            alloc,
            "s/a s/b",
            b"map m range int\nshard m s/a\nshard m s/b\nshards m\nunshard m s/b\nunshard m s/a\nunmap m\nlist m\n",
            RunStatus::Refused,
            b"ok\nok\nok\nshards 2\ns/a\ns/b\nok\nok\nok\nno-map\n",
        )?
    );
    assert!(rt;
        ends_so(
            alloc,
            "s/a",
            b"map m range guid\nunmap m\nunmap m\n",
            RunStatus::Refused,
            b"ok\nok\nno-map\n",
        )?
    );
    Ok(())
}

/// Each refusal of the commands that are built, as far as a script comes to it, in the order of the command table.
const REFUSALS: &[u8] = b"map m range int
map m list long
unmap n
shard n s/a
shard m s/z
shard m s/a
shard m s/a
unmap m
unshard n s/a
unshard m s/z
unshard m s/b
table n t
table m t
table m t
find n 1
find m x
find m 1
list n
list m
shards n
shards m
unshard m s/a
unmap m
";

/// What they are answered.
const ANSWERS: &[u8] = b"ok
map-exists
no-map
no-map
no-location
ok
shard-exists
map-in-use
no-map
no-location
not-a-shard
no-map
ok
table-exists
no-map
bad-key
no-mapping
no-map
mappings 0
no-map
shards 1
s/a
ok
ok
";

#[test]
fn each_refusal_has_its_reply(rt: HostRuntime) -> Result<(), Fail> {
    let alloc = rt.alloc();
    assert!(rt; ends_so(alloc, "s/a s/b", REFUSALS, RunStatus::Refused, ANSWERS)?);
    Ok(())
}

#[test]
fn each_kind_and_each_key_type_is_a_map(rt: HostRuntime) -> Result<(), Fail> {
    let alloc = rt.alloc();
    assert!(rt;
        ends_so(
            alloc,
            "s/a",
            b"map a range int\nmap b list long\nmap c range guid\nmap d list bytes\nmap e range datetime\nmap f list timespan\nfind f 1\n",
            RunStatus::Refused,
            b"ok\nok\nok\nok\nok\nok\nno-mapping\n",
        )?
    );
    Ok(())
}

/// A world at `s/a` with a map one of whose shards it doesn't know.
fn world_with_a_shard(alloc: Global, unknown: Location) -> Result<MemoryWorld, Fail> {
    let mut world = world_of(alloc, &words_in(alloc, "s/a")?)?;
    let name = Name::read(b"m").ok_or("a name")?;
    let mut change = Change::empty(alloc);
    change.put(Cell::Map(name, MapKind::Range, KeyType::Int))?;
    change.put(Cell::Shard(name, unknown))?;
    if world.commit(alloc, Site::GLOBAL, &change).is_err() {
        return Err("a commit".into());
    }
    Ok(world)
}

#[test]
fn an_unknown_location_stops_the_opening(rt: HostRuntime) -> Result<(), Fail> {
    let alloc = rt.alloc();
    let unknown = location(b"s/z")?;
    let world = world_with_a_shard(alloc, unknown)?;
    let before = world.moment();
    let after = run_with(alloc, &words_in(alloc, "s/a")?, world, Vec::new(alloc));
    assert!(rt; is(alloc, &after, RunStatus::UnknownLocation(unknown), b"")?);
    assert_eq!(rt; after.moment(), before);
    Ok(())
}
