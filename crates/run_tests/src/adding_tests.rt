//! Scripts that add mappings.
use plain_model::finish::RunStatus;
use script_runs::images::crashed;
use script_runs::runs::{Ran, run_with};
use script_runs::worlds::words_in;
use sqlite_runs::{ends_so, run_at};
use std::alloc::Global;
use std::test::Fail;

#[test]
fn a_range_up_to_the_unbounded_end_is_added(rt: HostRuntime) -> Result<(), Fail> {
    let alloc = rt.alloc();
    assert!(rt;
        ends_so(
            alloc,
            "s/a",
            b"map m range int\nshard m s/a\nadd m -2147483648 max s/a\nfind m -2147483648\nfind m 2147483647\n",
            RunStatus::Done,
            b"ok\nok\nok\n-2147483648 max s/a online\n-2147483648 max s/a online\n",
        )?
    );
    Ok(())
}

#[test]
fn ranges_may_touch_and_not_overlap(rt: HostRuntime) -> Result<(), Fail> {
    let alloc = rt.alloc();
    assert!(rt;
        ends_so(
            alloc,
            "s/a",
            b"map m range int\nshard m s/a\nadd m 0 100 s/a\nadd m 100 200 s/a\nadd m 99 101 s/a\nlist m\n",
            RunStatus::Refused,
            b"ok\nok\nok\nok\noverlap\nmappings 2\n0 100 s/a online\n100 200 s/a online\n",
        )?
    );
    Ok(())
}

#[test]
fn a_range_has_a_key(rt: HostRuntime) -> Result<(), Fail> {
    let alloc = rt.alloc();
    assert!(rt;
        ends_so(
            alloc,
            "s/a",
            b"map m range int\nshard m s/a\nadd m 5 5 s/a\nadd m 6 5 s/a\n",
            RunStatus::Refused,
            b"ok\nok\nbad-range\nbad-range\n",
        )?
    );
    Ok(())
}

#[test]
fn a_key_is_added_once(rt: HostRuntime) -> Result<(), Fail> {
    let alloc = rt.alloc();
    // zero bytes at the end of a bytes key don't count
    assert!(rt;
        ends_so(
            alloc,
            "s/a",
            b"map b list bytes\nshard b s/a\naddpoint b 0x0100 s/a\nfind b 0x01\naddpoint b 0x01 s/a\naddpoint b 0x s/a\naddpoint b 0x00 s/a\n",
            RunStatus::Refused,
            b"ok\nok\nok\n0x01 s/a online\noverlap\nok\noverlap\n",
        )?
    );
    Ok(())
}

#[test]
fn a_guid_is_added_once(rt: HostRuntime) -> Result<(), Fail> {
    let alloc = rt.alloc();
    let script = b"map g list guid
shard g s/a
addpoint g 00000000-0000-0000-0000-000000000002 s/a
find g 00000000-0000-0000-0000-000000000002
addpoint g 00000000-0000-0000-0000-000000000002 s/a
";
    let wanted = b"ok
ok
ok
00000000-0000-0000-0000-000000000002 s/a online
overlap
";
    assert!(rt; ends_so(alloc, "s/a", script, RunStatus::Refused, wanted)?);
    Ok(())
}

/// Each refusal of the commands that add, as far as a script comes to it, in the order of the command table.
const REFUSALS: &[u8] = b"map m range int
map l list int
shard m s/a
shard l s/a
add n 0 1 s/a
add l 0 1 s/a
add m x 1 s/a
add m max max s/a
add m 0 x s/a
add m 1 0 s/z
add m 0 1 s/z
add m 0 1 s/b
add m 0 1 s/a
add m 0 1 s/a
addpoint n 0 s/a
addpoint m 0 s/a
addpoint l x s/z
addpoint l 0 s/z
addpoint l 0 s/b
addpoint l 0 s/a
addpoint l 0 s/a
unshard m s/a
";

/// What they are answered.
const ANSWERS: &[u8] = b"ok
ok
ok
ok
no-map
wrong-kind
bad-key
bad-key
bad-key
bad-range
no-location
not-a-shard
ok
overlap
no-map
wrong-kind
bad-key
no-location
not-a-shard
ok
overlap
shard-in-use
";

#[test]
fn each_refusal_of_adding_has_its_reply(rt: HostRuntime) -> Result<(), Fail> {
    let alloc = rt.alloc();
    assert!(rt; ends_so(alloc, "s/a s/b", REFUSALS, RunStatus::Refused, ANSWERS)?);
    Ok(())
}

/// A script that adds the bytes key of so many digits `f`.
fn adds_a_key(alloc: Global, digits: usize) -> Result<Vec<u8>, Fail> {
    let mut script = b"map b list bytes\nshard b s/a\naddpoint b 0x".to_vec(alloc)?;
    for _ in 0..digits {
        script.push(b'f')?;
    }
    script.extend_from_slice(b" s/a\n")?;
    Ok(script)
}

#[test]
fn a_bytes_key_has_at_most_128_bytes(rt: HostRuntime) -> Result<(), Fail> {
    let alloc = rt.alloc();
    let fits = adds_a_key(alloc, 256)?;
    assert!(rt;
        ends_so(
            alloc,
            "s/a",
            fits.as_slice(),
            RunStatus::Done,
            b"ok\nok\nok\n"
        )?
    );
    let more = adds_a_key(alloc, 258)?;
    assert!(rt;
        ends_so(
            alloc,
            "s/a",
            more.as_slice(),
            RunStatus::Refused,
            b"ok\nok\nbad-key\n"
        )?
    );
    Ok(())
}

/// What a script finds that lists the mappings, adds one, and lists them again.
const DONE: &[u8] = b"mappings 1\n0 9 s/a online\noverlap\nmappings 1\n0 9 s/a online\n";

const UNDONE: &[u8] = b"mappings 0\nok\nmappings 1\n0 9 s/a online\n";

const NO_SHARD: &[u8] = b"mappings 0\nnot-a-shard\nmappings 0\n";

const NO_MAP: &[u8] = b"no-map\nno-map\nno-map\n";

/// What the script is to find after so many moments of a run that makes a map and a shard, and adds the mapping.
fn wanted_after(moment: u64) -> &'static [u8] {
    match moment {
        0 => NO_MAP,
        // the map, and its line
        1 | 2 => NO_SHARD,
        // the shard, and its line; the log row, and the row at the shard
        3..=6 => UNDONE,
        // the commit; the line, and the settling
        _ => DONE,
    }
}

/// What a script writes that lists the mappings, adds one, and lists them again, after a crash of a run at the moment.
fn found_after(alloc: Global, ran: &Ran, moment: u64) -> Result<Vec<u8>, Fail> {
    let world = crashed(alloc, &ran.world, moment)?;
    let words = words_in(alloc, "s/a")?;
    let script = b"list m\nadd m 0 9 s/a\nlist m\n".to_vec(alloc)?;
    run_with(alloc, &words, world, script).output(alloc)
}

#[test]
fn a_crash_leaves_an_add_done_or_undone(rt: HostRuntime) -> Result<(), Fail> {
    let alloc = rt.alloc();
    let script = b"map m range int\nshard m s/a\nadd m 0 9 s/a\n";
    let after = run_at(alloc, "s/a", script)?;
    assert_eq!(rt; after.moment(), 9);
    for moment in 0..=9 {
        let found = found_after(alloc, &after, moment)?;
        assert!(rt; found.as_slice() == wanted_after(moment), "after {moment}");
    }
    Ok(())
}
