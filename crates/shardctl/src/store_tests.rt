//! The program over the files of a folder: what one run leaves the next one opens, and what can't be opened.
use crate::edge_tests::failing_after;
use plain_model::finish::RunStatus;
use script_runs::images::location;
use script_runs::worlds::words_in;
use script_shell::shell::run_script;
use shardctl_program::program::{run, tell};
use sqlite::{Connection, params};
use std::alloc::Global;
use std::fs;
use std::test::Fail;
use world_memory::source::MemorySource;
use world_sqlite::SqliteWorld;

/// Bytes that are no database, longer than its head would be.
const GARBAGE: &[u8] =
    b"this is no database at all, and longer than its head would be, which is a hundred bytes, as it goes on";

/// Whether the program with these words has this status on a script, and writes this.
fn ends_so(
    rt: &HostRuntime,
    line: &str,
    script: &[u8],
    status: RunStatus,
    output: &[u8],
) -> Result<bool, Fail> {
    let words = words_in(rt.alloc(), line)?;
    let mut written: Vec<u8> = Vec::new(rt.alloc());
    let ended = run(rt, &words, script, &mut written);
    Ok(ended == status && written.as_slice() == output)
}

/// Whether a status is told by this line, and is this exit status.
fn is_told(alloc: Global, status: &RunStatus, number: u8, line: &[u8]) -> bool {
    let mut told: Vec<u8> = Vec::new(alloc);
    tell(alloc, status, &mut told) == number && told.as_slice() == line
}

/// An empty folder.
fn make_folder(rt: &HostRuntime, folder: &str) -> Result<(), Fail> {
    let _ = fs::remove_dir_all(rt, folder);
    fs::create_dir(rt, folder)?;
    Ok(())
}

/// A map with a shard and a mapping.
const START: &[u8] = b"map m range int\nshard m s/a\nadd m 0 10 s/a\n";

const LIST: &[u8] = b"list m\n";

const LISTED: &[u8] = b"mappings 1\n0 10 s/a online\n";

/// What the program writes on the first of these scripts.
const STARTED: &[u8] = b"ok\nok\nok\n";

#[test]
fn what_one_run_leaves_the_next_one_opens(rt: HostRuntime) -> Result<(), Fail> {
    make_folder(&rt, "shardctl_kept")?;
    let line = "--store shardctl_kept s/a";
    assert!(rt; ends_so(&rt, line, START, RunStatus::Done, STARTED)?);
    assert!(rt; ends_so(&rt, line, LIST, RunStatus::Done, LISTED)?);
    // in memory nothing is kept
    assert!(rt; ends_so(&rt, "s/a", LIST, RunStatus::Refused, b"no-map\n")?);
    fs::remove_dir_all(&rt, "shardctl_kept")?;
    Ok(())
}

#[test]
fn a_store_needs_its_folder(rt: HostRuntime) -> Result<(), Fail> {
    for line in ["--store", "s/a --store f"] {
        assert!(rt; ends_so(&rt, line, START, RunStatus::BadWords(2), b"")?);
    }
    assert!(rt; fs::metadata(&rt, "f").is_err(), "no folder is made");
    Ok(())
}

/// Puts a row of kind 1 whose value is no cell into the global store of a folder.
fn add_bad_row(rt: &HostRuntime, path: &str) -> Result<(), Fail> {
    let mut conn = Connection::open(rt, path)?;
    conn.execute(
        "CREATE TABLE IF NOT EXISTS cells (t INTEGER NOT NULL, k BLOB NOT NULL, v BLOB NOT NULL, PRIMARY KEY (t, k)) STRICT",
        &[],
    )?;
    let key = b"m\0".as_slice();
    let value = [1u8, 1].as_slice();
    conn.execute(
        "INSERT INTO cells (t, k, v) VALUES (1, ?1, ?2)",
        params![key, value],
    )?;
    Ok(())
}

/// Whether a list of the map over a folder at `s/a` ends with a store fault, and is asked nothing.
fn asks_nothing(rt: &HostRuntime, folder: &str, line: &str) -> Result<bool, Fail> {
    let alloc = rt.alloc();
    let words = words_in(alloc, line)?;
    let here = location(b"s/a")?;
    let out: Vec<u8> = Vec::new(alloc);
    let world = SqliteWorld::at_folder(rt, folder, out, &[here])?;
    let mut source = MemorySource::new(LIST.to_vec(alloc)?);
    let (finish, _world) = run_script(alloc, &words, world, &mut source);
    Ok(finish.status == RunStatus::StoreFault && finish.history.len() == 0)
}

#[test]
fn a_row_that_is_no_cell_is_a_store_fault(rt: HostRuntime) -> Result<(), Fail> {
    make_folder(&rt, "shardctl_bad_row")?;
    add_bad_row(&rt, "shardctl_bad_row/global.db")?;
    let line = "--store shardctl_bad_row s/a";
    assert!(rt; ends_so(&rt, line, LIST, RunStatus::StoreFault, b"")?);
    let told = b"shardctl: store fault\n";
    assert!(rt; is_told(rt.alloc(), &RunStatus::StoreFault, 5, told));
    assert!(rt; asks_nothing(&rt, "shardctl_bad_row", line)?);
    fs::remove_dir_all(&rt, "shardctl_bad_row")?;
    Ok(())
}

#[test]
fn a_folder_that_is_not_there_is_a_store_fault(rt: HostRuntime) -> Result<(), Fail> {
    let _ = fs::remove_dir_all(&rt, "shardctl_none");
    let line = "--store shardctl_none s/a";
    assert!(rt; ends_so(&rt, line, START, RunStatus::StoreFault, b"")?);
    assert!(rt;
        fs::metadata(&rt, "shardctl_none").is_err(),
        "it isn't made"
    );
    Ok(())
}

/// Whether the program, on a script that needs the store at `s/b` too, ends with a store fault and leaves its file.
fn leaves_a_file(rt: &HostRuntime, path: &str) -> Result<bool, Fail> {
    let line = "--store shardctl_garbage s/a s/b";
    let script = b"unmap m\nshard m s/b\n";
    fs::write(rt, path, GARBAGE)?;
    let ended = ends_so(rt, line, script, RunStatus::StoreFault, b"")?;
    Ok(ended && fs::read(rt, path)?.as_slice() == GARBAGE)
}

#[test]
fn a_file_that_is_no_database_is_a_store_fault(rt: HostRuntime) -> Result<(), Fail> {
    make_folder(&rt, "shardctl_garbage")?;
    let line = "--store shardctl_garbage s/a";
    assert!(rt; ends_so(&rt, line, START, RunStatus::Done, STARTED)?);
    assert!(rt; leaves_a_file(&rt, "shardctl_garbage/s@b.db")?);
    assert!(rt;
        ends_so(&rt, line, LIST, RunStatus::Done, LISTED)?,
        "nothing is changed"
    );
    fs::remove_dir_all(&rt, "shardctl_garbage")?;
    Ok(())
}

/// Whether a second run over a folder ends with a store fault while a world has it.
fn is_held(rt: &HostRuntime, folder: &str, line: &str) -> Result<bool, Fail> {
    let out: Vec<u8> = Vec::new(rt.alloc());
    let _world = SqliteWorld::at_folder(rt, folder, out, &[])?;
    ends_so(rt, line, START, RunStatus::StoreFault, b"")
}

#[test]
fn one_run_has_a_folder_at_a_time(rt: HostRuntime) -> Result<(), Fail> {
    make_folder(&rt, "shardctl_locked")?;
    let line = "--store shardctl_locked s/a";
    assert!(rt; is_held(&rt, "shardctl_locked", line)?);
    assert!(rt; ends_so(&rt, line, START, RunStatus::Done, STARTED)?);
    fs::remove_dir_all(&rt, "shardctl_locked")?;
    Ok(())
}

/// Whether a run whose output has room for so many bytes ends with a write fault, and writes these.
fn is_cut(rt: &HostRuntime, line: &str, room: usize, taken: &[u8]) -> Result<bool, Fail> {
    let words = words_in(rt.alloc(), line)?;
    let mut output = failing_after(rt.alloc(), room);
    let status = run(rt, &words, START, &mut output);
    Ok(status == RunStatus::WriteFault && output.taken.as_slice() == taken)
}

/// The second reply can't be written whole: its command is done, and the third isn't asked.
#[test]
fn each_reply_is_written_when_its_command_is_done(rt: HostRuntime) -> Result<(), Fail> {
    make_folder(&rt, "shardctl_closed")?;
    let line = "--store shardctl_closed s/a";
    assert!(rt; is_cut(&rt, line, 4, b"ok\no")?);
    let told = b"shardctl: write fault\n";
    assert!(rt; is_told(rt.alloc(), &RunStatus::WriteFault, 4, told));
    let script = b"shards m\nlist m\n";
    let listed = b"shards 1\ns/a\nmappings 0\n";
    assert!(rt; ends_so(&rt, line, script, RunStatus::Done, listed)?);
    fs::remove_dir_all(&rt, "shardctl_closed")?;
    Ok(())
}

/// Whether a run at `s/a` alone over a folder that names `s/z` ends by this, and tells it.
fn is_unknown(rt: &HostRuntime, line: &str) -> Result<bool, Fail> {
    let unknown = location(b"s/z")?;
    let status = RunStatus::UnknownLocation(unknown);
    let told = b"shardctl: unknown location s/z\n";
    Ok(is_told(rt.alloc(), &status, 8, told) && ends_so(rt, line, b"unmap m\n", status, b"")?)
}

#[test]
fn a_location_that_the_words_lack_is_told(rt: HostRuntime) -> Result<(), Fail> {
    make_folder(&rt, "shardctl_unknown")?;
    let line = "--store shardctl_unknown s/a s/z";
    let script = b"map m range int\nshard m s/z\n";
    assert!(rt; ends_so(&rt, line, script, RunStatus::Done, b"ok\nok\n")?);
    assert!(rt; is_unknown(&rt, "--store shardctl_unknown s/a")?);
    let line = "--store shardctl_unknown s/z";
    assert!(rt;
        ends_so(
            &rt,
            line,
            b"shards m\n",
            RunStatus::Done,
            b"shards 1\ns/z\n"
        )?,
        "nothing is changed"
    );
    fs::remove_dir_all(&rt, "shardctl_unknown")?;
    Ok(())
}
