//! Worlds over the files of a folder: what they leave there, and what they refuse.

use crate::alike::plain_world;
use crate::asked::{ask_all, step};
use crate::parts::{cell_of_kind, key_of_kind, make_parts};
use cell_world::cells::{CellKey, Site};
use cell_world::locations::Location;
use cell_world::outside::{World, WorldError};
use record_form::ordering::order_bytes;
use record_form::writing::write_cell;
use sqlite::{Connection, File, FileStore, params};
use std::alloc::Global;
use std::fs;
use std::test::Fail;
use world_sqlite::SqliteWorld;

/// Bytes that are no database, longer than its head would be.
const GARBAGE: &[u8] =
    b"this is no database at all, and longer than its head would be, which is a hundred bytes, as it goes on";

type FileWorld = SqliteWorld<FileStore<File>, Vec<u8>>;

/// The world of a folder, with one location.
fn open(rt: &HostRuntime, folder: &str) -> Result<FileWorld, WorldError> {
    match Location::read(b"s/a") {
        Some(at) => SqliteWorld::at_folder(rt, folder, Vec::new(rt.alloc()), &[at]),
        None => Err(WorldError::Memory),
    }
}

/// Whether the world of a folder is refused, though there is memory.
fn is_refused(rt: &HostRuntime, folder: &str) -> bool {
    match open(rt, folder) {
        Err(error) => error == WorldError::Failed,
        Ok(_) => false,
    }
}

/// An empty folder.
fn make_folder(rt: &HostRuntime, folder: &str) -> Result<(), Fail> {
    let _ = fs::remove_dir_all(rt, folder);
    fs::create_dir(rt, folder)?;
    Ok(())
}

/// Puts a row into a file, which gets a table where it has none.
fn add_row(rt: &HostRuntime, path: &str, kind: u32, key: &[u8], value: &[u8]) -> Result<(), Fail> {
    let mut conn = Connection::open(rt, path)?;
    conn.execute(
        "CREATE TABLE IF NOT EXISTS cells (t INTEGER NOT NULL, k BLOB NOT NULL, v BLOB NOT NULL, PRIMARY KEY (t, k)) STRICT",
        &[],
    )?;
    conn.execute(
        "INSERT INTO cells (t, k, v) VALUES (?1, ?2, ?3)",
        params![kind, key, value],
    )?;
    Ok(())
}

/// Puts a row into a table of a file that no world knows.
fn add_note(rt: &HostRuntime, path: &str) -> Result<(), Fail> {
    let mut conn = Connection::open(rt, path)?;
    conn.execute("CREATE TABLE IF NOT EXISTS notes (n INTEGER)", &[])?;
    conn.execute("INSERT INTO notes (n) VALUES (7)", &[])?;
    Ok(())
}

/// How many rows that table has.
fn notes_in(rt: &HostRuntime, path: &str) -> Result<usize, Fail> {
    let mut conn = Connection::open(rt, path)?;
    let rows = conn.query_all("SELECT n FROM notes", &[])?;
    Ok(rows.len())
}

/// Makes a folder in whose global store stands the cell of a number.
fn make_store(rt: &HostRuntime, folder: &str, path: &str, number: u8) -> Result<(), Fail> {
    make_folder(rt, folder)?;
    let parts = make_parts(number)?;
    let key = order_bytes(rt.alloc(), &key_of_kind(&parts, 1))?;
    let value = write_cell(rt.alloc(), &cell_of_kind(rt.alloc(), &parts, 1)?)?;
    add_row(rt, path, 1, key.as_slice(), value.as_slice())
}

/// Whether a world of the folder finds a cell under the key in its global store.
fn has_cell(rt: &HostRuntime, folder: &str, key: &CellKey) -> Result<bool, WorldError> {
    let mut world = open(rt, folder)?;
    let found = world.read(rt.alloc(), Site::GLOBAL, key)?;
    Ok(found.is_some())
}

#[test]
fn a_folder_is_read_by_the_next_world(rt: HostRuntime) -> Result<(), Fail> {
    let alloc = rt.alloc();
    let folder = "sqlite_tests_kept";
    let path = "sqlite_tests_kept/global.db";
    make_folder(&rt, folder)?;
    add_note(&rt, path)?;
    let mut plain = plain_world(alloc)?;
    let expected = step(&mut plain, alloc, 0)?;
    let mut first = open(&rt, folder)?;
    assert!(rt; step(&mut first, alloc, 0)?.as_slice() == expected.as_slice());
    assert!(rt; is_refused(&rt, folder), "locked");
    drop(first);
    let mut second = open(&rt, folder)?;
    assert!(rt; ask_all(&mut second, alloc, 7)?.as_slice() == expected.as_slice());
    second.reopen(alloc, Site::GLOBAL)?;
    assert!(rt; ask_all(&mut second, alloc, 7)?.as_slice() == expected.as_slice());
    drop(second);
    assert!(rt; notes_in(&rt, path)? == 1, "another table");
    fs::remove_dir_all(&rt, folder)?;
    Ok(())
}

#[test]
fn files_that_are_no_stores_are_refused(rt: HostRuntime) -> Result<(), Fail> {
    let folder = "sqlite_tests_refused";
    let path = "sqlite_tests_refused/global.db";
    let _ = fs::remove_dir_all(&rt, folder);
    assert!(rt; is_refused(&rt, folder), "no folder");
    make_folder(&rt, folder)?;
    fs::write(&rt, path, GARBAGE)?;
    assert!(rt; is_refused(&rt, folder), "garbage");
    assert!(rt; fs::read(&rt, path)?.as_slice() == GARBAGE, "it stays");
    fs::remove_dir_all(&rt, folder)?;
    Ok(())
}

#[test]
fn rows_that_are_no_cells_are_refused(rt: HostRuntime) -> Result<(), Fail> {
    let alloc = rt.alloc();
    let folder = "sqlite_tests_rows";
    let path = "sqlite_tests_rows/global.db";
    make_folder(&rt, folder)?;
    let zero = key_of_kind(&make_parts(0)?, 1);
    let two = key_of_kind(&make_parts(2)?, 1);
    let four = key_of_kind(&make_parts(4)?, 1);
    assert!(rt;
        has_cell(&rt, folder, &zero) == Ok(false),
        "a folder without files"
    );
    add_row(&rt, path, 1, order_bytes(alloc, &zero)?.as_slice(), &[1, 1])?;
    assert!(rt;
        has_cell(&rt, folder, &zero) == Err(WorldError::Failed),
        "no cell"
    );
    assert!(rt; has_cell(&rt, folder, &two) == Ok(false), "another key");
    add_row(
        &rt,
        path,
        1,
        order_bytes(alloc, &four)?.as_slice(),
        &[1, 1, 2, b'm', b'a', 1, 1],
    )?;
    assert!(rt;
        has_cell(&rt, folder, &four) == Err(WorldError::Failed),
        "a wrong key"
    );
    fs::remove_dir_all(&rt, folder)?;
    Ok(())
}

#[test]
fn a_reopening_finds_what_the_file_holds_then(rt: HostRuntime) -> Result<(), Fail> {
    let alloc = rt.alloc();
    let folder = "sqlite_tests_changed";
    let other = "sqlite_tests_other";
    make_folder(&rt, folder)?;
    make_store(&rt, other, "sqlite_tests_other/global.db", 4)?;
    let key = key_of_kind(&make_parts(4)?, 1);
    let mut world = open(&rt, folder)?;
    assert!(rt; world.read(alloc, Site::GLOBAL, &key)?.is_none());
    fs::rename(
        &rt,
        "sqlite_tests_other/global.db",
        "sqlite_tests_changed/global.db",
    )?;
    fs::rename(
        &rt,
        "sqlite_tests_other/global.db-wal",
        "sqlite_tests_changed/global.db-wal",
    )?;
    world.reopen(alloc, Site::GLOBAL)?;
    assert!(rt; world.read(alloc, Site::GLOBAL, &key)?.is_some());
    drop(world);
    fs::remove_dir_all(&rt, folder)?;
    fs::remove_dir_all(&rt, other)?;
    Ok(())
}
