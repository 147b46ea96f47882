//! Reads and writes many cells: `bench_cells KIND COUNT`, where KIND is map, shard, table, piece, log, job, counter, state, local, row64 or row1024. Writes a checksum of what it wrote.
#![tactic(auto)]

use anyhow::{Context, Error, bail};
use record_form::reading::read_cell;
use record_form::writing::write_cell;
use std::alloc::Global;
use std::env;

/// A mapping of the ints from 0 to 100 at s/a.
const PIECE: &[u8] = b"\x00\x04\x80\x00\x00\x00\x00\x04\x80\x00\x00\x64\x01\x03s/a\x00";

/// A job for them from s/a to s/b.
const JOB: &[u8] =
    b"\x00\x00\x00\x01\x01m\x04\x80\x00\x00\x00\x00\x04\x80\x00\x00\x64\x03s/a\x03s/b\x00\x00\x00\x64\x00\x04\x80\x00\x00\x00\x00";

/// The bytes of a small cell of this kind.
fn small_cell(kind: &str) -> Option<&'static [u8]> {
    match kind {
        "map" => Some(b"\x01\x01\x06orders\x01\x01".as_slice()),
        "shard" => Some(b"\x01\x02\x06orders\x0bserver/data".as_slice()),
        "table" => Some(b"\x01\x03\x06orders\x05lines".as_slice()),
        "counter" => Some(b"\x01\x07\x00\x00\x00\x00\x00\x00\x00\x03\x00\x00\x00\x01".as_slice()),
        "state" => Some(b"\x01\x08\x0bserver/data\x01".as_slice()),
        "local" => Some(
            b"\x01\x09\x01m\x00\x04\x80\x00\x00\x00\x00\x04\x80\x00\x00\x0a\x00\x00\x00\x00\x00\x00\x00\x01\x01\x00".as_slice(),
        ),
        _ => None,
    }
}

/// The bytes of a row with a value of this length, up to 1,024.
fn row_cell(alloc: Global, len: u16) -> Result<Vec<u8>, Error> {
    let mut bytes = Vec::new(alloc);
    bytes.extend_from_slice(
        b"\x01\x0a\x01m\x04\x80\x00\x00\x02\x01t\x00\x00\x00\x00\x00\x00\x00\x01".as_slice(),
    )?;
    bytes.extend_from_slice(&len.to_be_bytes())?;
    for i in 0..len {
        bytes.push((i % 251) as u8)?;
    }
    Ok(bytes)
}

/// The bytes of a cell that is put together of others' bytes.
fn joined_cell(alloc: Global, front: &[u8], middle: &[u8], back: &[u8]) -> Result<Vec<u8>, Error> {
    let mut bytes = Vec::new(alloc);
    bytes.extend_from_slice(front)?;
    bytes.extend_from_slice(middle)?;
    bytes.extend_from_slice(back)?;
    Ok(bytes)
}

/// An operation that puts a mapping in its own place.
fn log_cell(alloc: Global) -> Result<Vec<u8>, Error> {
    let front =
        b"\x01\x05\x00\x00\x00\x00\x00\x00\x00\x01\x01m\x00\x04\x80\x00\x00\x00\x00\x04\x80\x00\x00\x64\x01";
    let olds = joined_cell(alloc, front.as_slice(), PIECE, b"\x01".as_slice())?;
    joined_cell(alloc, olds.as_slice(), PIECE, b"\x00".as_slice())
}

/// The bytes of a cell of this kind.
fn cell_of(alloc: Global, kind: &str) -> Result<Vec<u8>, Error> {
    match kind {
        "piece" => joined_cell(alloc, b"\x01\x04\x01m".as_slice(), PIECE, b"".as_slice()),
        "log" => log_cell(alloc),
        "job" => joined_cell(alloc, b"\x01\x06".as_slice(), JOB, b"".as_slice()),
        "row64" => row_cell(alloc, 64),
        "row1024" => row_cell(alloc, 1024),
        _ => {
            let bytes = small_cell(kind).context("no such kind")?;
            joined_cell(alloc, bytes, b"".as_slice(), b"".as_slice())
        }
    }
}

/// The checksum with the bytes of the cell, read and written once more.
fn with_cell(alloc: Global, sum: u64, bytes: &[u8]) -> Result<u64, Error> {
    let Ok(cell) = read_cell(alloc, bytes) else {
        bail!("the bytes are no cell");
    };
    let Ok(written) = write_cell(alloc, &cell) else {
        bail!("out of memory");
    };
    let last = match written.as_slice() {
        [.., last] => *last,
        [] => 0,
    };
    let long = written.len() as u64;
    Ok(
        sum.wrapping_mul(31)
            .wrapping_add(long)
            .wrapping_add(u64::from(last)),
    )
}

/// The checksum of so many cells.
fn checksum(alloc: Global, kind: &str, count: u64) -> Result<u64, Error> {
    let bytes = cell_of(alloc, kind)?;
    let mut sum = 0u64;
    for _ in 0..count {
        sum = with_cell(alloc, sum, bytes.as_slice())?;
    }
    Ok(sum)
}

fn main(rt: HostRuntime) -> Result<(), Error> {
    let mut words = env::args(&rt)?;
    let _program = words.next();
    let kind = words.next().context("KIND COUNT")?;
    let count = words.next().context("KIND COUNT")?;
    let count = count.parse::<u64>().context("COUNT is no number")?;
    let sum = checksum(rt.alloc(), kind.as_str(), count)?;
    println!(rt; "{sum}")?;
    Ok(())
}
