//! The worked cells, their order bytes and the places of faults.
use crate::faults::CellFault;
use crate::ordering::order_bytes;
use crate::reading::read_cell;
use crate::writing::write_cell;
use cell_world::cells::{
    Cell, CellKey, Counters, KeyType, LocalRow, MapKind, Mark, RowName, Status,
};
use cell_world::items::RowBytes;
use cell_world::locations::Location;
use cell_world::names::Name;
use cell_world::norm_keys::NormKey;
use cell_world::operations::Piece;
use cell_world::spans::{High, Span};
use std::alloc::Global;
use std::test::Fail;

const MAP: &[u8] = b"\x01\x01\x01m\x01\x01";

const SHARD: &[u8] = b"\x01\x02\x01m\x03s/a";

const PIECE: &[u8] =
    b"\x01\x04\x01m\x00\x04\x80\x00\x00\x00\x00\x04\x80\x00\x00\x64\x01\x03s/a\x00";

const LOCAL: &[u8] =
    b"\x01\x09\x01m\x00\x04\x80\x00\x00\x00\x00\x04\x80\x00\x00\x0a\x00\x00\x00\x00\x00\x00\x00\x01\x01\x00";

const ROW: &[u8] =
    b"\x01\x0a\x01m\x04\x80\x00\x00\x02\x01t\x00\x00\x00\x00\x00\x00\x00\x01\x00\x01\xff";

const COUNTER: &[u8] = b"\x01\x07\x00\x00\x00\x00\x00\x00\x00\x03\x00\x00\x00\x01";

const ROW_ORDER: &[u8] =
    b"m\x00\x80\x00\xff\x00\xff\x02\x00\x00t\x00\x00\x00\x00\x00\x00\x00\x00\x01";

fn name(bytes: &[u8]) -> Result<Name, Fail> {
    Ok(Name::read(bytes).ok_or("a name")?)
}

fn location(bytes: &[u8]) -> Result<Location, Fail> {
    Ok(Location::read(bytes).ok_or("a location")?)
}

fn key(bytes: &[u8]) -> Result<NormKey, Fail> {
    Ok(NormKey::of_bytes(bytes).ok_or("a key")?)
}

/// The ints from 0 up to a byte.
fn ints_up_to(byte: u8) -> Result<Span, Fail> {
    let low = key(b"\x80\x00\x00\x00")?;
    let high = key(&[128, 0, 0, byte])?;
    Ok(Span::Range(low, High::At(high)))
}

fn mapping() -> Result<Cell, Fail> {
    Ok(Cell::Piece(Piece {
        map: name(b"m")?,
        span: ints_up_to(100)?,
        location: location(b"s/a")?,
        status: Status::Online,
        token: None,
    }))
}

fn local_row() -> Result<Cell, Fail> {
    Ok(Cell::Local(LocalRow {
        map: name(b"m")?,
        span: ints_up_to(10)?,
        number: 1,
        status: Status::Online,
        mark: Mark::Plain,
    }))
}

fn row_name() -> Result<RowName, Fail> {
    Ok(RowName {
        map: name(b"m")?,
        key: key(b"\x80\x00\x00\x02")?,
        table: name(b"t")?,
        number: 1,
    })
}

fn row(alloc: Global) -> Result<Cell, Fail> {
    let bytes = Vec::from_slice(alloc, b"\xff".as_slice())?;
    let value = RowBytes::from_vec(bytes).ok_or("a value")?;
    Ok(Cell::Row(row_name()?, value))
}

/// Whether the cell is written so.
fn is_written(alloc: Global, cell: &Cell, bytes: &[u8]) -> bool {
    match write_cell(alloc, cell) {
        Ok(found) => found.as_slice() == bytes,
        Err(_) => false,
    }
}

/// Whether a cell is read that is written so again.
fn is_read(alloc: Global, bytes: &[u8]) -> bool {
    match read_cell(alloc, bytes) {
        Ok(cell) => is_written(alloc, &cell, bytes),
        Err(_) => false,
    }
}

/// Whether no spelling goes on at this place.
fn stops_at(alloc: Global, bytes: &[u8], place: u32) -> bool {
    match read_cell(alloc, bytes) {
        Ok(_) => false,
        Err(found) => found == CellFault::Place(place),
    }
}

/// Whether the bytes, cut anywhere, end too early there.
fn is_whole(alloc: Global, bytes: &[u8]) -> bool {
    let mut place = 0u32;
    for end in 0..bytes.len() {
        if !stops_at(alloc, &bytes[..end], place) {
            return false;
        }
        place = place.wrapping_add(1);
    }
    true
}

/// Whether the key has these order bytes.
fn has_order(alloc: Global, key: &CellKey, bytes: &[u8]) -> bool {
    match order_bytes(alloc, key) {
        Ok(found) => found.as_slice() == bytes,
        Err(_) => false,
    }
}

#[test]
fn worked_cells_are_written(rt: HostRuntime) -> Result<(), Fail> {
    let alloc = rt.alloc();
    let map = Cell::Map(name(b"m")?, MapKind::Range, KeyType::Int);
    assert!(rt; is_written(alloc, &map, MAP));
    let shard = Cell::Shard(name(b"m")?, location(b"s/a")?);
    assert!(rt; is_written(alloc, &shard, SHARD));
    let counters = Counters {
        operation: 3,
        job: 1,
    };
    assert!(rt; is_written(alloc, &Cell::Counter(counters), COUNTER));
    Ok(())
}

#[test]
fn worked_mappings_and_rows_are_written(rt: HostRuntime) -> Result<(), Fail> {
    let alloc = rt.alloc();
    let mapping = mapping()?;
    assert!(rt; is_written(alloc, &mapping, PIECE));
    let local = local_row()?;
    assert!(rt; is_written(alloc, &local, LOCAL));
    let row = row(alloc)?;
    assert!(rt; is_written(alloc, &row, ROW));
    Ok(())
}

#[test]
fn worked_cells_are_read(rt: HostRuntime) {
    for bytes in [MAP, SHARD, PIECE, LOCAL, ROW, COUNTER] {
        assert!(rt; is_read(rt.alloc(), bytes));
        assert!(rt; is_whole(rt.alloc(), bytes));
    }
}

#[test]
fn faults_have_their_places(rt: HostRuntime) {
    let alloc = rt.alloc();
    assert!(rt; stops_at(alloc, b"".as_slice(), 0));
    assert!(rt; stops_at(alloc, b"\x02".as_slice(), 0));
    assert!(rt; stops_at(alloc, b"\x01\x0b".as_slice(), 1));
    assert!(rt; stops_at(alloc, b"\x01\x01\x01m\x01\x07".as_slice(), 5));
    assert!(rt; stops_at(alloc, b"\x01\x01\x01m\x01\x01\x00".as_slice(), 6));
    assert!(rt; stops_at(alloc, b"\x01\x01\x01m\x01".as_slice(), 5));
    assert!(rt; stops_at(alloc, b"\x01\x01\x00".as_slice(), 2));
}

#[test]
fn the_row_has_its_order_bytes(rt: HostRuntime) -> Result<(), Fail> {
    let row = row_name()?;
    assert!(rt; has_order(rt.alloc(), &CellKey::Row(row), ROW_ORDER));
    Ok(())
}
