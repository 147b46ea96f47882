//! Cells of each kind, several of each.
ghost use Rattle.std.specs.Prelude.{IsTrue, IfOk};
ghost use Rattle.cell_world.specs.Spelled.{is_spelled};

use cell_world::cells::{
    Away, Cell, CellKey, Counters, KeyType, LocalRow, MapKind, Mark, RowName, Status, Token,
};
use cell_world::items::RowBytes;
use cell_world::locations::Location;
use cell_world::names::Name;
use cell_world::norm_keys::NormKey;
use cell_world::operations::{Extra, JobRow, Op, Phase, Piece, Pieces};
use cell_world::spans::{High, Span};
use std::alloc::Global;
use std::test::Fail;

/// What the cells of a number are made of.
#[derive(Clone, Copy)]
pub struct Parts {
    pub map: Name,
    pub location: Location,
    pub key: NormKey,
    pub number: u8,
}

/// The parts of a number below 20. Those of an even number and of the next one have one map.
pub fn make_parts(number: u8) -> Result<Parts, Fail> {
    let letter = b'a' + number % 20;
    let map = Name::read(&[b'm', b'a' + number % 20 / 2]).ok_or("a name")?;
    let location = Location::read(&[b's', b'/', letter]).ok_or("a location")?;
    let key = NormKey::of_bytes(&[0, number]).ok_or("a key")?;
    Ok(Parts {
        map,
        location,
        key,
        number,
    })
}

/// The name of a row.
fn row_name(parts: &Parts) -> RowName {
    RowName {
        map: parts.map,
        key: parts.key,
        table: parts.map,
        number: parts.number as u64,
    }
}

/// The key of a kind, from 1 to 10.
pub fn key_of_kind(parts: &Parts, kind: u8) -> CellKey {
    match kind {
        1 => CellKey::Map(parts.map),
        2 => CellKey::Shard(parts.map, parts.location),
        3 => CellKey::Table(parts.map, parts.map),
        4 => CellKey::Piece(parts.map, parts.key),
        5 => CellKey::Log(parts.number as u64),
        6 => CellKey::Job(parts.number as u32),
        7 => CellKey::Counter,
        8 => CellKey::SiteState(parts.location),
        9 => CellKey::Local(parts.map, parts.key, 3),
        _ => CellKey::Row(row_name(parts)),
    }
}

fn piece(parts: &Parts) -> Piece {
    Piece {
        map: parts.map,
        span: Span::Range(parts.key, High::Max),
        location: parts.location,
        status: Status::Online,
        token: Some(Token(9)),
    }
}

fn job(parts: &Parts) -> JobRow {
    JobRow {
        number: parts.number as u32,
        map: parts.map,
        low: parts.key,
        high: High::Max,
        source: parts.location,
        target: parts.location,
        batch: 1,
        cursor: High::At(parts.key),
        phase: Phase::Copying(High::Max),
    }
}

fn log_cell(parts: &Parts) -> Cell
    ensures { IsTrue (is_spelled result) }
{
    Cell::Log(Op {
        number: parts.number as u64,
        map: parts.map,
        hull: Span::Range(parts.key, High::Max),
        olds: Pieces {
            one: None,
            two: None,
        },
        news: Pieces {
            one: None,
            two: None,
        },
        extra: Extra::JobPut(job(parts)),
    })
}

fn local(parts: &Parts) -> LocalRow {
    LocalRow {
        map: parts.map,
        span: Span::Point(parts.key),
        number: 3,
        status: Status::Offline,
        mark: Mark::Old(4),
    }
}

/// The cell of a kind below 10.
fn plain_cell(parts: &Parts, kind: u8) -> Cell
    ensures { IsTrue (is_spelled result) }
{
    match kind {
        1 => Cell::Map(parts.map, MapKind::List, KeyType::Bytes),
        2 => Cell::Shard(parts.map, parts.location),
        3 => Cell::Table(parts.map, parts.map),
        4 => Cell::Piece(piece(parts)),
        5 => log_cell(parts),
        6 => Cell::Job(job(parts)),
        7 => Cell::Counter(Counters {
            operation: parts.number as u64,
            job: 3,
        }),
        8 => Cell::SiteState(parts.location, Away::Suspect),
        _ => Cell::Local(local(parts)),
    }
}

/// The cell of a kind, from 1 to 10.
pub fn cell_of_kind(alloc: Global, parts: &Parts, kind: u8) -> Result<Cell, Fail>
    ensures { IfOk result (λ cell. IsTrue (is_spelled cell)) }
{
    if kind < 10 {
        return Ok(plain_cell(parts, kind));
    }
    let bytes = vec![in alloc; 7u8; parts.number as usize]?;
    let value = RowBytes::from_vec(bytes).ok_or("a row")?;
    Ok(Cell::Row(row_name(parts), value))
}
