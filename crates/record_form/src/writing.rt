//! Writing cells.
ghost use Rattle.std.specs.Prelude.{◌≡◌, ◌++◌, ◌∷◌, [], OnOk, IfOk};
ghost use Rattle.std.specs.Int.{w32, to_be_bytes};
ghost use Rattle.cell_world.specs.Orders.{kind_number};
ghost use Rattle.cell_world.specs.Stores.{own_key};
ghost use Rattle.cell_world.specs.declared.cells.Cell.TheVariants as cell;
ghost use Rattle.record_form.specs.Layout.{text_bytes, piece_bytes, pieces_bytes, phase_bytes, end_bytes, job_bytes, extra_bytes, op_bytes, counters_bytes, local_bytes, row_name_bytes, row_value_bytes, fields, spelling};

use crate::parts::{
    away_byte, key_type_byte, map_kind_byte, put_4, put_8, put_byte, put_end, put_key,
    put_location, put_mark, put_name, put_phase, put_span, put_token, status_byte,
};
use cell_world::cells::{Away, Cell, Counters, KeyType, LocalRow, MapKind, RowName};
use cell_world::items::RowBytes;
use cell_world::locations::Location;
use cell_world::memory::Memory;
use cell_world::names::Name;
use cell_world::operations::{Extra, JobRow, Op, Piece, Pieces};
use std::alloc::{AllocError, Global};

fn put_piece(out: &mut Vec<u8>, piece: &Piece) -> Result<(), AllocError>
    ensures { OnOk result (out.new.items ≡ out.old.items ++ piece_bytes piece.now) }
{
    put_span(out, &piece.span)?;
    put_byte(out, status_byte(piece.status))?;
    put_location(out, &piece.location)?;
    put_token(out, &piece.token)
}

fn put_pieces(out: &mut Vec<u8>, pieces: &Pieces) -> Result<(), AllocError>
    ensures { OnOk result (out.new.items ≡ out.old.items ++ pieces_bytes pieces.now) }
{
    match (&pieces.one, &pieces.two) {
        (None, None) => put_byte(out, 0),
        (Some(piece), None) => {
            put_byte(out, 1)?;
            put_piece(out, piece)
        }
        (None, Some(piece)) => {
            put_byte(out, 1)?;
            put_piece(out, piece)
        }
        (Some(one), Some(two)) => {
            put_byte(out, 2)?;
            put_piece(out, one)?;
            put_piece(out, two)
        }
    }
}

/// The second half of a job.
fn put_course(out: &mut Vec<u8>, job: &JobRow) -> Result<(), AllocError>
    ensures { OnOk result (out.new.items ≡ out.old.items ++ (text_bytes job.now.source ++ (text_bytes job.now.target ++ (to_be_bytes w32 job.now.batch ++ (end_bytes job.now.cursor ++ phase_bytes job.now.phase))))) }
{
    put_location(out, &job.source)?;
    put_location(out, &job.target)?;
    put_4(out, job.batch)?;
    put_end(out, &job.cursor)?;
    put_phase(out, &job.phase)
}

fn put_job(out: &mut Vec<u8>, job: &JobRow) -> Result<(), AllocError>
    ensures { OnOk result (out.new.items ≡ out.old.items ++ job_bytes job.now) }
{
    put_4(out, job.number)?;
    put_name(out, &job.map)?;
    put_key(out, &job.low)?;
    put_end(out, &job.high)?;
    put_course(out, job)
}

fn put_extra(out: &mut Vec<u8>, extra: &Extra) -> Result<(), AllocError>
    ensures { OnOk result (out.new.items ≡ out.old.items ++ extra_bytes extra.now) }
{
    match extra {
        Extra::None => put_byte(out, 0),
        Extra::JobPut(job) => {
            put_byte(out, 1)?;
            put_job(out, job)
        }
        Extra::JobDrop(number) => {
            put_byte(out, 2)?;
            put_4(out, *number)
        }
    }
}

/// What an operation exchanges.
fn put_exchange(out: &mut Vec<u8>, op: &Op) -> Result<(), AllocError>
    ensures { OnOk result (out.new.items ≡ out.old.items ++ (pieces_bytes op.now.olds ++ (pieces_bytes op.now.news ++ extra_bytes op.now.extra))) }
{
    put_pieces(out, &op.olds)?;
    put_pieces(out, &op.news)?;
    put_extra(out, &op.extra)
}

fn put_op(out: &mut Vec<u8>, op: &Op) -> Result<(), AllocError>
    ensures { OnOk result (out.new.items ≡ out.old.items ++ op_bytes op.now) }
{
    put_8(out, op.number)?;
    put_name(out, &op.map)?;
    put_span(out, &op.hull)?;
    put_exchange(out, op)
}

fn put_map(
    out: &mut Vec<u8>,
    name: &Name,
    kind: MapKind,
    key_type: KeyType,
) -> Result<(), AllocError>
    ensures { OnOk result (out.new.items ≡ out.old.items ++ fields (cell.Map name.now kind key_type)) }
{
    put_name(out, name)?;
    put_byte(out, map_kind_byte(kind))?;
    put_byte(out, key_type_byte(key_type))
}

fn put_shard(out: &mut Vec<u8>, map: &Name, location: &Location) -> Result<(), AllocError>
    ensures { OnOk result (out.new.items ≡ out.old.items ++ fields (cell.Shard map.now location.now)) }
{
    put_name(out, map)?;
    put_location(out, location)
}

fn put_table(out: &mut Vec<u8>, map: &Name, table: &Name) -> Result<(), AllocError>
    ensures { OnOk result (out.new.items ≡ out.old.items ++ fields (cell.Table map.now table.now)) }
{
    put_name(out, map)?;
    put_name(out, table)
}

fn put_mapping(out: &mut Vec<u8>, piece: &Piece) -> Result<(), AllocError>
    ensures { OnOk result (out.new.items ≡ out.old.items ++ fields (cell.Piece piece.now)) }
{
    put_name(out, &piece.map)?;
    put_piece(out, piece)
}

fn put_counters(out: &mut Vec<u8>, counters: &Counters) -> Result<(), AllocError>
    ensures { OnOk result (out.new.items ≡ out.old.items ++ counters_bytes counters.now) }
{
    put_8(out, counters.operation)?;
    put_4(out, counters.job)
}

fn put_site_state(out: &mut Vec<u8>, location: &Location, state: Away) -> Result<(), AllocError>
    ensures { OnOk result (out.new.items ≡ out.old.items ++ fields (cell.SiteState location.now state)) }
{
    put_location(out, location)?;
    put_byte(out, away_byte(state))
}

fn put_local(out: &mut Vec<u8>, row: &LocalRow) -> Result<(), AllocError>
    ensures { OnOk result (out.new.items ≡ out.old.items ++ local_bytes row.now) }
{
    put_name(out, &row.map)?;
    put_span(out, &row.span)?;
    put_8(out, row.number)?;
    put_byte(out, status_byte(row.status))?;
    put_mark(out, &row.mark)
}

fn put_row_name(out: &mut Vec<u8>, row: &RowName) -> Result<(), AllocError>
    ensures { OnOk result (out.new.items ≡ out.old.items ++ row_name_bytes row.now) }
{
    put_name(out, &row.map)?;
    put_key(out, &row.key)?;
    put_name(out, &row.table)?;
    put_8(out, row.number)
}

fn put_row(out: &mut Vec<u8>, row: &RowName, bytes: &RowBytes) -> Result<(), AllocError>
    ensures { OnOk result (out.new.items ≡ out.old.items ++ fields (cell.Row row.now bytes.now)) }
{
    let value = bytes.as_slice();
    let len = value.len() as u16;
    put_row_name(out, row)?;
    out.extend_from_slice(&len.to_be_bytes())?;
    out.extend_from_slice(value)
}

fn put_fields(out: &mut Vec<u8>, cell: &Cell) -> Result<(), AllocError>
    ensures { OnOk result (out.new.items ≡ out.old.items ++ fields cell.now) }
{
    match cell {
        Cell::Map(name, kind, key_type) => put_map(out, name, *kind, *key_type),
        Cell::Shard(map, location) => put_shard(out, map, location),
        Cell::Table(map, table) => put_table(out, map, table),
        Cell::Piece(piece) => put_mapping(out, piece),
        Cell::Log(op) => put_op(out, op),
        Cell::Job(job) => put_job(out, job),
        Cell::Counter(counters) => put_counters(out, counters),
        Cell::SiteState(location, state) => put_site_state(out, location, *state),
        Cell::Local(row) => put_local(out, row),
        Cell::Row(row, bytes) => put_row(out, row, bytes),
    }
}

fn kind_byte(cell: &Cell) -> u8
    ensures { result ≡ kind_number (own_key cell.now) }
{
    match cell {
        Cell::Map(_, _, _) => 1,
        Cell::Shard(_, _) => 2,
        Cell::Table(_, _) => 3,
        Cell::Piece(_) => 4,
        Cell::Log(_) => 5,
        Cell::Job(_) => 6,
        Cell::Counter(_) => 7,
        Cell::SiteState(_, _) => 8,
        Cell::Local(_) => 9,
        Cell::Row(_, _) => 10,
    }
}

fn put_cell(out: &mut Vec<u8>, cell: &Cell) -> Result<(), AllocError>
    ensures { OnOk result (out.new.items ≡ out.old.items ++ spelling cell.now) }
{
    put_byte(out, 1)?;
    put_byte(out, kind_byte(cell))?;
    put_fields(out, cell)
}

/// The spelling of a cell, at most 2,759 bytes. `Memory` for want of memory.
///
/// An operation is a cell where its mappings are of its own map, and the second of two stands beside a first. Of another one this
/// writes the spelling of the cell with the map and the order put right: what is no cell is not told here, and no store has one.
pub fn write_cell(alloc: Global, cell: &Cell) -> Result<Vec<u8>, Memory>
    ensures { IfOk result (λ bytes. bytes.items ≡ spelling cell.now) }
{
    let mut out = Vec::new(alloc);
    match put_cell(&mut out, cell) {
        Ok(()) => Ok(out),
        Err(_) => Err(Memory),
    }
}
