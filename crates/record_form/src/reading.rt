//! Reading cells.
ghost use Rattle.std.specs.Prelude.{◌≡◌, nat_eq, false, IfOk, IfErr};
ghost use Rattle.cell_world.specs.Spelled.{IsCell};
ghost use Rattle.record_form.specs.Reading.{whole, nothing_at, Gives, GivesAll};
ghost use Rattle.record_form.specs.Kinds.{map_cell_at, shard_cell_at, table_cell_at, piece_cell_at, counter_cell_at, site_state_cell_at, row_cell_at, fields_at, cell_at};
ghost use Rattle.record_form.specs.Layout.{spelling};
ghost use Rattle.record_form.specs.Faults.{IsCellFault};

use crate::choices::{away, key_type, map_kind};
use crate::faults::CellFault;
use crate::jobs::job;
use crate::locations::location;
use crate::names::name;
use crate::numbers::{byte, number_4, number_8};
use crate::pieces::{op, piece};
use crate::rows::{local, row_name, row_value};
use crate::stops::Stop;
use cell_world::cells::{Cell, Counters};
use cell_world::items::RowBytes;
use std::alloc::Global;

#[tactic(auto, unfolding(crate::specs::Kinds::map_cell_at))]
fn map_cell(input: &mut &[u8]) -> Result<Cell, Stop>
    ensures { Gives map_cell_at input.old.now input.new.now result }
{
    let name = name(input)?;
    let kind = map_kind(input)?;
    let key_type = key_type(input)?;
    Ok(Cell::Map(name, kind, key_type))
}

#[tactic(auto, unfolding(crate::specs::Kinds::shard_cell_at))]
fn shard_cell(input: &mut &[u8]) -> Result<Cell, Stop>
    ensures { Gives shard_cell_at input.old.now input.new.now result }
{
    let map = name(input)?;
    let location = location(input)?;
    Ok(Cell::Shard(map, location))
}

#[tactic(auto, unfolding(crate::specs::Kinds::table_cell_at))]
fn table_cell(input: &mut &[u8]) -> Result<Cell, Stop>
    ensures { Gives table_cell_at input.old.now input.new.now result }
{
    let map = name(input)?;
    let table = name(input)?;
    Ok(Cell::Table(map, table))
}

#[tactic(auto, unfolding(crate::specs::Kinds::piece_cell_at))]
fn piece_cell(input: &mut &[u8]) -> Result<Cell, Stop>
    ensures { Gives piece_cell_at input.old.now input.new.now result }
{
    let map = name(input)?;
    let piece = piece(input, &map)?;
    Ok(Cell::Piece(piece))
}

#[tactic(auto, unfolding(crate::specs::Kinds::counter_cell_at))]
fn counter_cell(input: &mut &[u8]) -> Result<Cell, Stop>
    ensures { Gives counter_cell_at input.old.now input.new.now result }
{
    let operation = number_8(input)?;
    let job = number_4(input)?;
    Ok(Cell::Counter(Counters { operation, job }))
}

#[tactic(auto, unfolding(crate::specs::Kinds::site_state_cell_at))]
fn site_state_cell(input: &mut &[u8]) -> Result<Cell, Stop>
    ensures { Gives site_state_cell_at input.old.now input.new.now result }
{
    let location = location(input)?;
    let state = away(input)?;
    Ok(Cell::SiteState(location, state))
}

/// The fields of a cell of this kind, other than a row.
fn fields(kind: u8, input: &mut &[u8]) -> Result<Cell, Stop>
    requires { nat_eq kind 10 ≡ false }
    ensures { Gives (fields_at kind) input.old.now input.new.now result }
{
    match kind {
        1 => map_cell(input),
        2 => shard_cell(input),
        3 => table_cell(input),
        4 => piece_cell(input),
        5 => Ok(Cell::Log(op(input)?)),
        6 => Ok(Cell::Job(job(input)?)),
        7 => counter_cell(input),
        8 => site_state_cell(input),
        _ => Ok(Cell::Local(local(input)?)),
    }
}

/// A cell of this kind, other than a row, and nothing after it.
fn cell_of_kind(kind: u8, bytes: &[u8]) -> Result<Cell, Stop>
    requires { nat_eq kind 10 ≡ false }
    ensures { GivesAll (whole (fields_at kind) bytes.now) result }
{
    let mut input = bytes;
    let cell = fields(kind, &mut input)?;
    if !input.is_empty() {
        return Err(Stop::Left(input.len()));
    }
    Ok(cell)
}

/// A row, and nothing after it. Its bytes are copied last, so memory is short only where a row is spelled.
#[tactic(auto, unfolding(crate::specs::Kinds::row_cell_at))]
fn row(alloc: Global, bytes: &[u8]) -> Result<Cell, Stop>
    ensures { GivesAll (whole row_cell_at bytes.now) result }
{
    let mut input = bytes;
    let name = row_name(&mut input)?;
    let value = row_value(&mut input)?;
    if !input.is_empty() {
        return Err(Stop::Left(input.len()));
    }
    match Vec::from_slice(alloc, value) {
        Ok(items) => Ok(Cell::Row(name, RowBytes::from_vec(items).unwrap())),
        Err(_) => Err(Stop::Memory),
    }
}

/// A cell, and nothing after it.
#[tactic(auto, unfolding(crate::specs::Kinds::cell_at))]
fn cell(alloc: Global, bytes: &[u8]) -> Result<Cell, Stop>
    ensures { GivesAll (whole cell_at bytes.now) result }
{
    let mut input = bytes;
    byte(&mut input, 1, 1)?;
    let kind = byte(&mut input, 1, 10)?;
    if kind == 10 {
        row(alloc, input)
    } else {
        cell_of_kind(kind, input)
    }
}

/// The cell that the bytes spell: its version byte, its kind byte and its fields, and nothing after them. Takes memory for
/// the bytes of a row alone. Reads each byte at most twice, and none after the place of a fault.
///
/// `Place` where the bytes spell no cell: at the first byte with which no spelling goes on, or at their length where they
/// end too early. `Memory` only where they spell a row.
pub fn read_cell(alloc: Global, bytes: &[u8]) -> Result<Cell, CellFault>
    ensures ok { IfOk result (λ cell. IsCell cell × (bytes.now ≡ spelling cell)) }
    ensures err { IfErr result (IsCellFault bytes.now) }
{
    match cell(alloc, bytes) {
        Ok(cell) => Ok(cell),
        Err(Stop::Memory) => Err(CellFault::Memory),
        Err(Stop::Left(left)) => Err(CellFault::Place((bytes.len() - left) as u32)),
    }
}
