//! The bytes in whose order the cells of one kind stand.
ghost use Rattle.std.specs.Prelude.{◌≡◌, ℕ, List, ◌∷◌, ◌++◌, IfOk, OnOk};
ghost use Rattle.std.specs.Int.{w64, to_be_bytes};
ghost use Rattle.cell_world.specs.declared.cells.CellKey.TheVariants as at;
ghost use Rattle.record_form.specs.OrderBytes.{ended, escaped, ordered};

use crate::parts::{put_4, put_8, put_byte};
use cell_world::cells::{CellKey, RowName};
use cell_world::memory::Memory;
use cell_world::names::Name;
use cell_world::norm_keys::NormKey;
use std::alloc::{AllocError, Global};

fn put_ended(out: &mut Vec<u8>, text: &[u8]) -> Result<(), AllocError>
    ensures { OnOk result (out.new.items ≡ out.old.items ++ ended text.now) }
{
    out.extend_from_slice(text)?;
    put_byte(out, 0)
}

/// A byte of a key.
fn put_escaped_byte(out: &mut Vec<u8>, byte: u8) -> Result<(), AllocError>
    ensures { OnOk result ((rest : List ℕ) → out.new.items ++ escaped rest ≡ out.old.items ++ escaped (byte ∷ rest)) }
{
    if byte == 0 {
        put_byte(out, 0)?;
        put_byte(out, 255)
    } else {
        put_byte(out, byte)
    }
}

fn put_escaped(out: &mut Vec<u8>, key: &[u8]) -> Result<(), AllocError>
    ensures { OnOk result (out.new.items ≡ out.old.items ++ escaped key.now) }
{
    for byte in key {
        put_escaped_byte(out, *byte)?;
    }
    put_byte(out, 0)?;
    put_byte(out, 0)
}

fn put_pair(out: &mut Vec<u8>, map: &Name, text: &[u8]) -> Result<(), AllocError>
    ensures { OnOk result (out.new.items ≡ out.old.items ++ (ended map.now ++ ended text.now)) }
{
    put_ended(out, map.as_slice())?;
    put_ended(out, text)
}

fn put_low(out: &mut Vec<u8>, map: &Name, low: &NormKey) -> Result<(), AllocError>
    ensures { OnOk result (out.new.items ≡ out.old.items ++ (ended map.now ++ escaped low.now)) }
{
    put_ended(out, map.as_slice())?;
    put_escaped(out, low.as_slice())
}

fn put_local(out: &mut Vec<u8>, map: &Name, low: &NormKey, number: u64) -> Result<(), AllocError>
    ensures { OnOk result (out.new.items ≡ out.old.items ++ (ended map.now ++ (escaped low.now ++ to_be_bytes w64 number))) }
{
    put_low(out, map, low)?;
    put_8(out, number)
}

fn put_row(out: &mut Vec<u8>, row: &RowName) -> Result<(), AllocError>
    ensures { OnOk result (out.new.items ≡ out.old.items ++ ordered (at.Row row.now)) }
{
    put_low(out, &row.map, &row.key)?;
    put_ended(out, row.table.as_slice())?;
    put_8(out, row.number)
}

fn put_fields(out: &mut Vec<u8>, key: &CellKey) -> Result<(), AllocError>
    ensures { OnOk result (out.new.items ≡ out.old.items ++ ordered key.now) }
{
    match key {
        CellKey::Map(name) => put_ended(out, name.as_slice()),
        CellKey::Shard(map, location) => put_pair(out, map, location.as_slice()),
        CellKey::Table(map, table) => put_pair(out, map, table.as_slice()),
        CellKey::Piece(map, low) => put_low(out, map, low),
        CellKey::Log(number) => put_8(out, *number),
        CellKey::Job(number) => put_4(out, *number),
        CellKey::Counter => Ok(()),
        CellKey::SiteState(location) => put_ended(out, location.as_slice()),
        CellKey::Local(map, low, number) => put_local(out, map, low, *number),
        CellKey::Row(row) => put_row(out, row),
    }
}

/// The order bytes of a key: its fields without the kind, so written that among the keys of one kind the order of the bytes is
/// cell order. `Memory` for want of memory.
pub fn order_bytes(alloc: Global, key: &CellKey) -> Result<Vec<u8>, Memory>
    ensures { IfOk result (λ bytes. bytes.items ≡ ordered key.now) }
{
    let mut out = Vec::new(alloc);
    match put_fields(&mut out, key) {
        Ok(()) => Ok(out),
        Err(_) => Err(Memory),
    }
}
