//! Rows of shards, and their own copies of mappings.
ghost use Rattle.std.specs.Prelude.{◌≤◌, length, IfOk};
ghost use Rattle.record_form.specs.Reading.{Gives, GivesSeen};
ghost use Rattle.record_form.specs.Fields.{value_length_at, row_value_at};
ghost use Rattle.record_form.specs.Kinds.{local_at, row_name_at};

use crate::choices::{mark, status};
use crate::names::name;
use crate::numbers::{byte, number_8};
use crate::spans::{key, span};
use crate::stops::Stop;
use crate::texts::raw;
use cell_world::cells::{LocalRow, RowName};

/// A local row: its map, span, number in 8 bytes, status and mark.
#[tactic(auto, unfolding(crate::specs::Kinds::local_at))]
pub(crate) fn local(input: &mut &[u8]) -> Result<LocalRow, Stop>
    ensures { Gives local_at input.old.now input.new.now result }
{
    let map = name(input)?;
    let span = span(input)?;
    let number = number_8(input)?;
    let status = status(input)?;
    let mark = mark(input)?;
    Ok(LocalRow {
        map,
        span,
        number,
        status,
        mark,
    })
}

/// What names a row: its map, key, table and number in 8 bytes.
#[tactic(auto, unfolding(crate::specs::Kinds::row_name_at))]
pub(crate) fn row_name(input: &mut &[u8]) -> Result<RowName, Stop>
    ensures { Gives row_name_at input.old.now input.new.now result }
{
    let map = name(input)?;
    let key = key(input)?;
    let table = name(input)?;
    let number = number_8(input)?;
    Ok(RowName {
        map,
        key,
        table,
        number,
    })
}

/// A length up to 1,024, in two bytes.
#[tactic(auto, unfolding(crate::specs::Fields::value_length_at))]
fn value_length(input: &mut &[u8]) -> Result<usize, Stop>
    ensures given { Gives value_length_at input.old.now input.new.now result }
    ensures short { IfOk result (λ len. len ≤ 1024) }
{
    let high = byte(input, 0, 4)?;
    let most = if high == 4 { 0 } else { 255 };
    let low = byte(input, 0, most)?;
    Ok(high as usize * 256 + low as usize)
}

/// The bytes of a row: their length in two bytes, and then they. Takes no memory.
#[tactic(auto, unfolding(crate::specs::Fields::row_value_at))]
pub(crate) fn row_value<'a>(input: &mut &'a [u8]) -> Result<&'a [u8], Stop>
    ensures given { GivesSeen (λ x. x.now) row_value_at input.old.now input.new.now result }
    ensures short { IfOk result (λ value. length value.now ≤ 1024) }
{
    let len = value_length(input)?;
    raw(input, len)
}
