//! Keys, and spans of them.
ghost use Rattle.record_form.specs.Reading.{Gives};
ghost use Rattle.record_form.specs.Fields.{key_at, end_at, span_at};

use crate::numbers::byte;
use crate::stops::Stop;
use crate::texts::raw;
use cell_world::norm_keys::NormKey;
use cell_world::spans::{High, Span};

/// A key: one length byte up to 128, and then its bytes.
#[tactic(auto, unfolding(crate::specs::Fields::key_at))]
pub(crate) fn key(input: &mut &[u8]) -> Result<NormKey, Stop>
    ensures { Gives key_at input.old.now input.new.now result }
{
    let len = byte(input, 0, 128)?;
    let bytes = raw(input, len as usize)?;
    Ok(NormKey::of_bytes(bytes).unwrap())
}

/// A high end: 00 and a key, or 01 where there is none.
#[tactic(auto, unfolding(crate::specs::Fields::end_at))]
pub(crate) fn end(input: &mut &[u8]) -> Result<High, Stop>
    ensures { Gives end_at input.old.now input.new.now result }
{
    match byte(input, 0, 1)? {
        0 => Ok(High::At(key(input)?)),
        _ => Ok(High::Max),
    }
}

/// A span: 00, the low key and the high end of a range, or 01 and the key of a point.
#[tactic(auto, unfolding(crate::specs::Fields::span_at))]
pub(crate) fn span(input: &mut &[u8]) -> Result<Span, Stop>
    ensures { Gives span_at input.old.now input.new.now result }
{
    match byte(input, 0, 1)? {
        0 => {
            let low = key(input)?;
            let high = end(input)?;
            Ok(Span::Range(low, high))
        }
        _ => Ok(Span::Point(key(input)?)),
    }
}
