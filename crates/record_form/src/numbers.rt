//! Bytes and numbers.
ghost use Rattle.std.specs.Int.{w32, w64, w128};
ghost use Rattle.record_form.specs.Reading.{is_from, byte_at, number_at, Gives};

use crate::stops::Stop;

/// A byte from the first to the last.
pub(crate) fn byte(input: &mut &[u8], first: u8, last: u8) -> Result<u8, Stop>
    ensures { Gives (byte_at (is_from first last)) input.old.now input.new.now result }
{
    let bytes = *input;
    match bytes {
        [] => Err(Stop::Left(0)),
        [byte, rest @ ..] => {
            if first <= *byte && *byte <= last {
                *input = rest;
                Ok(*byte)
            } else {
                Err(Stop::Left(bytes.len()))
            }
        }
    }
}

/// Four bytes.
pub(crate) fn number_4(input: &mut &[u8]) -> Result<u32, Stop>
    ensures { Gives (number_at w32) input.old.now input.new.now result }
{
    let bytes = *input;
    let Some((front, rest)) = bytes.split_first_chunk::<4>() else {
        return Err(Stop::Left(0));
    };
    *input = rest;
    Ok(u32::from_be_bytes(*front))
}

/// Eight bytes.
pub(crate) fn number_8(input: &mut &[u8]) -> Result<u64, Stop>
    ensures { Gives (number_at w64) input.old.now input.new.now result }
{
    let bytes = *input;
    let Some((front, rest)) = bytes.split_first_chunk::<8>() else {
        return Err(Stop::Left(0));
    };
    *input = rest;
    Ok(u64::from_be_bytes(*front))
}

/// Sixteen bytes.
pub(crate) fn number_16(input: &mut &[u8]) -> Result<u128, Stop>
    ensures { Gives (number_at w128) input.old.now input.new.now result }
{
    let bytes = *input;
    let Some((front, rest)) = bytes.split_first_chunk::<16>() else {
        return Err(Stop::Left(0));
    };
    *input = rest;
    Ok(u128::from_be_bytes(*front))
}
