//! Fields of one value out of a few.
ghost use Rattle.record_form.specs.Reading.{Gives};
ghost use Rattle.record_form.specs.Fields.{status_at, map_kind_at, key_type_at, away_at, token_at, mark_at};

use crate::numbers::{byte, number_8, number_16};
use crate::stops::Stop;
use cell_world::cells::{Away, KeyType, MapKind, Mark, Status, Token};

#[tactic(auto, unfolding(crate::specs::Fields::status_at))]
pub(crate) fn status(input: &mut &[u8]) -> Result<Status, Stop>
    ensures { Gives status_at input.old.now input.new.now result }
{
    match byte(input, 0, 1)? {
        0 => Ok(Status::Offline),
        _ => Ok(Status::Online),
    }
}

#[tactic(auto, unfolding(crate::specs::Fields::map_kind_at))]
pub(crate) fn map_kind(input: &mut &[u8]) -> Result<MapKind, Stop>
    ensures { Gives map_kind_at input.old.now input.new.now result }
{
    match byte(input, 1, 2)? {
        1 => Ok(MapKind::Range),
        _ => Ok(MapKind::List),
    }
}

#[tactic(auto, unfolding(crate::specs::Fields::key_type_at))]
pub(crate) fn key_type(input: &mut &[u8]) -> Result<KeyType, Stop>
    ensures { Gives key_type_at input.old.now input.new.now result }
{
    match byte(input, 1, 6)? {
        1 => Ok(KeyType::Int),
        2 => Ok(KeyType::Long),
        3 => Ok(KeyType::Guid),
        4 => Ok(KeyType::Bytes),
        5 => Ok(KeyType::Datetime),
        _ => Ok(KeyType::Timespan),
    }
}

/// The state of a site that isn't attached.
#[tactic(auto, unfolding(crate::specs::Fields::away_at))]
pub(crate) fn away(input: &mut &[u8]) -> Result<Away, Stop>
    ensures { Gives away_at input.old.now input.new.now result }
{
    match byte(input, 1, 2)? {
        1 => Ok(Away::Detached),
        _ => Ok(Away::Suspect),
    }
}

/// A token: 00 where there is none, or 01 and 16 bytes.
#[tactic(auto, unfolding(crate::specs::Fields::token_at))]
pub(crate) fn token(input: &mut &[u8]) -> Result<Option<Token>, Stop>
    ensures { Gives token_at input.old.now input.new.now result }
{
    let has_token = byte(input, 0, 1)?;
    match has_token {
        0 => Ok(None),
        _ => Ok(Some(Token(number_16(input)?))),
    }
}

/// A mark: 00 Plain, 01 and 8 bytes for Old, 02 New.
#[tactic(auto, unfolding(crate::specs::Fields::mark_at))]
pub(crate) fn mark(input: &mut &[u8]) -> Result<Mark, Stop>
    ensures { Gives mark_at input.old.now input.new.now result }
{
    match byte(input, 0, 2)? {
        0 => Ok(Mark::Plain),
        1 => Ok(Mark::Old(number_8(input)?)),
        _ => Ok(Mark::New),
    }
}
