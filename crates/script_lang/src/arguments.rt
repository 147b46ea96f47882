//! Words behind the first that several commands share. `BadCount` comes before `BadWord`, whose number counts from 1 with the first word.
ghost use Rattle.std.specs.Prelude.{◌≡◌, List, [], ◌∷◌, map, Result, Ok, Err, IfOk, IfErr};
ghost use Rattle.plain_model.specs.declared.finish.Reason.{Reason};
ghost use Rattle.script_lang.specs.Commands.{and_value, said_by, then_token};
ghost use Rattle.script_lang.specs.Reading.{IsRead};
ghost use Rattle.script_lang.specs.Spelling.{value_of};
ghost use Rattle.script_lang.specs.Values.{Value, OfBytes, OfHigh, OfNumber, OfToken};
ghost use Rattle.script_lang.specs.WordKinds as kind;

use crate::numbers::{connection_at, listed_at, row_number_at};
use crate::values::{high_at, key_at, location_at, name_at, token_at};
use cell_world::cells::Token;
use cell_world::key_texts::KeyText;
use cell_world::locations::Location;
use cell_world::names::Name;
use plain_model::commands::HighText;
use plain_model::finish::Reason;

/// A map.
pub(crate) fn one_map(words: &[&[u8]]) -> Result<Name, Reason>
    ensures ok { IfOk result (λ a. said_by (kind.Name ∷ []) (map (λ w. w.now) words.now) ≡ Ok (OfBytes a ∷ [])) }
    ensures err { IfErr result (λ reason. said_by (kind.Name ∷ []) (map (λ w. w.now) words.now) ≡ Err reason) }
{
    match words {
        [map] => name_at(map, 2),
        _ => Err(Reason::BadCount),
    }
}

/// A location.
pub(crate) fn one_location(words: &[&[u8]]) -> Result<Location, Reason>
    ensures ok { IfOk result (λ a. said_by (kind.Location ∷ []) (map (λ w. w.now) words.now) ≡ Ok (OfBytes a ∷ [])) }
    ensures err { IfErr result (λ reason. said_by (kind.Location ∷ []) (map (λ w. w.now) words.now) ≡ Err reason) }
{
    match words {
        [location] => location_at(location, 2),
        _ => Err(Reason::BadCount),
    }
}

/// The number of a job.
pub(crate) fn one_job(words: &[&[u8]]) -> Result<u32, Reason>
    ensures ok { IfOk result (λ a. said_by (kind.Number ∷ []) (map (λ w. w.now) words.now) ≡ Ok (OfNumber a ∷ [])) }
    ensures err { IfErr result (λ reason. said_by (kind.Number ∷ []) (map (λ w. w.now) words.now) ≡ Err reason) }
{
    match words {
        [job] => listed_at(job, 2),
        _ => Err(Reason::BadCount),
    }
}

/// A map and a location.
#[derive(Clone, Copy)]
pub(crate) struct MapAndLocation {
    pub(crate) map: Name,
    pub(crate) location: Location,
}

/// A map and a location.
pub(crate) fn map_and_location(words: &[&[u8]]) -> Result<MapAndLocation, Reason>
    ensures ok { IfOk result (λ a. said_by (kind.Name ∷ kind.Location ∷ []) (map (λ w. w.now) words.now) ≡ Ok (OfBytes a.map ∷ OfBytes a.location ∷ [])) }
    ensures err { IfErr result (λ reason. said_by (kind.Name ∷ kind.Location ∷ []) (map (λ w. w.now) words.now) ≡ Err reason) }
{
    match words {
        [map, location] => {
            let map = name_at(map, 2)?;
            let location = location_at(location, 3)?;
            Ok(MapAndLocation { map, location })
        }
        _ => Err(Reason::BadCount),
    }
}

/// A map and a key.
#[derive(Clone, Copy)]
pub(crate) struct MapAndKey {
    pub(crate) map: Name,
    pub(crate) key: KeyText,
}

/// A map and a key.
pub(crate) fn map_and_key(words: &[&[u8]]) -> Result<MapAndKey, Reason>
    ensures ok { IfOk result (λ a. said_by (kind.Name ∷ kind.Key ∷ []) (map (λ w. w.now) words.now) ≡ Ok (OfBytes a.map ∷ OfBytes a.key ∷ [])) }
    ensures err { IfErr result (λ reason. said_by (kind.Name ∷ kind.Key ∷ []) (map (λ w. w.now) words.now) ≡ Err reason) }
{
    match words {
        [map, key] => {
            let map = name_at(map, 2)?;
            let key = key_at(key, 3)?;
            Ok(MapAndKey { map, key })
        }
        _ => Err(Reason::BadCount),
    }
}

/// A map, a key and a token.
#[derive(Clone, Copy)]
pub(crate) struct KeyAndToken {
    pub(crate) map: Name,
    pub(crate) key: KeyText,
    pub(crate) token: Token,
}

/// A map, a key and a token.
pub(crate) fn key_and_token(words: &[&[u8]]) -> Result<KeyAndToken, Reason>
    ensures ok { IfOk result (λ a. said_by (kind.Name ∷ kind.Key ∷ kind.Token ∷ []) (map (λ w. w.now) words.now) ≡ Ok (OfBytes a.map ∷ OfBytes a.key ∷ OfToken a.token ∷ [])) }
    ensures err { IfErr result (λ reason. said_by (kind.Name ∷ kind.Key ∷ kind.Token ∷ []) (map (λ w. w.now) words.now) ≡ Err reason) }
{
    match words {
        [map, key, token] => {
            let map = name_at(map, 2)?;
            let key = key_at(key, 3)?;
            let token = token_at(token, 4)?;
            Ok(KeyAndToken { map, key, token })
        }
        _ => Err(Reason::BadCount),
    }
}

/// A map, a key, and a token if the mapping has one.
#[derive(Clone, Copy)]
pub(crate) struct KeyAndMaybeToken {
    pub(crate) map: Name,
    pub(crate) key: KeyText,
    pub(crate) token: Option<Token>,
}

/// A map, a key, and a token if the mapping has one.
pub(crate) fn key_and_maybe_token(words: &[&[u8]]) -> Result<KeyAndMaybeToken, Reason>
    ensures ok { IfOk result (λ a. said_by (kind.Name ∷ kind.Key ∷ kind.MaybeToken ∷ []) (map (λ w. w.now) words.now) ≡ Ok (OfBytes a.map ∷ OfBytes a.key ∷ then_token a.token)) }
    ensures err { IfErr result (λ reason. said_by (kind.Name ∷ kind.Key ∷ kind.MaybeToken ∷ []) (map (λ w. w.now) words.now) ≡ Err reason) }
{
    match words {
        [map, key] => {
            let map = name_at(map, 2)?;
            let key = key_at(key, 3)?;
            let token = None;
            Ok(KeyAndMaybeToken { map, key, token })
        }
        [map, key, token] => {
            let map = name_at(map, 2)?;
            let key = key_at(key, 3)?;
            let token = Some(token_at(token, 4)?);
            Ok(KeyAndMaybeToken { map, key, token })
        }
        _ => Err(Reason::BadCount),
    }
}

/// A row under a connection.
#[derive(Clone, Copy)]
pub(crate) struct RowAt {
    pub(crate) connection: u32,
    pub(crate) table: Name,
    pub(crate) row: u64,
}

/// A row under a connection.
pub(crate) fn row_at(words: &[&[u8]]) -> Result<RowAt, Reason>
    ensures ok { IfOk result (λ a. said_by (kind.Connection ∷ kind.Name ∷ kind.RowNumber ∷ []) (map (λ w. w.now) words.now) ≡ Ok (OfNumber a.connection ∷ OfBytes a.table ∷ OfNumber a.row ∷ [])) }
    ensures err { IfErr result (λ reason. said_by (kind.Connection ∷ kind.Name ∷ kind.RowNumber ∷ []) (map (λ w. w.now) words.now) ≡ Err reason) }
{
    match words {
        [connection, table, row] => {
            let connection = connection_at(connection, 2)?;
            let table = name_at(table, 3)?;
            let row = row_number_at(row, 4)?;
            Ok(RowAt {
                connection,
                table,
                row,
            })
        }
        _ => Err(Reason::BadCount),
    }
}

/// A map, a key and a location.
#[derive(Clone, Copy)]
pub(crate) struct KeyAndLocation {
    pub(crate) map: Name,
    pub(crate) key: KeyText,
    pub(crate) location: Location,
}

/// A map, a key and a location. Whatever stands behind them, the first that isn't in its grammar is the fault.
pub(crate) fn key_and_location(
    map: &[u8],
    key: &[u8],
    location: &[u8],
) -> Result<KeyAndLocation, Reason>
    ensures map { IfOk result (λ a. IsRead kind.Name map.now (OfBytes a.map)) }
    ensures key { IfOk result (λ a. IsRead kind.Key key.now (OfBytes a.key)) }
    ensures location { IfOk result (λ a. IsRead kind.Location location.now (OfBytes a.location)) }
    ensures err { IfErr result (λ reason. (more : Result (List Value) Reason) → and_value 2 (value_of kind.Name map.now) (and_value 3 (value_of kind.Key key.now) (and_value 4 (value_of kind.Location location.now) more)) ≡ Err reason) }
{
    let map = name_at(map, 2)?;
    let key = key_at(key, 3)?;
    let location = location_at(location, 4)?;
    Ok(KeyAndLocation { map, key, location })
}

/// A range of a map, and a location.
#[derive(Clone, Copy)]
pub(crate) struct RangeAt {
    pub(crate) map: Name,
    pub(crate) low: KeyText,
    pub(crate) high: HighText,
    pub(crate) location: Location,
}

/// A map, the ends of a range, and a location. Whatever stands behind them, the first that isn't in its grammar is the fault.
pub(crate) fn range_at(
    map: &[u8],
    low: &[u8],
    high: &[u8],
    location: &[u8],
) -> Result<RangeAt, Reason>
    ensures map { IfOk result (λ a. IsRead kind.Name map.now (OfBytes a.map)) }
    ensures low { IfOk result (λ a. IsRead kind.Key low.now (OfBytes a.low)) }
    ensures high { IfOk result (λ a. IsRead kind.High high.now (OfHigh a.high)) }
    ensures location { IfOk result (λ a. IsRead kind.Location location.now (OfBytes a.location)) }
    ensures err { IfErr result (λ reason. (more : Result (List Value) Reason) → and_value 2 (value_of kind.Name map.now) (and_value 3 (value_of kind.Key low.now)
        (and_value 4 (value_of kind.High high.now) (and_value 5 (value_of kind.Location location.now) more))) ≡ Err reason) }
{
    let map = name_at(map, 2)?;
    let low = key_at(low, 3)?;
    let high = high_at(high, 4)?;
    let location = location_at(location, 5)?;
    Ok(RangeAt {
        map,
        low,
        high,
        location,
    })
}
