//! Words by their kinds. Each call answers `BadWord` with the number of the word where it isn't in its grammar.
ghost use Rattle.std.specs.Prelude.{◌≡◌, ◌≤◌, length, IfOk, IfErr, Some, None, is_some, IsTrue};
ghost use Rattle.std.specs.Option.{option_map};
ghost use Rattle.script_lang.specs.Spelling.{kind_of, type_of, side_of, high_of, guid_number, token_of, hex_value, row_value_of, row_from, value_of};
ghost use Rattle.cell_world.specs.KeyForms.{after_0x, hex_bytes};
ghost use Rattle.script_lang.specs.Reading.{IsRead, IsUnread, IsUnreadFor};
ghost use Rattle.script_lang.specs.Values.{OfBytes, OfKind, OfType, OfHigh, OfToken, OfNumber, OfSide};
ghost use Rattle.script_lang.specs.WordKinds as kind;

use crate::stops::LineStop;
use cell_world::cells::{KeyType, MapKind, Token};
use cell_world::items::RowBytes;
use cell_world::key_texts::KeyText;
use cell_world::locations::Location;
use cell_world::memory::Memory;
use cell_world::names::Name;
use hex::FromHexError;
use key_space::reading::read_key;
use plain_model::commands::{HighText, Side};
use plain_model::finish::Reason;
use std::alloc::Global;
use uuid::Uuid;

/// The length of the text of a guid.
const GUID_BYTES: usize = 36;

/// The least token that a script can name: those below it are the numbers of jobs.
const LEAST_TOKEN: u128 = 1 << 64;

/// A name.
#[tactic(auto, unfolding(crate::specs::Spelling::value_of))]
pub(crate) fn name_at(word: &[u8], number: u32) -> Result<Name, Reason>
    ensures ok { IfOk result (λ name. IsRead kind.Name word.now (OfBytes name)) }
    ensures err { IfErr result (IsUnread kind.Name word.now number) }
{
    match Name::read(word) {
        Some(name) => Ok(name),
        None => Err(Reason::BadWord(number)),
    }
}

/// A location.
#[tactic(auto, unfolding(crate::specs::Spelling::value_of))]
pub(crate) fn location_at(word: &[u8], number: u32) -> Result<Location, Reason>
    ensures ok { IfOk result (λ location. IsRead kind.Location word.now (OfBytes location)) }
    ensures err { IfErr result (IsUnread kind.Location word.now number) }
{
    match Location::read(word) {
        Some(location) => Ok(location),
        None => Err(Reason::BadWord(number)),
    }
}

/// The text of a key.
#[tactic(auto, unfolding(crate::specs::Spelling::value_of))]
pub(crate) fn key_at(word: &[u8], number: u32) -> Result<KeyText, Reason>
    ensures ok { IfOk result (λ key. IsRead kind.Key word.now (OfBytes key)) }
    ensures err { IfErr result (IsUnread kind.Key word.now number) }
{
    match KeyText::read(word) {
        Some(key) => Ok(key),
        None => Err(Reason::BadWord(number)),
    }
}

/// The kind of a map.
fn kind_of(word: &[u8]) -> Option<MapKind>
    ensures { result ≡ kind_of word.now }
{
    if word == b"range".as_slice() {
        Some(MapKind::Range)
    } else if word == b"list".as_slice() {
        Some(MapKind::List)
    } else {
        None
    }
}

/// The kind of a map.
#[tactic(auto, unfolding(crate::specs::Spelling::value_of))]
pub(crate) fn kind_at(word: &[u8], number: u32) -> Result<MapKind, Reason>
    ensures ok { IfOk result (λ of. IsRead kind.MapKind word.now (OfKind of)) }
    ensures err { IfErr result (IsUnread kind.MapKind word.now number) }
{
    match kind_of(word) {
        Some(of) => Ok(of),
        None => Err(Reason::BadWord(number)),
    }
}

fn type_of(word: &[u8]) -> Option<KeyType>
    ensures { result ≡ type_of word.now }
{
    if word == b"int".as_slice() {
        Some(KeyType::Int)
    } else if word == b"long".as_slice() {
        Some(KeyType::Long)
    } else if word == b"guid".as_slice() {
        Some(KeyType::Guid)
    } else if word == b"bytes".as_slice() {
        Some(KeyType::Bytes)
    } else if word == b"datetime".as_slice() {
        Some(KeyType::Datetime)
    } else if word == b"timespan".as_slice() {
        Some(KeyType::Timespan)
    } else {
        None
    }
}

/// The type of a map's keys.
#[tactic(auto, unfolding(crate::specs::Spelling::value_of))]
pub(crate) fn type_at(word: &[u8], number: u32) -> Result<KeyType, Reason>
    ensures ok { IfOk result (λ of. IsRead kind.KeyType word.now (OfType of)) }
    ensures err { IfErr result (IsUnread kind.KeyType word.now number) }
{
    match type_of(word) {
        Some(of) => Ok(of),
        None => Err(Reason::BadWord(number)),
    }
}

fn side_of(word: &[u8]) -> Option<Side>
    ensures { result ≡ side_of word.now }
{
    if word == b"shard".as_slice() {
        Some(Side::Shard)
    } else if word == b"global".as_slice() {
        Some(Side::Global)
    } else {
        None
    }
}

/// A side.
#[tactic(auto, unfolding(crate::specs::Spelling::value_of))]
pub(crate) fn side_at(word: &[u8], number: u32) -> Result<Side, Reason>
    ensures ok { IfOk result (λ of. IsRead kind.Side word.now (OfSide of)) }
    ensures err { IfErr result (IsUnread kind.Side word.now number) }
{
    match side_of(word) {
        Some(of) => Ok(of),
        None => Err(Reason::BadWord(number)),
    }
}

fn high_of(word: &[u8]) -> Option<HighText>
    ensures { result ≡ high_of word.now }
{
    if word == b"max".as_slice() {
        return Some(HighText::Max);
    }
    match KeyText::read(word) {
        Some(key) => Some(HighText::At(key)),
        None => None,
    }
}

/// The end of a range.
#[tactic(auto, unfolding(crate::specs::Spelling::value_of))]
pub(crate) fn high_at(word: &[u8], number: u32) -> Result<HighText, Reason>
    ensures ok { IfOk result (λ high. IsRead kind.High word.now (OfHigh high)) }
    ensures err { IfErr result (IsUnread kind.High word.now number) }
{
    match high_of(word) {
        Some(high) => Ok(high),
        None => Err(Reason::BadWord(number)),
    }
}

/// Whether a word of this length is the text of a guid.
fn is_guid(word: &[u8]) -> bool
    requires { length word.now ≡ 36 }
    ensures { result ≡ is_some (guid_number word.now) }
{
    read_key(KeyType::Guid, word).is_ok()
}

/// The bytes that the text of a guid spells, as a big-endian number.
fn guid_number(word: &[u8]) -> Option<u128>
    ensures { result ≡ guid_number word.now }
{
    if word.len() != GUID_BYTES {
        return None;
    }
    if !is_guid(word) {
        return None;
    }
    let id = Uuid::try_parse_ascii(word).unwrap();
    Some(u128::from_be_bytes(id.into_bytes()))
}

fn token_of(word: &[u8]) -> Option<Token>
    ensures { result ≡ token_of word.now }
{
    let number = guid_number(word)?;
    if number >= LEAST_TOKEN {
        Some(Token(number))
    } else {
        None
    }
}

/// A token.
#[tactic(auto, unfolding(crate::specs::Spelling::value_of))]
pub(crate) fn token_at(word: &[u8], number: u32) -> Result<Token, Reason>
    ensures ok { IfOk result (λ token. IsRead kind.Token word.now (OfToken token)) }
    ensures err { IfErr result (IsUnread kind.Token word.now number) }
    ensures maybe { value_of kind.MaybeToken word.now ≡ value_of kind.Token word.now }
{
    match token_of(word) {
        Some(token) => Ok(token),
        None => Err(Reason::BadWord(number)),
    }
}

/// What is behind `0x`.
fn behind_0x(word: &[u8]) -> Option<&[u8]>
    ensures { option_map (λ digits. digits.now) result ≡ after_0x word.now }
{
    match word {
        [b'0', b'x', digits @ ..] => Some(digits),
        _ => None,
    }
}

/// The bytes of hexadecimal digits.
fn hex_value(alloc: Global, digits: &[u8]) -> Result<Option<Vec<u8>>, Memory>
    ensures { IfOk result (λ found. option_map (λ bytes. bytes.items) found ≡ hex_bytes digits.now) }
{
    match hex::decode(alloc, digits) {
        Ok(bytes) => Ok(Some(bytes)),
        Err(error) => {
            if error == FromHexError::OutOfMemory {
                return Err(Memory);
            }
            Ok(None)
        }
    }
}

/// The value of a row.
#[tactic(auto, unfolding(crate::specs::Spelling::value_of, crate::specs::Spelling::hex_value))]
pub(crate) fn row_value_at(alloc: Global, word: &[u8], number: u32) -> Result<RowBytes, LineStop>
    ensures ok { IfOk result (λ bytes. IsRead kind.RowValue word.now (OfBytes bytes)) }
    ensures err { IfErr result (IsUnreadFor kind.RowValue word.now number) }
{
    let Some(digits) = behind_0x(word) else {
        return Err(LineStop::Faulty(Reason::BadWord(number)));
    };
    let Some(bytes) = hex_value(alloc, digits)? else {
        return Err(LineStop::Faulty(Reason::BadWord(number)));
    };
    match RowBytes::from_vec(bytes) {
        Some(bytes) => Ok(bytes),
        None => Err(LineStop::Faulty(Reason::BadWord(number))),
    }
}
