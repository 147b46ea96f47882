//! Keys, tokens and rows as they are written.
ghost use Rattle.std.specs.Prelude.{◌≡◌, ◌++◌, ℕ, ◌≤◌, ◌<◌, ◌^◌, slice_index, decimal, OnOk, IfOk};
ghost use Rattle.std.specs.Int.{from_be_bytes, w32, w64};
ghost use Rattle.cell_world.specs.KeyPrinting.{signed_text, guid_text, guid_unformed, bytes_text, token_text, key_text};

use crate::adding::{add, add_number};
use cell_world::cells::{KeyType, Token};
use cell_world::memory::Memory;
use cell_world::norm_keys::NormKey;
use std::alloc::Global;
use uuid::Uuid;

/// The byte at a place; 0 behind the last.
fn byte_at(bytes: &[u8], place: usize) -> u8
    ensures { result ≡ slice_index bytes.now place }
{
    match bytes.get(place) {
        Some(byte) => *byte,
        None => 0,
    }
}

/// The first four bytes as a number.
fn number_32(form: &[u8]) -> u32
    ensures { result ≡ from_be_bytes w32 form.now }
{
    u32::from_be_bytes([
        byte_at(form, 0),
        byte_at(form, 1),
        byte_at(form, 2),
        byte_at(form, 3),
    ])
}

/// The first eight bytes as a number.
fn number_64(form: &[u8]) -> u64
    ensures { result ≡ from_be_bytes w64 form.now }
{
    u64::from_be_bytes([
        byte_at(form, 0),
        byte_at(form, 1),
        byte_at(form, 2),
        byte_at(form, 3),
        byte_at(form, 4),
        byte_at(form, 5),
        byte_at(form, 6),
        byte_at(form, 7),
    ])
}

/// Adds the number that was moved up by half.
fn add_signed(alloc: Global, line: &mut Vec<u8>, half: u64, moved: u64) -> Result<(), Memory>
    ensures { OnOk result (line.new.items ≡ line.old.items ++ signed_text half moved) }
{
    if moved < half {
        add(line, b"-")?;
        add_number(alloc, line, half - moved)
    } else {
        add_number(alloc, line, moved - half)
    }
}

/// Adds the text of a guid.
fn add_guid(line: &mut Vec<u8>, bytes: &[u8; 16]) -> Result<(), Memory>
    ensures { OnOk result (line.new.items ≡ line.old.items ++ guid_text bytes.now) }
{
    let mut buffer = Uuid::encode_buffer();
    let text = Uuid::from_bytes(*bytes)
        .hyphenated()
        .encode_lower(&mut buffer);
    add(line, text.as_bytes())
}

/// The bytes of a guid in the order of its text, from its normal form.
fn unformed(form: &[u8]) -> [u8; 16]
    ensures { result ≡ guid_unformed form.now }
{
    [
        byte_at(form, 15),
        byte_at(form, 14),
        byte_at(form, 13),
        byte_at(form, 12),
        byte_at(form, 11),
        byte_at(form, 10),
        byte_at(form, 9),
        byte_at(form, 8),
        byte_at(form, 6),
        byte_at(form, 7),
        byte_at(form, 0),
        byte_at(form, 1),
        byte_at(form, 2),
        byte_at(form, 3),
        byte_at(form, 4),
        byte_at(form, 5),
    ]
}

/// Adds `0x` and two digits a byte.
pub(crate) fn add_bytes(alloc: Global, line: &mut Vec<u8>, bytes: &[u8]) -> Result<(), Memory>
    ensures { OnOk result (line.new.items ≡ line.old.items ++ bytes_text bytes.now) }
{
    let Ok(digits) = hex::encode(alloc, bytes) else {
        return Err(Memory);
    };
    add(line, b"0x")?;
    add(line, digits.as_bytes())
}

/// Adds a token.
pub(crate) fn add_token(line: &mut Vec<u8>, token: Token) -> Result<(), Memory>
    ensures { OnOk result (line.new.items ≡ line.old.items ++ token_text token) }
{
    add_guid(line, &token.0.to_be_bytes())
}

/// Adds the one text of a key, by the type of the map.
#[tactic(auto, unfolding(cell_world::specs::KeyPrinting::key_text))]
pub(crate) fn add_key(
    alloc: Global,
    line: &mut Vec<u8>,
    keys: KeyType,
    key: &NormKey,
) -> Result<(), Memory>
    ensures { OnOk result (line.new.items ≡ line.old.items ++ key_text keys key.now) }
{
    let form = key.as_slice();
    match keys {
        KeyType::Int => add_signed(alloc, line, 1 << 31, u64::from(number_32(form))),
        KeyType::Long | KeyType::Timespan => add_signed(alloc, line, 1 << 63, number_64(form)),
        KeyType::Datetime => add_number(alloc, line, number_64(form)),
        KeyType::Guid => add_guid(line, &unformed(form)),
        KeyType::Bytes => add_bytes(alloc, line, form),
    }
}
