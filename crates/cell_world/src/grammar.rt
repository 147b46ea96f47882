//! The grammars of names, locations and key texts.
ghost use Rattle.std.specs.Prelude.{◌≡◌, ◌≤◌, length, IsTrue};
ghost use Rattle.std.specs.List.{list_all, position};
ghost use Rattle.cell_world.specs.Texts.{is_letter, is_digit, is_name_byte, is_name, is_part_byte, is_part, is_slash, is_location, is_key_text_byte, is_key_text, are_bytes};
ghost use Rattle.cell_world.specs.declared.limits.TheConstants.{KEY_TEXT_BYTES, LOCATION_BYTES, NAME_BYTES, PART_BYTES};

use crate::limits::{KEY_TEXT_BYTES, NAME_BYTES, PART_BYTES};

fn all_name_bytes(bytes: &[u8]) -> bool
    ensures { result ≡ list_all is_name_byte bytes.now }
{
    bytes.iter().all(|byte| matches!(*byte, b'A'..=b'Z' | b'a'..=b'z' | b'0'..=b'9' | b'_'))
}

/// Whether the bytes are a name.
pub(crate) fn is_name(bytes: &[u8]) -> bool
    ensures value { result ≡ is_name bytes.now }
    ensures fits { IsTrue result → length bytes.now ≤ NAME_BYTES }
{
    match bytes {
        [] => false,
        [first, rest @ ..] => {
            let letter = matches!(*first, b'A'..=b'Z' | b'a'..=b'z');
            let fits = rest.len() < NAME_BYTES;
            let inner = all_name_bytes(rest);
            letter && (fits && inner)
        }
    }
}

fn is_part_byte(byte: u8) -> bool
    ensures { result ≡ is_part_byte byte }
{
    matches!(byte, b'A'..=b'Z' | b'a'..=b'z' | b'0'..=b'9' | b'_' | b'-' | b'.')
}

fn all_part_bytes(bytes: &[u8]) -> bool
    ensures { result ≡ list_all is_part_byte bytes.now }
{
    bytes.iter().all(|byte| is_part_byte(*byte))
}

/// Whether the bytes are a server or a database.
fn is_part(bytes: &[u8]) -> bool
    ensures value { result ≡ is_part bytes.now }
    ensures fits { IsTrue result → length bytes.now ≤ PART_BYTES }
{
    match bytes {
        [] => false,
        [first, rest @ ..] => {
            let start = matches!(*first, b'A'..=b'Z' | b'a'..=b'z');
            let digit = matches!(*first, b'0'..=b'9');
            let fits = rest.len() < PART_BYTES;
            let inner = all_part_bytes(rest);
            (start || digit) && (fits && inner)
        }
    }
}

/// The place of the first `/`.
fn slash_at(bytes: &[u8]) -> Option<usize>
    ensures { result ≡ position is_slash bytes.now }
{
    bytes.iter().position(|byte| *byte == b'/')
}

/// Whether the bytes are a location.
pub(crate) fn is_location(bytes: &[u8]) -> bool
    ensures value { result ≡ is_location bytes.now }
    ensures fits { IsTrue result → length bytes.now ≤ LOCATION_BYTES }
{
    match slash_at(bytes) {
        None => false,
        Some(at) => {
            let server = is_part(&bytes[..at]);
            let database = is_part(&bytes[at + 1..]);
            server && database
        }
    }
}

fn all_key_text_bytes(bytes: &[u8]) -> bool
    ensures { result ≡ list_all is_key_text_byte bytes.now }
{
    bytes.iter().all(|byte| matches!(*byte, b'!'..=b'~'))
}

/// Whether the bytes are a key as it is written.
pub(crate) fn is_key_text(bytes: &[u8]) -> bool
    ensures value { result ≡ is_key_text bytes.now }
    ensures fits { IsTrue result → length bytes.now ≤ KEY_TEXT_BYTES }
{
    let some = !bytes.is_empty();
    let fits = bytes.len() <= KEY_TEXT_BYTES;
    let inner = all_key_text_bytes(bytes);
    some && (fits && inner)
}

/// Tells what is true of each list of bytes. Does nothing.
pub(crate) fn known_bytes(bytes: &[u8])
    ensures { IsTrue (are_bytes bytes.now) }
{
    let _bytes = bytes;
}
