//! Names, keys and locations of the tests.

use cell_world::key_texts::KeyText;
use cell_world::locations::Location;
use cell_world::names::Name;
use cell_world::norm_keys::NormKey;
use std::test::Fail;

/// The map `m`.
pub fn map() -> Result<Name, Fail> {
    Ok(Name::read(b"m").ok_or("a name")?)
}

/// The location `s/a`.
pub fn here() -> Result<Location, Fail> {
    Ok(Location::read(b"s/a").ok_or("a location")?)
}

/// The location `s/b`.
pub fn there() -> Result<Location, Fail> {
    Ok(Location::read(b"s/b").ok_or("a location")?)
}

/// The key that is written so.
pub fn word(text: &[u8]) -> Result<KeyText, Fail> {
    Ok(KeyText::read(text).ok_or("a key word")?)
}

/// The key of an int map that is this number.
pub fn key(number: u32) -> Result<NormKey, Fail> {
    let bytes = number.wrapping_add(1 << 31).to_be_bytes();
    Ok(NormKey::of_bytes(&bytes).ok_or("a key")?)
}
