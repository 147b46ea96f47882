//! Reading keys.
ghost use Rattle.std.specs.Prelude.{◌≡◌, ◌↔◌, ◌<◌, ◌^◌, length, IfOk, IfErr, IsOk, IsSome, Some};
ghost use Rattle.std.specs.Int.{w32, w64, to_be_bytes};
ghost use Rattle.cell_world.specs.KeyForms.{normal_of, guid_form};
ghost use Rattle.cell_world.specs.declared.cells.KeyType.TheVariants as types;
ghost use Rattle.key_space.specs.Values.{type_of, form_of, moved_up};
ghost use Rattle.key_space.specs.Texts.{IsKeyFault};

use crate::bytes_texts::read_bytes;
use crate::decimals::{check_signed, check_unsigned, int_at, long_at, number_at};
use crate::faults::KeyFault;
use crate::guid_texts::read_guid;
use crate::keys::Key;
use crate::values::{Guid, Ticks};
use cell_world::cells::KeyType;

/// The int that the text stands for.
fn int(text: &[u8]) -> Result<i32, KeyFault>
    requires { length text.now < 2 ^ 32 }
    ensures ok { IfOk result (λ x. normal_of types.Int text.now ≡ Some (to_be_bytes w32 (moved_up (2 ^ 31) x))) }
    ensures err { IfErr result (IsKeyFault types.Int text.now) }
{
    check_signed(text)?;
    match int_at(text) {
        Some(x) => Ok(x),
        None => Err(KeyFault::OutOfRange),
    }
}

/// The long that the text stands for.
fn long(text: &[u8]) -> Result<i64, KeyFault>
    requires { length text.now < 2 ^ 32 }
    ensures ok { IfOk result (λ x. normal_of types.Long text.now ≡ Some (to_be_bytes w64 (moved_up (2 ^ 63) x))) }
    ensures err { IfErr result (IsKeyFault types.Long text.now) }
{
    check_signed(text)?;
    match long_at(text) {
        Some(x) => Ok(x),
        None => Err(KeyFault::OutOfRange),
    }
}

/// The timespan that the text stands for: it is written as a long.
fn timespan(text: &[u8]) -> Result<i64, KeyFault>
    requires { length text.now < 2 ^ 32 }
    ensures ok { IfOk result (λ x. normal_of types.Timespan text.now ≡ Some (to_be_bytes w64 (moved_up (2 ^ 63) x))) }
    ensures err { IfErr result (IsKeyFault types.Timespan text.now) }
{
    long(text)
}

/// The ticks of the datetime that the text stands for.
fn datetime(text: &[u8]) -> Result<Ticks, KeyFault>
    requires { length text.now < 2 ^ 32 }
    ensures ok { IfOk result (λ ticks. normal_of types.Datetime text.now ≡ Some (to_be_bytes w64 ticks)) }
    ensures err { IfErr result (IsKeyFault types.Datetime text.now) }
{
    check_unsigned(text)?;
    let Some(ticks) = number_at(text) else {
        return Err(KeyFault::OutOfRange);
    };
    match Ticks::of(ticks) {
        Some(ticks) => Ok(ticks),
        None => Err(KeyFault::OutOfRange),
    }
}

/// The guid that the text stands for.
fn guid(text: &[u8]) -> Result<Guid, KeyFault>
    requires { length text.now < 2 ^ 32 }
    ensures ok { IfOk result (λ bytes. normal_of types.Guid text.now ≡ Some (guid_form bytes)) }
    ensures err { IfErr result (IsKeyFault types.Guid text.now) }
{
    match read_guid(text) {
        Ok(guid) => Ok(guid),
        Err(fault) => Err(fault),
    }
}

/// The key of the type that the text stands for, by the type.
fn key_at(kind: KeyType, text: &[u8]) -> Result<Key, KeyFault>
    requires { length text.now < 2 ^ 32 }
    ensures ok { IfOk result (λ key. (type_of key ≡ kind) × (normal_of kind text.now ≡ Some (form_of key))) }
    ensures err { IfErr result (IsKeyFault kind text.now) }
{
    match kind {
        KeyType::Int => Ok(Key::Int(int(text)?)),
        KeyType::Long => Ok(Key::Long(long(text)?)),
        KeyType::Guid => Ok(Key::Guid(guid(text)?)),
        KeyType::Bytes => Ok(Key::Bytes(read_bytes(text)?)),
        KeyType::Datetime => Ok(Key::Datetime(datetime(text)?)),
        KeyType::Timespan => Ok(Key::Timespan(timespan(text)?)),
    }
}

/// The key of the type that the text stands for. Takes no memory, and time by the length of the text.
///
/// `NotInGrammar` comes first, with its place. Then a bytes key of more than 128 bytes as written is `TooLong`, and a number outside the type's values is `OutOfRange`.
pub fn read_key(kind: KeyType, text: &[u8]) -> Result<Key, KeyFault>
    requires { length text.now < 2 ^ 32 }
    ensures exact { IsOk result ↔ IsSome (normal_of kind text.now) }
    ensures key { IfOk result (λ key. (type_of key ≡ kind) × (normal_of kind text.now ≡ Some (form_of key))) }
    ensures fault { IfErr result (IsKeyFault kind text.now) }
{
    key_at(kind, text)
}
