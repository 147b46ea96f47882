//! Printing keys.
ghost use Rattle.std.specs.Prelude.{◌≡◌, IfOk, Some};
ghost use Rattle.std.specs.Fmt.{decimal, signed_decimal};
ghost use Rattle.cell_world.specs.KeyForms.{normal_of};
ghost use Rattle.cell_world.specs.KeyPrinting.{key_text, guid_text, bytes_text};
ghost use Rattle.key_space.specs.Values.{type_of, form_of};
ghost use Rattle.key_space.specs.Printing.{printed_text};

use crate::keys::Key;
use crate::values::Guid;
use cell_world::memory::Memory;
use std::alloc::{AllocError, Global};
use uuid::Uuid;

/// The decimal text of a number with a sign.
fn signed(alloc: Global, x: i64) -> Result<Vec<u8>, AllocError>
    ensures { IfOk result (λ text. text.items ≡ signed_decimal x) }
{
    let text = format!(in alloc; "{x}")?;
    Ok(text.into_bytes())
}

/// The decimal text of a number without a sign.
fn unsigned(alloc: Global, n: u64) -> Result<Vec<u8>, AllocError>
    ensures { IfOk result (λ text. text.items ≡ decimal n) }
{
    let text = format!(in alloc; "{n}")?;
    Ok(text.into_bytes())
}

/// The text of a guid, in lower case.
fn guid(alloc: Global, guid: &Guid) -> Result<Vec<u8>, AllocError>
    ensures { IfOk result (λ text. text.items ≡ guid_text guid.now) }
{
    let mut buffer = Uuid::encode_buffer();
    let text = Uuid::from_bytes(guid.bytes())
        .hyphenated()
        .encode_lower(&mut buffer);
    Vec::from_slice(alloc, text.as_bytes())
}

/// `0x` and two digits a byte, in lower case.
fn bytes(alloc: Global, bytes: &[u8]) -> Result<Vec<u8>, AllocError>
    ensures { IfOk result (λ text. text.items ≡ bytes_text bytes.now) }
{
    let digits = hex::encode(alloc, bytes)?;
    let mut text = Vec::from_slice(alloc, b"0x")?;
    text.extend_from_slice(digits.as_bytes())?;
    Ok(text)
}

/// The text of a key, by its type.
fn text_of(alloc: Global, key: &Key) -> Result<Vec<u8>, AllocError>
    ensures { IfOk result (λ text. text.items ≡ printed_text key.now) }
{
    match key {
        Key::Int(x) => signed(alloc, i64::from(*x)),
        Key::Long(x) => signed(alloc, *x),
        Key::Guid(of) => guid(alloc, of),
        Key::Bytes(of) => bytes(alloc, of.form().as_slice()),
        Key::Datetime(ticks) => unsigned(alloc, ticks.get()),
        Key::Timespan(x) => signed(alloc, *x),
    }
}

/// The one printed text of the key. It is read again as the same key. `Memory` where there is none for it.
pub fn write_key(alloc: Global, key: &Key) -> Result<Vec<u8>, Memory>
    ensures text { IfOk result (λ text. text.items ≡ key_text (type_of key.now) (form_of key.now)) }
    ensures again { IfOk result (λ text. normal_of (type_of key.now) text.items ≡ Some (form_of key.now)) }
{
    let _kind = key.kind();
    Ok(text_of(alloc, key)?)
}
