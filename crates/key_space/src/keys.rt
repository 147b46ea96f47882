//! Keys, and the way to their normal forms and back.
ghost use Rattle.std.specs.Prelude.{◌≡◌, ◌↔◌, ◌≤◌, length, IsTrue, IsSome, IfSome, Some};
ghost use Rattle.std.specs.Int.{w64, to_be_bytes, from_be_bytes};
ghost use Rattle.cell_world.specs.KeyForms.{is_normal, last_tick, guid_form};
ghost use Rattle.cell_world.specs.KeyPrinting.{guid_unformed};
ghost use Rattle.key_space.specs.Values.{type_of, form_of, IsKey};
ghost use Rattle.key_space.specs.declared.keys.Key.{Key as Value};

use crate::numbers::{form_of_int, form_of_long, int_of, long_of};
use crate::values::{Guid, KeyBytes, Ticks, norm};
use cell_world::cells::KeyType;
use cell_world::norm_keys::NormKey;

/// A key of one of the six types, with its value.
#[derive(Clone, Copy)]
pub enum Key {
    Int(i32),
    Long(i64),
    Guid(Guid),
    Bytes(KeyBytes),
    Datetime(Ticks),
    /// The number of 100-nanosecond ticks.
    Timespan(i64),
}

/// The bytes 10 to 15, 8, 9, 7, 6, 5, 4, 3, 2, 1, 0 of a guid.
fn form_of_guid(guid: &Guid) -> [u8; 16]
    ensures { result ≡ guid_form guid.now }
{
    let [a, b, c, d, e, f, g, h, i, j, k, l, m, n, o, p] = guid.bytes();
    [k, l, m, n, o, p, i, j, h, g, f, e, d, c, b, a]
}

impl Key {
    /// The type of the key.
    pub fn kind(&self) -> KeyType
        ensures value { result ≡ type_of self.now }
        ensures known { IsKey self.now }
    {
        match self {
            Key::Int(x) => {
                let _value = *x;
                KeyType::Int
            }
            Key::Long(x) => {
                let _value = *x;
                KeyType::Long
            }
            Key::Guid(guid) => {
                let _bytes = guid.bytes();
                KeyType::Guid
            }
            Key::Bytes(bytes) => {
                let _form = bytes.form();
                KeyType::Bytes
            }
            Key::Datetime(ticks) => {
                let _ticks = ticks.get();
                KeyType::Datetime
            }
            Key::Timespan(x) => {
                let _value = *x;
                KeyType::Timespan
            }
        }
    }

    /// The normal form, in whose byte order keys stand. Takes no memory.
    pub fn normal(&self) -> NormKey
        ensures { result ≡ form_of self.now }
    {
        match self {
            Key::Int(x) => norm(&form_of_int(*x)),
            Key::Long(x) => norm(&form_of_long(*x)),
            Key::Guid(guid) => norm(&form_of_guid(guid)),
            Key::Bytes(bytes) => bytes.form(),
            Key::Datetime(ticks) => norm(&ticks.get().to_be_bytes()),
            Key::Timespan(x) => norm(&form_of_long(*x)),
        }
    }
}

/// The guid of a normal form.
fn guid_of(form: &[u8]) -> Option<Guid>
    ensures some { IsSome result ↔ (length form.now ≡ 16) }
    ensures value { IfSome result (λ bytes. bytes ≡ guid_unformed form.now) }
{
    match form {
        [k, l, m, n, o, p, i, j, h, g, f, e, d, c, b, a] => Some(Guid::of(&[
            *a, *b, *c, *d, *e, *f, *g, *h, *i, *j, *k, *l, *m, *n, *o, *p,
        ])),
        _ => None,
    }
}

/// The ticks of a normal form.
fn ticks_of(form: &[u8]) -> Option<Ticks>
    ensures some { IsSome result ↔ ((length form.now ≡ 8) × (from_be_bytes w64 form.now ≤ last_tick)) }
    ensures value { IfSome result (λ ticks. to_be_bytes w64 ticks ≡ form.now) }
{
    match form {
        [a, b, c, d, e, f, g, h] => {
            Ticks::of(u64::from_be_bytes([*a, *b, *c, *d, *e, *f, *g, *h]))
        }
        _ => None,
    }
}

/// The key of this type with this normal form. `None` exactly where the bytes are no normal form of the type. Takes no memory.
pub fn key_of(kind: KeyType, form: &NormKey) -> Option<Key>
    ensures some { IsSome result ↔ IsTrue (is_normal kind form.now) }
    ensures value { IfSome result (λ key. (type_of key ≡ kind) × (form_of key ≡ form.now)) }
    ensures back { (key : Value) → IsKey key → type_of key ≡ kind → form_of key ≡ form.now → result ≡ Some key }
{
    form.known();
    match kind {
        KeyType::Int => Some(Key::Int(int_of(form.as_slice())?)),
        KeyType::Long => Some(Key::Long(long_of(form.as_slice())?)),
        KeyType::Guid => Some(Key::Guid(guid_of(form.as_slice())?)),
        KeyType::Bytes => Some(Key::Bytes(KeyBytes::of(form)?)),
        KeyType::Datetime => Some(Key::Datetime(ticks_of(form.as_slice())?)),
        KeyType::Timespan => Some(Key::Timespan(long_of(form.as_slice())?)),
    }
}
