//! The values of guid, bytes and datetime keys.
ghost use Rattle.std.specs.Prelude.{◌≡◌, ◌≤◌, length, IsTrue};
ghost use Rattle.std.specs.Option.{SomeIff};
ghost use Rattle.cell_world.specs.Texts.{are_bytes};
ghost use Rattle.cell_world.specs.KeyForms.{is_normal, last_tick, last_is_zero, guid_form};
ghost use Rattle.cell_world.specs.declared.cells.KeyType.TheVariants as types;
ghost use Rattle.key_space.specs.Guids.{IsGuid};

use cell_world::norm_keys::NormKey;
use std::marker::Model;

/// The last tick of a datetime: the end of the year 9999, in units of 100 nanoseconds from the start of the year 1.
pub const LAST_TICK: u64 = 3_155_378_975_999_999_999;

/// The ticks of a datetime. Contracts see the number.
#[derive(Clone, Copy)]
pub struct Ticks {
    ticks: u64,
}

impl Model for Ticks {
    ghost use Rattle.std.specs.Prelude.{ℕ, ◌≤◌};
    ghost use Rattle.cell_world.specs.KeyForms.{last_tick};

    ghost Value = { ℕ };

    ghost view = { λ t. t.ticks };

    ghost invariant = { λ t. t.ticks ≤ last_tick };

    ghost inverse = { λ n. record { ticks = n } };
}

impl Ticks {
    /// `None` exactly past the last tick.
    pub fn of(ticks: u64) -> Option<Ticks>
        ensures { SomeIff result (ticks ≤ last_tick) ticks }
    {
        if ticks <= LAST_TICK {
            Some(Ticks { ticks })
        } else {
            None
        }
    }

    /// The number of ticks.
    pub fn get(&self) -> u64
        ensures value { result ≡ self.now }
        ensures bound { result ≤ last_tick }
    {
        self.ticks
    }
}

/// The bytes of a guid, in the order of its text. Contracts see the bytes.
#[derive(Clone, Copy)]
pub struct Guid {
    bytes: [u8; 16],
}

impl Model for Guid {
    ghost use Rattle.std.specs.Prelude.{ℕ, List};
    ghost use Rattle.key_space.specs.Guids.{IsGuid};

    ghost Value = { List ℕ };

    ghost view = { λ g. g.bytes };

    ghost invariant = { λ g. IsGuid g.bytes };

    ghost inverse = { λ bytes. record { bytes = bytes } };
}

/// Tells what is true of each list of bytes. Does nothing.
fn known_bytes(bytes: &[u8])
    ensures { IsTrue (are_bytes bytes.now) }
{
    let _bytes = bytes;
}

impl Guid {
    /// The guid with these bytes.
    pub fn of(bytes: &[u8; 16]) -> Guid
        ensures { result ≡ bytes.now }
    {
        known_bytes(bytes);
        Guid { bytes: *bytes }
    }

    /// Its bytes.
    pub fn bytes(&self) -> [u8; 16]
        ensures value { result ≡ self.now }
        ensures known { IsGuid self.now }
    {
        self.bytes
    }
}

/// The bytes of a bytes key: at most 128, the last of them not zero. Contracts see the bytes.
#[derive(Clone, Copy)]
pub struct KeyBytes {
    form: NormKey,
}

impl Model for KeyBytes {
    ghost use Rattle.std.specs.Prelude.{ℕ, List, IsTrue};
    ghost use Rattle.cell_world.specs.Texts.{are_bytes};
    ghost use Rattle.cell_world.specs.KeyForms.{is_normal};
    ghost use Rattle.cell_world.specs.declared.cells.KeyType.TheVariants as types;

    ghost Value = { List ℕ };

    ghost view = { λ b. b.form };

    ghost invariant = { λ b. IsTrue (is_normal types.Bytes b.form) };

    ghost inverse = { λ bytes. record { form = bytes } };
}

/// Whether the last byte is zero.
fn last_is_zero(bytes: &[u8]) -> bool
    ensures { result ≡ last_is_zero bytes.now }
{
    match bytes {
        [.., last] => *last == 0,
        [] => false,
    }
}

impl KeyBytes {
    /// `None` exactly where the last byte is zero.
    pub fn of(form: &NormKey) -> Option<KeyBytes>
        ensures { SomeIff result (IsTrue (is_normal types.Bytes form.now)) form.now }
    {
        form.known();
        if last_is_zero(form.as_slice()) {
            None
        } else {
            Some(KeyBytes { form: *form })
        }
    }

    /// The bytes as a normal form.
    pub fn form(&self) -> NormKey
        ensures value { result ≡ self.now }
        ensures known { IsTrue (is_normal types.Bytes self.now) }
    {
        self.form
    }
}

/// The normal form with these bytes.
pub(crate) fn norm(bytes: &[u8]) -> NormKey
    requires { length bytes.now ≤ 128 }
    ensures { result ≡ bytes.now }
{
    NormKey::of_bytes(bytes).unwrap()
}
