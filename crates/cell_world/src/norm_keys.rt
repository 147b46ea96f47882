//! Keys in their normal form.
ghost use Rattle.std.specs.Prelude.{◌≡◌, ◌≤◌, length, IsTrue};
ghost use Rattle.std.specs.Option.{SomeIff};
ghost use Rattle.cell_world.specs.Texts.{is_key_form};
ghost use Rattle.cell_world.specs.declared.limits.TheConstants.{KEY_BYTES};

use crate::grammar::known_bytes;
use crate::limits::KEY_BYTES;
use crate::padded::Padded;
use std::marker::Model;

/// The normal form of a key: at most 128 bytes, in whose order keys stand. Contracts see its bytes.
#[derive(Clone, Copy, PartialEq, Eq, PartialOrd, Ord)]
pub struct NormKey {
    text: Padded<KEY_BYTES>,
}

impl Model for NormKey {
    ghost use Rattle.std.specs.Prelude.{ℕ, List, IsTrue};
    ghost use Rattle.cell_world.specs.Texts.{is_key_form};

    ghost Value = { List ℕ };

    ghost view = { λ t. t.text };

    ghost invariant = { λ t. IsTrue (is_key_form t.text) };

    ghost inverse = { λ xs. record { text = xs } };
}

impl NormKey {
    /// The key with these bytes. `None` exactly past 128 bytes. Takes no memory.
    pub fn of_bytes(bytes: &[u8]) -> Option<NormKey>
        ensures { SomeIff result (length bytes.now ≤ KEY_BYTES) bytes.now }
    {
        if bytes.len() > KEY_BYTES {
            return None;
        }
        known_bytes(bytes);
        Some(NormKey {
            text: Padded::of(bytes),
        })
    }

    /// Its bytes.
    pub fn as_slice(&self) -> &[u8]
        ensures { result.now ≡ self.now }
    {
        self.text.as_slice()
    }

    /// Tells what is true of each value of the type. Does nothing.
    pub fn known(&self)
        ensures { IsTrue (is_key_form self.now) }
    {
        let _text = self.text;
    }
}
