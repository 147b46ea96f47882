//! Keys as they are written.
ghost use Rattle.std.specs.Prelude.{◌≡◌, IsTrue};
ghost use Rattle.std.specs.Option.{SomeIff};
ghost use Rattle.cell_world.specs.Texts.{is_key_text};

use crate::grammar::is_key_text;
use crate::limits::KEY_TEXT_BYTES;
use crate::padded::Padded;
use std::marker::Model;

/// A key as it is written: 1 to 300 bytes from `!` to `~`. What key it is depends on a map's key type. Contracts see its bytes.
#[derive(Clone, Copy, PartialEq, Eq)]
pub struct KeyText {
    text: Padded<KEY_TEXT_BYTES>,
}

impl Model for KeyText {
    ghost use Rattle.std.specs.Prelude.{ℕ, List, IsTrue};
    ghost use Rattle.cell_world.specs.Texts.{is_key_text};

    ghost Value = { List ℕ };

    ghost view = { λ t. t.text };

    ghost invariant = { λ t. IsTrue (is_key_text t.text) };

    ghost inverse = { λ xs. record { text = xs } };
}

impl KeyText {
    /// The key text that these bytes are. `None` exactly where they are none. Takes no memory.
    pub fn read(bytes: &[u8]) -> Option<KeyText>
        ensures { SomeIff result (IsTrue (is_key_text bytes.now)) bytes.now }
    {
        if !is_key_text(bytes) {
            return None;
        }
        Some(KeyText {
            text: Padded::of(bytes),
        })
    }

    /// Its bytes.
    pub fn as_slice(&self) -> &[u8]
        ensures { result.now ≡ self.now }
    {
        self.text.as_slice()
    }

    /// Tells what is true of each value of the type. Does nothing.
    pub fn known(&self)
        ensures { IsTrue (is_key_text self.now) }
    {
        let _text = self.text;
    }
}
