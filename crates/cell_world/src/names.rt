//! Names of maps and tables.
ghost use Rattle.std.specs.Prelude.{◌≡◌, ◌∷◌, [], IsTrue};
ghost use Rattle.std.specs.Option.{SomeIff};
ghost use Rattle.cell_world.specs.Texts.{is_name};

use crate::grammar::is_name;
use crate::limits::NAME_BYTES;
use crate::padded::Padded;
use std::marker::Model;

/// The name of a map or a table: a letter, then letters, digits and `_`, at most 32 bytes in all. Upper and lower case differ. Contracts see its bytes.
#[derive(Clone, Copy, PartialEq, Eq, PartialOrd, Ord)]
pub struct Name {
    text: Padded<NAME_BYTES>,
}

impl Model for Name {
    ghost use Rattle.std.specs.Prelude.{ℕ, List, IsTrue};
    ghost use Rattle.cell_world.specs.Texts.{is_name};

    ghost Value = { List ℕ };

    ghost view = { λ t. t.text };

    ghost invariant = { λ t. IsTrue (is_name t.text) };

    ghost inverse = { λ xs. record { text = xs } };
}

impl Name {
    /// The name that these bytes spell. `None` exactly where they spell none. Takes no memory.
    pub fn read(bytes: &[u8]) -> Option<Name>
        ensures { SomeIff result (IsTrue (is_name bytes.now)) bytes.now }
    {
        if !is_name(bytes) {
            return None;
        }
        Some(Name {
            text: Padded::of(bytes),
        })
    }

    /// Its bytes.
    pub fn as_slice(&self) -> &[u8]
        ensures { result.now ≡ self.now }
    {
        self.text.as_slice()
    }

    /// Tells what is true of each value of the type. Does nothing.
    pub fn known(&self)
        ensures { IsTrue (is_name self.now) }
    {
        let _text = self.text;
    }

    /// The least name: no name comes before it in byte order. Takes no memory.
    pub fn least() -> Name
        ensures { result ≡ 65 ∷ [] }
    {
        Name {
            text: Padded::of(b"A"),
        }
    }
}
