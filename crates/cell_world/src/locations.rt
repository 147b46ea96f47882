//! Where the databases of shards are.
ghost use Rattle.std.specs.Prelude.{◌≡◌, IsTrue};
ghost use Rattle.std.specs.Option.{SomeIff};
ghost use Rattle.cell_world.specs.Texts.{is_location};

use crate::grammar::is_location;
use crate::limits::LOCATION_BYTES;
use crate::padded::Padded;
use std::marker::Model;

/// Where a shard's database is: `SERVER/DATABASE`, each part a letter or a digit and then letters, digits, `_`, `-` and `.`, at most 64 bytes. Contracts see its bytes.
#[derive(Clone, Copy, PartialEq, Eq, PartialOrd, Ord)]
pub struct Location {
    text: Padded<LOCATION_BYTES>,
}

impl Model for Location {
    ghost use Rattle.std.specs.Prelude.{ℕ, List, IsTrue};
    ghost use Rattle.cell_world.specs.Texts.{is_location};

    ghost Value = { List ℕ };

    ghost view = { λ t. t.text };

    ghost invariant = { λ t. IsTrue (is_location t.text) };

    ghost inverse = { λ xs. record { text = xs } };
}

impl Location {
    /// The location that these bytes spell. `None` exactly where they spell none. Takes no memory.
    pub fn read(bytes: &[u8]) -> Option<Location>
        ensures { SomeIff result (IsTrue (is_location bytes.now)) bytes.now }
    {
        if !is_location(bytes) {
            return None;
        }
        Some(Location {
            text: Padded::of(bytes),
        })
    }

    /// Its bytes.
    pub fn as_slice(&self) -> &[u8]
        ensures { result.now ≡ self.now }
    {
        self.text.as_slice()
    }

    /// Tells what is true of each value of the type. Does nothing.
    pub fn known(&self)
        ensures { IsTrue (is_location self.now) }
    {
        let _text = self.text;
    }
}
