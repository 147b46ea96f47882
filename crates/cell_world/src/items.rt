//! Lists inside cells, commands and replies, which contracts see as lists.
ghost use Rattle.std.specs.Prelude.{◌≡◌, ◌≤◌, ◌++◌, ◌∷◌, [], length, IsTrue, IfOk, OnOk, OnErr};
ghost use Rattle.std.specs.Option.{SomeIff};
ghost use Rattle.cell_world.specs.Texts.{is_row_value};
ghost use Rattle.cell_world.specs.declared.limits.TheConstants.{ROW_BYTES};

use crate::grammar::known_bytes;
use crate::limits::ROW_BYTES;
use crate::memory::Memory;
use std::alloc::Global;
use std::marker::Model;

/// A list of values. Contracts see the list, and not its room.
#[derive(Drop)]
pub struct Items<T> {
    items: Vec<T>,
}

impl<T> Model for Items<T> {
    ghost use Rattle.std.specs.Prelude.{List};

    ghost Value = { List T };

    ghost view = { λ it. it.items.items };
}

impl<T> Items<T> {
    /// The empty list. Takes no memory.
    pub fn new(alloc: Global) -> Items<T>
        ensures { result ≡ [] }
    {
        Items {
            items: Vec::new(alloc),
        }
    }

    /// Takes no memory.
    pub fn from_vec(items: Vec<T>) -> Items<T>
        ensures { result ≡ items.items }
    {
        Items { items }
    }

    /// Takes no memory.
    pub fn into_vec(self) -> Vec<T>
        ensures { result.items ≡ self }
    {
        let Items { items } = self;
        items
    }

    /// Its values.
    pub fn as_slice(&self) -> &[T]
        ensures { result.now ≡ self.now }
    {
        self.items.as_slice()
    }
}

impl<T: Drop> Items<T> {
    /// Adds a value at the end. `Memory` leaves the list unchanged.
    pub fn push(&mut self, item: T) -> Result<(), Memory>
        ensures ok { OnOk result (self.new ≡ self.old ++ item ∷ []) }
        ensures err { OnErr result (self.new ≡ self.old) }
    {
        self.items.push(item)?;
        Ok(())
    }
}

/// The value of a row: at most 1,024 bytes. Contracts see its bytes.
#[derive(Drop)]
pub struct RowBytes {
    items: Vec<u8>,
}

impl Model for RowBytes {
    ghost use Rattle.std.specs.Prelude.{ℕ, List, IsTrue};

    ghost Value = { List ℕ };

    ghost view = { λ row. row.items.items };

    ghost use Rattle.cell_world.specs.Texts.{is_row_value};

    ghost invariant = { λ row. IsTrue (is_row_value row.items.items) };
}

impl RowBytes {
    /// The row value with these bytes. `None` exactly past 1,024 bytes. Takes no memory.
    pub fn from_vec(items: Vec<u8>) -> Option<RowBytes>
        ensures { SomeIff result (length items.items ≤ ROW_BYTES) items.items }
    {
        if items.len() > ROW_BYTES {
            return None;
        }
        known_bytes(items.as_slice());
        Some(RowBytes { items })
    }

    /// Its bytes.
    pub fn as_slice(&self) -> &[u8]
        ensures value { result.now ≡ self.now }
        ensures short { length self.now ≤ ROW_BYTES }
    {
        self.items.as_slice()
    }

    /// Tells what is true of each value of the type. Does nothing.
    pub fn known(&self)
        ensures { IsTrue (is_row_value self.now) }
    {
        let _items = &self.items;
    }

    /// The same bytes once more.
    pub fn copied(&self, alloc: Global) -> Result<RowBytes, Memory>
        ensures { IfOk result (λ copy. copy ≡ self.now) }
    {
        Ok(RowBytes {
            items: Vec::from_slice(alloc, self.items.as_slice())?,
        })
    }
}
