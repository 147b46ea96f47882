//! Changes of a store.
ghost use Rattle.std.specs.Prelude.{◌≡◌, [], ◌∷◌, ◌++◌, OnOk, OnErr, IsTrue};
ghost use Rattle.cell_world.specs.Spelled.{is_spelled, AreEdits};

use crate::cells::{Cell, CellKey};
use crate::memory::Memory;
use std::alloc::Global;
use std::marker::Model;

/// One put or one delete.
#[derive(Drop)]
pub enum Edit {
    /// The cell stands under its own key from then on.
    Put(Cell),
    /// No cell stands under the key from then on.
    Delete(CellKey),
}

/// Puts and deletes of one transaction. They are made in order, so of two on one key the later one stands.
/// Contracts see them as a list.
#[derive(Drop)]
pub struct Change {
    edits: Vec<Edit>,
}

impl Model for Change {
    ghost use Rattle.std.specs.Prelude.{List};
    ghost use Rattle.cell_world.specs.declared.changes.Edit.{Edit};

    ghost Value = { List Edit };

    ghost use Rattle.cell_world.specs.Spelled.{AreEdits};

    ghost view = { λ change. change.edits.items };

    ghost invariant = { λ change. AreEdits change.edits.items };
}

impl Change {
    /// A change that does nothing. Takes no memory.
    pub fn empty(alloc: Global) -> Change
        ensures { result ≡ [] }
    {
        Change {
            edits: Vec::new(alloc),
        }
    }

    /// Adds a put at the end. The cell is one that has a spelling: of a log cell the mappings are of its map, and a
    /// second one stands only beside a first. `Memory` leaves the change as it was.
    pub fn put(&mut self, cell: Cell) -> Result<(), Memory>
        requires { IsTrue (is_spelled cell) }
        ensures ok { OnOk result (self.new ≡ self.old ++ Edit.Put cell ∷ []) }
        ensures err { OnErr result (self.new ≡ self.old) }
    {
        cell.known();
        self.edits.push(Edit::Put(cell))?;
        Ok(())
    }

    /// Adds a delete at the end. `Memory` leaves the change as it was.
    pub fn delete(&mut self, key: CellKey) -> Result<(), Memory>
        ensures ok { OnOk result (self.new ≡ self.old ++ Edit.Delete key ∷ []) }
        ensures err { OnErr result (self.new ≡ self.old) }
    {
        key.known();
        self.edits.push(Edit::Delete(key))?;
        Ok(())
    }

    /// Its puts and deletes, in order.
    pub fn as_slice(&self) -> &[Edit]
        ensures { result.now ≡ self.now }
    {
        self.edits.as_slice()
    }

    /// Tells what is true of each change: it puts nothing but cells, and clears nothing but keys of cells. Does nothing.
    pub fn known(&self)
        ensures { AreEdits self.now }
    {
        let _edits = &self.edits;
    }
}
