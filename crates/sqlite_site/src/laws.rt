//! Laws of rows, stores and order bytes, each the contract of a function that does nothing.
ghost use Rattle.std.specs.Prelude.{◌≡◌, Bool, List, Contains, IsTrue, if◌then◌else◌};
ghost use Rattle.std.specs.Ordering.{ordering_then};
ghost use Rattle.std.specs.declared.cmp.Ordering.TheVariants.{Less, Greater};
ghost use Rattle.cell_world.specs.ByteOrder.{byte_cmp};
ghost use Rattle.cell_world.specs.Spelled.{IsRowName};
ghost use Rattle.cell_world.specs.Stores.{Store};
ghost use Rattle.cell_world.specs.Texts.{Text, is_name};
ghost use Rattle.cell_world.specs.declared.cells.Cell.{Cell};
ghost use Rattle.cell_world.specs.declared.cells.CellKey.TheVariants as at;
ghost use Rattle.cell_world.specs.declared.cells.RowName.{RowName};
ghost use Rattle.record_form.specs.OrderBytes.{ordered};
ghost use Rattle.cell_table.specs.Cells.{Entry, AreApart};
ghost use Rattle.sqlite_site.specs.Contents.{AreRowsOf};
ghost use Rattle.sqlite_site.specs.Entries.{IsEntryOf, rows_from};

/// Rows of which each is a cell's, with no two of one kind and key, are those of a store, and of one alone.
pub fn rows_are_a_store()
    ensures some { (all : List Entry) → AreApart all → ((e : Entry) → Contains all e → (c : Cell) × IsEntryOf e.kind e c) → (s : Store) × AreRowsOf all s }
    ensures one { (all : List Entry) (s t : Store) → AreRowsOf all s → AreRowsOf all t → s ≡ t }
{}

/// Where the rows of a map from a key on begin: after those of lesser maps and keys, and before all rows of the key and of
/// greater ones. With `past`, after all rows of the key too, whatever their table and number.
pub fn rows_begin()
    ensures { (row : RowName) (map from : Text) (past : Bool) → IsRowName row → IsTrue (is_name map) → byte_cmp (ordered (at.Row row)) (rows_from map from past) ≡ ordering_then (byte_cmp row.map map) (ordering_then (byte_cmp row.key from) (if past then Less else Greater)) }
{}
