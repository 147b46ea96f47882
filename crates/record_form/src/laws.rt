//! Laws of spellings and of order bytes, each the contract of a function that does nothing.
ghost use Rattle.std.specs.Prelude.{◌≡◌, ◌≤◌, ◌++◌, ℕ, List, length};
ghost use Rattle.text_scan.specs.Places.{Leaves};
ghost use Rattle.cell_world.specs.ByteOrder.{byte_cmp};
ghost use Rattle.cell_world.specs.Orders.{cell_cmp, kind_number};
ghost use Rattle.cell_world.specs.Spelled.{IsCell, IsTypedKey};
ghost use Rattle.cell_world.specs.declared.cells.Cell.{Cell};
ghost use Rattle.cell_world.specs.declared.cells.CellKey.{CellKey};
ghost use Rattle.record_form.specs.Layout.{spelling, IsSpelling};
ghost use Rattle.record_form.specs.OrderBytes.{ordered};

/// No spelling begins another: of bytes that begin with a spelling, the cell and what comes after it are known. So each cell has one spelling, and it is no other cell's.
pub fn no_spelling_begins_another()
    ensures { (a b : Cell) (x y : List ℕ) → IsCell a → IsCell b → spelling a ++ x ≡ spelling b ++ y → (a ≡ b) × (x ≡ y) }
{}

/// A spelling has at most 2,759 bytes.
pub fn spellings_are_short()
    ensures { (c : Cell) → IsCell c → length (spelling c) ≤ 2759 }
{}

/// Bytes leave the spellings at one place at most, and bytes that do are no spelling.
pub fn bytes_have_one_place()
    ensures one { (bytes : List ℕ) (m n : ℕ) → Leaves IsSpelling bytes m → Leaves IsSpelling bytes n → m ≡ n }
    ensures fault { (bytes : List ℕ) (n : ℕ) → Leaves IsSpelling bytes n → IsSpelling bytes → ⊥ }
{}

/// Among the keys of one kind, the order of the order bytes is cell order, both ways.
pub fn order_bytes_keep_cell_order()
    ensures { (a b : CellKey) → IsTypedKey a → IsTypedKey b → kind_number a ≡ kind_number b → byte_cmp (ordered a) (ordered b) ≡ cell_cmp a b }
{}
