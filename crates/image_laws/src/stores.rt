//! Laws of the definitions, each the contract of a function that does nothing.
ghost use Rattle.std.specs.Prelude.{◌≡◌, ◌≢◌, ◌↔◌, ◌≤◌, ℕ, List, IsTrue, Some, None, All};
ghost use Rattle.cell_world.specs.Texts.{Text};
ghost use Rattle.cell_world.specs.Keys.{contains, overlaps};
ghost use Rattle.cell_world.specs.Spelled.{IsCell};
ghost use Rattle.cell_world.specs.Stores.{Store, put, delete, changed, empty_store, cell_at, own_key, Stands, IsKeyed, IsStore};
ghost use Rattle.cell_world.specs.Images.{Trail, Happening, image_at, extended, end_of_trail};
ghost use Rattle.cell_world.specs.declared.spans.Span.{Span};
ghost use Rattle.cell_world.specs.declared.spans.Span.TheVariants.{Range, Point};
ghost use Rattle.cell_world.specs.declared.spans.High.{High};
ghost use Rattle.cell_world.specs.declared.cells.Cell.{Cell};
ghost use Rattle.cell_world.specs.declared.cells.CellKey.{CellKey};
ghost use Rattle.cell_world.specs.declared.changes.Edit.{Edit};
ghost use Rattle.cell_world.specs.declared.changes.Edit.TheVariants.{Put};

// ---- spans

/// Two spans overlap exactly where some key is in both.
pub fn overlap_is_shared()
    ensures shared { (a b : Span) → IsTrue (overlaps a b) ↔ ((key : Text) × IsTrue (contains a key) × IsTrue (contains b key)) }
    ensures symmetric { (a b : Span) → overlaps a b ≡ overlaps b a }
{}

/// A range overlaps a point exactly where it contains it, and two points overlap exactly where they are one.
pub fn overlap_at_points()
    ensures range_and_point { (low : Text) (high : High) (key : Text) → overlaps (Range low high) (Point key) ≡ contains (Range low high) key }
    ensures point_and_range { (low : Text) (high : High) (key : Text) → overlaps (Point key) (Range low high) ≡ contains (Range low high) key }
    ensures points { (a b : Text) → IsTrue (overlaps (Point a) (Point b)) ↔ (a ≡ b) }
{}

// ---- stores

/// A cell that was put stands, and under every other key stands what stood there.
pub fn put_then_read()
    ensures there { (s : Store) (c : Cell) → Stands (put s c) c }
    ensures others { (s : Store) (c : Cell) (k : CellKey) → k ≢ own_key c → cell_at (put s c) k ≡ cell_at s k }
{}

/// Nothing stands under a key that was deleted, and under every other key stands what stood there.
pub fn delete_then_read()
    ensures gone { (s : Store) (k : CellKey) → cell_at (delete s k) k ≡ None }
    ensures others { (s : Store) (k q : CellKey) → q ≢ k → cell_at (delete s k) q ≡ cell_at s q }
{}

/// Two stores that have the same cell under each key are one.
pub fn cells_are_the_store()
    ensures { (s t : Store) → ((k : CellKey) → cell_at s k ≡ cell_at t k) → s ≡ t }
{}

/// A cell stands under its own key, and every change keeps that.
pub fn cells_keep_their_keys()
    ensures own { (s : Store) → IsKeyed s → (k : CellKey) (c : Cell) → cell_at s k ≡ Some c → own_key c ≡ k }
    ensures changes { (s : Store) → IsKeyed s → (edits : List Edit) → IsKeyed (changed s edits) }
{}

/// Nothing stands in the empty store. A change that puts nothing but cells keeps a store one.
pub fn stores_stay_stores()
    ensures nothing { (k : CellKey) → cell_at empty_store k ≡ None }
    ensures empty { IsStore empty_store }
    ensures changes { (s : Store) → IsStore s → (edits : List Edit) → All (λ edit. (c : Cell) → edit ≡ Put c → IsCell c) edits → IsStore (changed s edits) }
{}

// ---- images

/// What comes later changes no earlier image.
pub fn images_stay()
    ensures { (trail : Trail) (h : Happening) (moment : ℕ) → moment ≤ end_of_trail trail → image_at (extended trail h) moment ≡ image_at trail moment }
{}
