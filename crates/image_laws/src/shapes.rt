//! What the shapes of operations have in common, and what the exchange of a lawful operation makes of mappings and owners. Each law is the contract of a function that does nothing.
ghost use Rattle.std.specs.Prelude.{◌≡◌, List, [], ◌++◌, Some, None, IsTrue};
ghost use Rattle.cell_world.specs.Texts.{Text};
ghost use Rattle.cell_world.specs.Lists.{IsOneOf};
ghost use Rattle.cell_world.specs.Keys.{contains, overlaps};
ghost use Rattle.cell_world.specs.Spelled.{listed};
ghost use Rattle.cell_world.specs.Stores.{Maps, Mappings, exchanged};
ghost use Rattle.cell_world.specs.Plain.{owner_in};
ghost use Rattle.cell_world.specs.Lawful.{ReadTables, LawfulOn};
ghost use Rattle.cell_world.specs.Sound.{HasPiece, IsKeyOf, AreMappings};
ghost use Rattle.cell_world.specs.declared.operations.Piece.{Piece};
ghost use Rattle.cell_world.specs.declared.operations.Op.{Op};
ghost use Rattle.cell_world.specs.declared.spans.Span.{Span};
ghost use Rattle.image_laws.specs.Exchange.{IsExchanged};
ghost use Rattle.image_laws.specs.Fits.{IsFit, Fits};

/// A lawful operation has the law of the shapes, and each mapping that overlaps its hull is one of its olds.
pub fn lawful_operations_fit()
    ensures { (t : ReadTables) → AreMappings t.maps t.mappings → (op : Op) → LawfulOn t op → Fits t.maps t.mappings op }
{}

/// The hull of a lawful operation contains each key of its olds and of its news.
pub fn hulls_hold_olds_and_news()
    ensures { (t : ReadTables) → AreMappings t.maps t.mappings → (op : Op) → LawfulOn t op → (p : Piece) → IsOneOf (listed op.olds ++ listed op.news) p → (key : Text) → IsTrue (contains p.span key) → IsTrue (contains op.hull key) }
{}

/// The olds of a lawful operation are at one site, and so are its news: so it has its marks at two sites at most.
pub fn olds_and_news_are_together()
    ensures olds { (t : ReadTables) (op : Op) → LawfulOn t op → (a : Piece) → IsOneOf (listed op.olds) a → (b : Piece) → IsOneOf (listed op.olds) b → a.location ≡ b.location }
    ensures news { (t : ReadTables) (op : Op) → LawfulOn t op → (a : Piece) → IsOneOf (listed op.news) a → (b : Piece) → IsOneOf (listed op.news) b → a.location ≡ b.location }
{}

/// What an exchange of mappings leaves, brings and keeps disjoint, where olds and news fit: the news stand, the olds are gone, every other mapping stays, and all are placed, of their map and disjoint.
pub fn exchanges_keep_mappings()
    ensures exchanged { (maps : Maps) (mappings : Mappings) → AreMappings maps mappings → (name : Text) (hull : Span) (olds news : List Piece) → IsFit maps mappings name hull olds news →
        IsExchanged olds news mappings (exchanged mappings olds news) }
    ensures mappings { (maps : Maps) (mappings : Mappings) → AreMappings maps mappings → (name : Text) (hull : Span) (olds news : List Piece) → IsFit maps mappings name hull olds news →
        AreMappings maps (exchanged mappings olds news) }
    ensures apart { (maps : Maps) (mappings : Mappings) → AreMappings maps mappings → (name : Text) (hull : Span) (olds news : List Piece) → IsFit maps mappings name hull olds news →
        (new other : Piece) → IsOneOf news new → HasPiece mappings other → (IsOneOf olds other → ⊥) → new.map ≡ other.map → IsTrue (overlaps new.span other.span) → ⊥ }
{}

/// Who owns the keys before and after an exchange where olds and news fit: an old one its keys before, and a new one its keys after. Every key that isn't of the hull keeps its owner.
pub fn exchanges_move_owners()
    ensures before { (maps : Maps) (mappings : Mappings) → AreMappings maps mappings → (name : Text) (hull : Span) (olds news : List Piece) → IsFit maps mappings name hull olds news →
        (old : Piece) → IsOneOf olds old → (key : Text) → IsKeyOf maps name key → IsTrue (contains old.span key) → owner_in maps mappings name key ≡ Some old }
    ensures after { (maps : Maps) (mappings : Mappings) → AreMappings maps mappings → (name : Text) (hull : Span) (olds news : List Piece) → IsFit maps mappings name hull olds news →
        (new : Piece) → IsOneOf news new → (key : Text) → IsKeyOf maps name key → IsTrue (contains new.span key) → owner_in maps (exchanged mappings olds news) name key ≡ Some new }
    ensures elsewhere { (maps : Maps) (mappings : Mappings) → AreMappings maps mappings → (name : Text) (hull : Span) (olds news : List Piece) → IsFit maps mappings name hull olds news →
        (other key : Text) → (other ≡ name → IsTrue (contains hull key) → ⊥) → owner_in maps (exchanged mappings olds news) other key ≡ owner_in maps mappings other key }
    ensures was_old { (maps : Maps) (mappings : Mappings) → AreMappings maps mappings → (name : Text) (hull : Span) (olds news : List Piece) → IsFit maps mappings name hull olds news →
        (p : Piece) (key : Text) → IsTrue (contains hull key) → owner_in maps mappings name key ≡ Some p → IsOneOf olds p }
    ensures is_new { (maps : Maps) (mappings : Mappings) → AreMappings maps mappings → (name : Text) (hull : Span) (olds news : List Piece) → IsFit maps mappings name hull olds news →
        (p : Piece) (key : Text) → IsTrue (contains hull key) → owner_in maps (exchanged mappings olds news) name key ≡ Some p → IsOneOf news p }
    ensures bare_before { (maps : Maps) (mappings : Mappings) → AreMappings maps mappings → (name : Text) (hull : Span) (olds news : List Piece) → IsFit maps mappings name hull olds news →
        olds ≡ [] → (key : Text) → IsTrue (contains hull key) → owner_in maps mappings name key ≡ None }
    ensures bare_after { (maps : Maps) (mappings : Mappings) → AreMappings maps mappings → (name : Text) (hull : Span) (olds news : List Piece) → IsFit maps mappings name hull olds news →
        news ≡ [] → (key : Text) → IsTrue (contains hull key) → owner_in maps (exchanged mappings olds news) name key ≡ None }
{}
