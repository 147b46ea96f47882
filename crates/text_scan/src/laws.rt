//! Laws of places, each the contract of a function that does nothing.
ghost use Rattle.std.specs.Prelude.{◌≡◌, ℕ, Bool, List, IsTrue};
ghost use Rattle.text_scan.specs.Places.{IsPlace};

/// A text leaves a grammar at one place at most.
pub fn a_text_has_one_place()
    ensures { (grammar : List ℕ → Bool) (text : List ℕ) (m n : ℕ) → IsPlace grammar text m → IsPlace grammar text n → m ≡ n }
{}

/// A text that leaves a grammar is no text of it.
pub fn a_place_is_a_fault()
    ensures { (grammar : List ℕ → Bool) (text : List ℕ) (n : ℕ) → IsPlace grammar text n → IsTrue (grammar text) → ⊥ }
{}

/// Two grammars with the same texts have the same places.
pub fn same_texts_same_places()
    ensures { (g h : List ℕ → Bool) → ((text : List ℕ) → g text ≡ h text) → (text : List ℕ) (n : ℕ) → IsPlace g text n → IsPlace h text n }
{}
