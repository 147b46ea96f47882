//! Laws of keys, each the contract of a function that does nothing.
ghost use Rattle.std.specs.Prelude.{◌≡◌, ◌≤◌, ℕ, ℤ, IsTrue, FitsSigned, Some};
ghost use Rattle.std.specs.Int.{w32, w64};
ghost use Rattle.std.specs.Ordering.{nat_cmp, int_cmp};
ghost use Rattle.cell_world.specs.Texts.{Text};
ghost use Rattle.cell_world.specs.ByteOrder.{byte_cmp};
ghost use Rattle.cell_world.specs.KeyForms.{is_normal, last_tick, guid_order, normal_of};
ghost use Rattle.cell_world.specs.KeyPrinting.{key_text};
ghost use Rattle.cell_world.specs.declared.cells.KeyType.{KeyType};
ghost use Rattle.key_space.specs.Values.{type_of, form_of, IsKey, cmp_at};
ghost use Rattle.key_space.specs.Texts.{in_grammar, IsKeyFault};
ghost use Rattle.key_space.specs.declared.faults.KeyFault.{KeyFault};
ghost use Rattle.key_space.specs.declared.keys.Key.{Key};
ghost use Rattle.key_space.specs.declared.keys.Key.TheVariants as key;

/// The byte order of normal forms is the order of the values: numbers by size, bytes as lists with a proper prefix first, and guids by the bytes 10 to 15, 8, 9, 7, 6, 5, 4, 3, 2, 1, 0 in turn.
pub fn normal_forms_keep_the_order()
    ensures int { (x y : ℤ) → FitsSigned w32 x → FitsSigned w32 y → byte_cmp (form_of (key.Int x)) (form_of (key.Int y)) ≡ int_cmp x y }
    ensures long { (x y : ℤ) → FitsSigned w64 x → FitsSigned w64 y → byte_cmp (form_of (key.Long x)) (form_of (key.Long y)) ≡ int_cmp x y }
    ensures guid { (a b : Text) → byte_cmp (form_of (key.Guid a)) (form_of (key.Guid b)) ≡ cmp_at guid_order a b }
    ensures bytes { (a b : Text) → byte_cmp (form_of (key.Bytes a)) (form_of (key.Bytes b)) ≡ byte_cmp a b }
    ensures datetime { (m n : ℕ) → m ≤ last_tick → n ≤ last_tick → byte_cmp (form_of (key.Datetime m)) (form_of (key.Datetime n)) ≡ nat_cmp m n }
    ensures timespan { (x y : ℤ) → FitsSigned w64 x → FitsSigned w64 y → byte_cmp (form_of (key.Timespan x)) (form_of (key.Timespan y)) ≡ int_cmp x y }
{}

/// The form of a key is a normal form of its type, and no other key of the type has it.
pub fn a_key_has_its_form()
    ensures normal { (k : Key) → IsKey k → IsTrue (is_normal (type_of k) (form_of k)) }
    ensures alone { (a b : Key) → IsKey a → IsKey b → type_of a ≡ type_of b → form_of a ≡ form_of b → a ≡ b }
{}

/// The printed text of a key stands for it.
pub fn printed_keys_are_read()
    ensures { (k : Key) → IsKey k → normal_of (type_of k) (key_text (type_of k) (form_of k)) ≡ Some (form_of k) }
{}

/// A text that stands for a key is in the grammar of the type. A text with a fault stands for none, and has one fault alone.
pub fn a_text_has_one_fault()
    ensures grammar { (type : KeyType) (text form : Text) → normal_of type text ≡ Some form → IsTrue (in_grammar type text) }
    ensures no_key { (type : KeyType) (text form : Text) (fault : KeyFault) → IsKeyFault type text fault → normal_of type text ≡ Some form → ⊥ }
    ensures alone { (type : KeyType) (text : Text) (e f : KeyFault) → IsKeyFault type text e → IsKeyFault type text f → e ≡ f }
{}
