//! What keeps an image sound. Each law is the contract of a function that does nothing.
ghost use Rattle.std.specs.Prelude.{◌≡◌, ◌<◌, ◌+◌, ◌^◌, false, List, [], ◌∷◌, IsTrue};
ghost use Rattle.cell_world.specs.Texts.{Text};
ghost use Rattle.cell_world.specs.Stores.{changed};
ghost use Rattle.cell_world.specs.Images.{Image, Global, global, with_store, empty_image};
ghost use Rattle.cell_world.specs.Meaning.{next_operation, next_job};
ghost use Rattle.cell_world.specs.Operations.{conflicts, reach_of};
ghost use Rattle.cell_world.specs.Lawful.{Lawful};
ghost use Rattle.cell_world.specs.Keys.{contains};
ghost use Rattle.cell_world.specs.Sound.{Sound, HasLog, HasLocal, IsKeyOf, IsAttachedIn, locals_at};
ghost use Rattle.cell_world.specs.declared.operations.Op.{Op};
ghost use Rattle.cell_world.specs.declared.cells.Cell.TheVariants as cell;
ghost use Rattle.cell_world.specs.declared.cells.LocalRow.{LocalRow};
ghost use Rattle.cell_world.specs.declared.cells.Status.TheVariants.{Online};
ghost use Rattle.cell_world.specs.declared.changes.Edit.TheVariants.{Put};
ghost use Rattle.image_laws.specs.Transactions.{IsRun};

/// Empty stores are sound.
pub fn empty_is_sound()
    ensures { (locations : List Text) → Sound (empty_image locations) }
{}

/// The log row of a lawful operation that has the next number and conflicts with no logged operation keeps an image sound, where the counter is raised past it.
pub fn log_keeps_sound()
    ensures { (image : Image) → Sound image → (op : Op) → Lawful image op → op.number ≡ next_operation image → next_operation image < 2 ^ 63 →
        ((other : Op) → HasLog (global image).log other → conflicts (reach_of op) other ≡ false) →
        Sound (with_store image Global (changed (global image) (Put (cell.Log op) ∷ Put (cell.Counter (record { operation = next_operation image + 1; job = next_job image })) ∷ []))) }
{}

/// Whatever transactions of operations are made from a sound image on, in whatever order their guards allow, and wherever they stop: the image is sound.
pub fn transactions_keep_sound()
    ensures { (images : List Image) (image last : Image) → Sound image → IsRun image images last → Sound last }
{}

/// In a sound image no key is online at two attached sites.
pub fn no_key_is_online_twice()
    ensures { (image : Image) → Sound image → (a b : LocalRow) (here there : Text) → IsAttachedIn image here → IsAttachedIn image there → HasLocal (locals_at image here) a → HasLocal (locals_at image there) b →
        a.map ≡ b.map → a.status ≡ Online → b.status ≡ Online → (key : Text) → IsKeyOf (global image).maps a.map key → IsTrue (contains a.span key) → IsTrue (contains b.span key) → here ≡ there }
{}
