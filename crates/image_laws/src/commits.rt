//! The commit of an operation, and short changes of tokens. Each law is the contract of a function that does nothing.
ghost use Rattle.std.specs.Prelude.{◌≡◌, ◌<◌, ◌^◌, false, Option, None, IfSome, IsTrue};
ghost use Rattle.std.specs.FinMap as map;
ghost use Rattle.cell_world.specs.Keys.{overlaps};
ghost use Rattle.cell_world.specs.Stores.{changed, put, piece_key};
ghost use Rattle.cell_world.specs.Images.{Image, Global, global, with_store};
ghost use Rattle.cell_world.specs.Meaning.{meaning};
ghost use Rattle.cell_world.specs.Operations.{conflicts, reach_of};
ghost use Rattle.cell_world.specs.Lawful.{Lawful, job_with_token};
ghost use Rattle.cell_world.specs.Sound.{Sound, HasLog, HasPiece};
ghost use Rattle.cell_world.specs.Marked.{Marked, committed, committed_image};
ghost use Rattle.cell_world.specs.declared.operations.StageName.TheVariants.{TargetDone};
ghost use Rattle.cell_world.specs.declared.operations.Piece.{Piece};
ghost use Rattle.cell_world.specs.declared.operations.Op.{Op};
ghost use Rattle.cell_world.specs.declared.cells.Token.{Token};
ghost use Rattle.cell_world.specs.declared.cells.Cell.TheVariants as cell;
ghost use Rattle.image_laws.specs.CommitEdits.{commit_edits};

/// The commit of a logged operation with all its marks, of whatever shape, a step of a job or not, keeps an image sound. The edits of a commit make it.
pub fn commit_keeps_sound()
    ensures sound { (image : Image) → Sound image → (op : Op) → HasLog (global image).log op → Marked image op TargetDone → Sound (committed_image image op) }
    ensures edits { (image : Image) (op : Op) → with_store image Global (changed (global image) (commit_edits op)) ≡ committed_image image op }
{}

/// After the commit of a lawful operation its news stand for its olds in the meaning, its job is put, and nothing else changes there.
pub fn meaning_of_a_commit()
    ensures { (image : Image) → Sound image → (op : Op) → Lawful image op →
        meaning (committed_image image op) ≡ record (meaning image) { mappings = (committed (global image) op).mappings; jobs = (committed (global image) op).jobs } }
{}

/// Where two operations are lawful on one sound image and don't conflict, the commit of the one, logged or not, leaves the other lawful.
pub fn operations_stay_lawful()
    ensures { (image : Image) → Sound image → (op other : Op) → Lawful image op → Lawful image other → conflicts (reach_of op) other ≡ false → Lawful (committed_image image op) other }
{}

/// Another token for a mapping, where the one that it has is no standing job's, the other one is at least 2^64, and no logged operation's hull overlaps the mapping: the image stays sound, and in the meaning the mapping is put and nothing else changes.
pub fn token_keeps_sound()
    ensures sound { (image : Image) → Sound image → (p : Piece) → HasPiece (global image).mappings p → (token : Option Token) → job_with_token (global image).jobs p ≡ None → IfSome token (λ t. t.0 < 2 ^ 64 → ⊥) →
        ((other : Op) → HasLog (global image).log other → p.map ≡ other.map → IsTrue (overlaps p.span other.hull) → ⊥) → Sound (with_store image Global (put (global image) (cell.Piece (record p { token = token })))) }
    ensures meaning { (image : Image) → Sound image → (p : Piece) → HasPiece (global image).mappings p → (token : Option Token) → job_with_token (global image).jobs p ≡ None → IfSome token (λ t. t.0 < 2 ^ 64 → ⊥) →
        ((other : Op) → HasLog (global image).log other → p.map ≡ other.map → IsTrue (overlaps p.span other.hull) → ⊥) →
        meaning (with_store image Global (put (global image) (cell.Piece (record p { token = token })))) ≡ record (meaning image) { mappings = map.insert (meaning image).mappings (piece_key p) (record p { token = token }) } }
{}
