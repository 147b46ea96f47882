//! What an image stands for, and what a change of one store changes of it. Each law is the contract of a function that does nothing.
ghost use Rattle.std.specs.Prelude.{◌≡◌, ◌+◌, [], ◌∷◌, Some};
ghost use Rattle.std.specs.FinMap as map;
ghost use Rattle.cell_world.specs.Texts.{Text};
ghost use Rattle.cell_world.specs.Spelled.{listed};
ghost use Rattle.cell_world.specs.Stores.{put, delete, changed, piece_key};
ghost use Rattle.cell_world.specs.Images.{Image, Global, Shard, global, with_store};
ghost use Rattle.cell_world.specs.Meaning.{meaning, row_at, owner_of, next_operation, next_job};
ghost use Rattle.cell_world.specs.Lawful.{Lawful};
ghost use Rattle.cell_world.specs.Sound.{Sound, IsAttachedIn};
ghost use Rattle.cell_world.specs.declared.operations.Piece.{Piece};
ghost use Rattle.cell_world.specs.declared.operations.Op.{Op};
ghost use Rattle.cell_world.specs.declared.cells.RowName.{RowName};
ghost use Rattle.cell_world.specs.declared.cells.Cell.TheVariants as cell;
ghost use Rattle.cell_world.specs.declared.cells.CellKey.TheVariants as at;
ghost use Rattle.cell_world.specs.declared.changes.Edit.TheVariants.{Put, Delete};

/// The rows of the meaning are those that the owners of their keys have.
pub fn owners_have_the_rows()
    ensures { (image : Image) (row : RowName) → map.get (meaning image).rows row ≡ row_at image row }
{}

/// A row that is put or deleted at the attached site that owns its key is put or deleted in the meaning, and nothing else changes there.
pub fn meaning_of_a_row()
    ensures put { (image : Image) (row : RowName) (bytes : Text) (p : Piece) → owner_of image row.map row.key ≡ Some p → IsAttachedIn image p.location →
        meaning (with_store image (Shard p.location) (put (image.at (Shard p.location)) (cell.Row row bytes))) ≡ record (meaning image) { rows = map.insert (meaning image).rows row bytes } }
    ensures deleted { (image : Image) (row : RowName) (p : Piece) → owner_of image row.map row.key ≡ Some p → IsAttachedIn image p.location →
        meaning (with_store image (Shard p.location) (delete (image.at (Shard p.location)) (at.Row row))) ≡ record (meaning image) { rows = map.remove (meaning image).rows row } }
{}

/// The log row of an operation and a raised operation counter change nothing of the meaning.
pub fn meaning_of_a_log_row()
    ensures { (image : Image) (op : Op) →
        meaning (with_store image Global (changed (global image) (Put (cell.Log op) ∷ Put (cell.Counter (record { operation = next_operation image + 1; job = next_job image })) ∷ []))) ≡ meaning image }
{}

/// The commit of a lawful operation that adds a mapping puts the mapping into the meaning, and nothing else changes there.
pub fn meaning_of_an_add()
    ensures { (image : Image) → Sound image → (op : Op) (p : Piece) → Lawful image op → listed op.olds ≡ [] → listed op.news ≡ p ∷ [] →
        meaning (with_store image Global (changed (global image) (Put (cell.Piece p) ∷ Delete (at.Log op.number) ∷ []))) ≡ record (meaning image) { mappings = map.insert (meaning image).mappings (piece_key p) p } }
{}
