//! Rows that are put and deleted. Each law is the contract of a function that does nothing.
ghost use Rattle.std.specs.Prelude.{◌≡◌, ◌⊎◌, Some};
ghost use Rattle.std.specs.FinMap as map;
ghost use Rattle.cell_world.specs.Texts.{Text};
ghost use Rattle.cell_world.specs.Stores.{Rows, put, delete};
ghost use Rattle.cell_world.specs.Images.{Image, Shard, global, with_store};
ghost use Rattle.cell_world.specs.Meaning.{meaning, owner_of};
ghost use Rattle.cell_world.specs.Lawful.{Lawful, rows_at};
ghost use Rattle.cell_world.specs.Sound.{Sound, HasTable, HasJob, InBatch, IsAttachedIn};
ghost use Rattle.cell_world.specs.declared.operations.Piece.{Piece};
ghost use Rattle.cell_world.specs.declared.operations.Op.{Op};
ghost use Rattle.cell_world.specs.declared.operations.JobRow.{JobRow};
ghost use Rattle.cell_world.specs.declared.cells.RowName.{RowName};
ghost use Rattle.cell_world.specs.declared.cells.Status.TheVariants.{Online};
ghost use Rattle.cell_world.specs.declared.cells.Cell.TheVariants as cell;
ghost use Rattle.cell_world.specs.declared.cells.CellKey.TheVariants as at;

/// A row that is put or deleted under a key that an attached site owns online keeps an image sound; a put row is of a table of its map.
pub fn row_keeps_sound()
    ensures put { (image : Image) → Sound image → (row : RowName) (bytes : Text) (p : Piece) → owner_of image row.map row.key ≡ Some p → p.status ≡ Online → IsAttachedIn image p.location → HasTable (global image).tables row.map row.table →
        Sound (with_store image (Shard p.location) (put (image.at (Shard p.location)) (cell.Row row bytes))) }
    ensures deleted { (image : Image) → Sound image → (row : RowName) (p : Piece) → owner_of image row.map row.key ≡ Some p → p.status ≡ Online → IsAttachedIn image p.location →
        Sound (with_store image (Shard p.location) (delete (image.at (Shard p.location)) (at.Row row))) }
{}

/// And it leaves every lawful operation lawful, logged or not.
pub fn rows_leave_operations_lawful()
    ensures put { (image : Image) → Sound image → (row : RowName) (bytes : Text) (p : Piece) → owner_of image row.map row.key ≡ Some p → p.status ≡ Online → IsAttachedIn image p.location → (op : Op) → Lawful image op →
        Lawful (with_store image (Shard p.location) (put (image.at (Shard p.location)) (cell.Row row bytes))) op }
    ensures deleted { (image : Image) → Sound image → (row : RowName) (p : Piece) → owner_of image row.map row.key ≡ Some p → p.status ≡ Online → IsAttachedIn image p.location → (op : Op) → Lawful image op →
        Lawful (with_store image (Shard p.location) (delete (image.at (Shard p.location)) (at.Row row))) op }
{}

/// Such a row is in no batch in progress.
pub fn online_keys_are_in_no_batch()
    ensures { (image : Image) → Sound image → (row : RowName) (p : Piece) → owner_of image row.map row.key ≡ Some p → p.status ≡ Online → IsAttachedIn image p.location →
        (job : JobRow) → HasJob (global image).jobs job → row.map ≡ job.map → InBatch job row.key → ⊥ }
{}

/// A change of rows at an attached site that owns none of their keys leaves the meaning as it is.
pub fn rows_of_others_mean_nothing()
    ensures { (image : Image) (location : Text) (rows : Rows) → IsAttachedIn image location →
        ((row : RowName) → (map.get rows row ≡ map.get (rows_at image location) row) ⊎ ((p : Piece) → owner_of image row.map row.key ≡ Some p → p.location ≡ location → ⊥)) →
        meaning (with_store image (Shard location) (record (image.at (Shard location)) { rows = rows })) ≡ meaning image }
{}
