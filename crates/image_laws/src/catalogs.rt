//! The catalog, that is maps with their shards and tables: what changes of it keep an image sound, and what the meaning is then. Each law is the contract of a function that does nothing.
ghost use Rattle.std.specs.Prelude.{◌≡◌, false, List, None, IsSome};
ghost use Rattle.std.specs.FinMap as map;
ghost use Rattle.std.specs.FinSet as set;
ghost use Rattle.cell_world.specs.Texts.{Text};
ghost use Rattle.cell_world.specs.Lists.{IsOneOf};
ghost use Rattle.cell_world.specs.Stores.{Store, Maps, Shards, Tables, put, delete, changed};
ghost use Rattle.cell_world.specs.Images.{Image, Global, global, with_store};
ghost use Rattle.cell_world.specs.Meaning.{meaning};
ghost use Rattle.cell_world.specs.Operations.{conflicts};
ghost use Rattle.cell_world.specs.Sound.{Sound, HasShard, HasTable, HasPiece, HasLog, HasJob, IsAttachedIn};
ghost use Rattle.cell_world.specs.declared.operations.Piece.{Piece};
ghost use Rattle.cell_world.specs.declared.operations.Op.{Op};
ghost use Rattle.cell_world.specs.declared.operations.JobRow.{JobRow};
ghost use Rattle.cell_world.specs.declared.operations.Reach.TheVariants as reach;
ghost use Rattle.cell_world.specs.declared.cells.KeyType.{KeyType};
ghost use Rattle.cell_world.specs.declared.cells.MapKind.{MapKind};
ghost use Rattle.cell_world.specs.declared.cells.Cell.TheVariants as cell;
ghost use Rattle.cell_world.specs.declared.cells.CellKey.TheVariants as at;
ghost use Rattle.image_laws.specs.Catalogs.{with_catalog, Serves, HasGrown, tables_without, without_map, unmap_edits};

/// Another catalog that serves an image keeps it sound. In the meaning it stands for the one before, and nothing else changes.
pub fn catalogs_keep_sound()
    ensures sound { (image : Image) → Sound image → (maps : Maps) (shards : Shards) (tables : Tables) → Serves image maps shards tables → Sound (with_catalog image maps shards tables) }
    ensures meaning { (image : Image) → Sound image → (maps : Maps) (shards : Shards) (tables : Tables) → Serves image maps shards tables →
        meaning (with_catalog image maps shards tables) ≡ record (meaning image) { maps = maps; shards = shards; tables = tables } }
{}

/// A catalog that only grew serves a sound image.
pub fn grown_catalogs_serve()
    ensures { (image : Image) → Sound image → (maps : Maps) (shards : Shards) (tables : Tables) → HasGrown (global image) maps shards tables → Serves image maps shards tables }
{}

/// A map cell of a new name keeps an image sound, and puts the map into the meaning, where nothing else changes.
pub fn map_keeps_sound()
    ensures sound { (image : Image) → Sound image → (name : Text) (kind : MapKind) (type : KeyType) → map.get (global image).maps name ≡ None →
        Sound (with_store image Global (put (global image) (cell.Map name kind type))) }
    ensures meaning { (image : Image) → Sound image → (name : Text) (kind : MapKind) (type : KeyType) → map.get (global image).maps name ≡ None →
        meaning (with_store image Global (put (global image) (cell.Map name kind type))) ≡ record (meaning image) { maps = map.insert (meaning image).maps name (kind, type) } }
{}

/// So does a shard cell of a map that stands, wherever the shard is.
pub fn shard_keeps_sound()
    ensures sound { (image : Image) → Sound image → (name location : Text) → IsSome (map.get (global image).maps name) → Sound (with_store image Global (put (global image) (cell.Shard name location))) }
    ensures meaning { (image : Image) → Sound image → (name location : Text) → IsSome (map.get (global image).maps name) →
        meaning (with_store image Global (put (global image) (cell.Shard name location))) ≡ record (meaning image) { shards = set.insert (meaning image).shards (name, location) } }
{}

/// And a table cell of a map that stands.
pub fn table_keeps_sound()
    ensures sound { (image : Image) → Sound image → (name table : Text) → IsSome (map.get (global image).maps name) → Sound (with_store image Global (put (global image) (cell.Table name table))) }
    ensures meaning { (image : Image) → Sound image → (name table : Text) → IsSome (map.get (global image).maps name) →
        meaning (with_store image Global (put (global image) (cell.Table name table))) ≡ record (meaning image) { tables = set.insert (meaning image).tables (name, table) } }
{}

/// Where no shard of a map stands, the map goes with its tables: the image stays sound, and in the meaning nothing else changes. The edits that delete the map and each table of it do just that.
pub fn unmap_keeps_sound()
    ensures sound { (image : Image) → Sound image → (name : Text) → ((location : Text) → HasShard (global image).shards name location → ⊥) → Sound (with_store image Global (without_map (global image) name)) }
    ensures meaning { (image : Image) → Sound image → (name : Text) → ((location : Text) → HasShard (global image).shards name location → ⊥) →
        meaning (with_store image Global (without_map (global image) name)) ≡ record (meaning image) { maps = map.remove (meaning image).maps name; tables = tables_without (meaning image).tables name } }
    ensures edits { (g : Store) (name : Text) (tables : List Text) → ((table : Text) → HasTable g.tables name table → IsOneOf tables table) → changed g (unmap_edits name tables) ≡ without_map g name }
{}

/// Where no mapping of the map is on an attached site, no job of it has the site as target, and no logged operation of it has the site among its own, the shard goes: the image stays sound, and in the meaning nothing else changes.
pub fn unshard_keeps_sound()
    ensures sound { (image : Image) → Sound image → (name location : Text) → IsAttachedIn image location → ((p : Piece) → HasPiece (global image).mappings p → p.map ≡ name → p.location ≡ location → ⊥) →
        ((job : JobRow) → HasJob (global image).jobs job → job.map ≡ name → job.target ≡ location → ⊥) → ((op : Op) → HasLog (global image).log op → conflicts (reach.Shard name location) op ≡ false) →
        Sound (with_store image Global (delete (global image) (at.Shard name location))) }
    ensures meaning { (image : Image) → Sound image → (name location : Text) → IsAttachedIn image location → ((p : Piece) → HasPiece (global image).mappings p → p.map ≡ name → p.location ≡ location → ⊥) →
        ((job : JobRow) → HasJob (global image).jobs job → job.map ≡ name → job.target ≡ location → ⊥) → ((op : Op) → HasLog (global image).log op → conflicts (reach.Shard name location) op ≡ false) →
        meaning (with_store image Global (delete (global image) (at.Shard name location))) ≡ record (meaning image) { shards = set.remove (meaning image).shards (name, location) } }
{}
