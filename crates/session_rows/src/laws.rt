//! What a row that is put or deleted under a connection's key leaves as it is. Each law is the contract of a function that does nothing.
ghost use Rattle.std.specs.Prelude.{ℕ, IsTrue};
ghost use Rattle.cell_world.specs.Texts.{Text};
ghost use Rattle.cell_world.specs.Images.{Image, global};
ghost use Rattle.cell_world.specs.Keys.{is_among};
ghost use Rattle.cell_world.specs.Lawful.{Lawful};
ghost use Rattle.cell_world.specs.Meaning.{meaning};
ghost use Rattle.cell_world.specs.Plain.{Connection};
ghost use Rattle.cell_world.specs.Sound.{Sound, HasTable};
ghost use Rattle.cell_world.specs.declared.operations.Op.{Op};
ghost use Rattle.cell_world.specs.declared.operations.Reach.TheVariants as reach;
ghost use Rattle.connections.specs.Links.{IsOwned};
ghost use Rattle.op_log.specs.ShortChanges.{ShortChange};
ghost use Rattle.session_rows.specs.Rows.{changed_at, delete_change, put_change};

/// A row that is put or deleted under the key of a connection that is owned leaves every lawful operation lawful, logged or not.
pub fn rows_leave_operations_lawful()
    ensures put { (image : Image) → Sound image → (c : Connection) → IsOwned (meaning image) c → IsTrue (is_among image.locations c.location) → (table : Text) (id : ℕ) (bytes : Text) → (op : Op) → Lawful image op →
        Lawful (changed_at image c.location (put_change table id bytes c)) op }
    ensures deleted { (image : Image) → Sound image → (c : Connection) → IsOwned (meaning image) c → IsTrue (is_among image.locations c.location) → (table : Text) (id : ℕ) → (op : Op) → Lawful image op →
        Lawful (changed_at image c.location (delete_change table id c)) op }
{}

/// It is one of the short changes, and reaches nothing; a put row is of a table of the connection's map.
pub fn rows_are_short_changes()
    ensures put { (image : Image) → Sound image → (c : Connection) → IsOwned (meaning image) c → IsTrue (is_among image.locations c.location) → (table : Text) (id : ℕ) (bytes : Text) → HasTable (global image).tables c.map table →
        ShortChange image reach.Nothing (changed_at image c.location (put_change table id bytes c)) }
    ensures deleted { (image : Image) → Sound image → (c : Connection) → IsOwned (meaning image) c → IsTrue (is_among image.locations c.location) → (table : Text) (id : ℕ) →
        ShortChange image reach.Nothing (changed_at image c.location (delete_change table id c)) }
{}
