//! What a row that is put or deleted leaves of the operations of other sessions. Each law is the contract of a function that does nothing.
ghost use Rattle.std.specs.Prelude.{◌≡◌, ℕ, Bool, List, []};
ghost use Rattle.cell_world.specs.Images.{Image, after_one, global};
ghost use Rattle.cell_world.specs.Marked.{HasNoMark, IsOutOfLog, mark_tables};
ghost use Rattle.cell_world.specs.Meaning.{next_operation};
ghost use Rattle.cell_world.specs.Plain.{Connection};
ghost use Rattle.cell_world.specs.Sound.{Sound, IsAttachedIn, locals_at};
ghost use Rattle.cell_world.specs.Texts.{Text};
ghost use Rattle.cell_world.specs.declared.changes.Edit.{Edit};
ghost use Rattle.cell_world.specs.declared.operations.Op.{Op};
ghost use Rattle.cell_world.specs.declared.operations.Reach.TheVariants as reach;
ghost use Rattle.global_tables.specs.Known.{known_of};
ghost use Rattle.plain_model.specs.OnTrail.{logs_put};
ghost use Rattle.op_log.specs.ShortChanges.{ShortChange};
ghost use Rattle.session_laws.specs.Core.{AllStand};
ghost use Rattle.session_laws.specs.Doing.{AllDoing};
ghost use Rattle.session_laws.specs.Needs.{Needs};
ghost use Rattle.operation_laws.specs.Left.{AreLeft};
ghost use Rattle.session_rows.specs.Rows.{commit_at, delete_change, put_change};
ghost use Rattle.row_laws.specs.Commits.{IsRowChange};

/// A short change that reaches nothing leaves each live operation standing.
pub fn rows_leave_standing()
    ensures { (doing : AllDoing) (image after : Image) → Sound image → AllStand Needs doing image → ShortChange image reach.Nothing after → AllStand Needs doing after }
{}

/// The changes of `put` and `del` put or delete one row cell.
pub fn puts_and_deletes_are_row_changes()
    ensures put { (table : Text) (id : ℕ) (bytes : Text) (c : Connection) → IsRowChange (put_change table id bytes c) }
    ensures deleted { (table : Text) (id : ℕ) (c : Connection) → IsRowChange (delete_change table id c) }
{}

/// A transaction at a shard, made or not, leaves the global store, and so what is known of it and the next operation number. One that puts or deletes one row cell puts no log cell.
pub fn rows_leave_the_global_store()
    ensures store { (image : Image) (location : Text) (change : List Edit) (took : Bool) → global (after_one image (commit_at location change took)) ≡ global image }
    ensures known { (image : Image) (location : Text) (change : List Edit) (took : Bool) → known_of (global (after_one image (commit_at location change took))) ≡ known_of (global image) }
    ensures numbers { (image : Image) (location : Text) (change : List Edit) (took : Bool) → next_operation (after_one image (commit_at location change took)) ≡ next_operation image }
    ensures logs { (change : List Edit) → IsRowChange change → logs_put change ≡ [] }
{}

/// A transaction at a shard that puts or deletes one row cell, made or not, leaves the local rows of each site, and all on which it depends how far an operation has come; no site is attached after it that wasn't before. What sessions have to settle stays committed, and what is settled stays so, at each site and in the log.
pub fn rows_leave_operations_alone()
    ensures locals { (image : Image) (location : Text) (change : List Edit) → IsRowChange change → (took : Bool) (site : Text) → locals_at (after_one image (commit_at location change took)) site ≡ locals_at image site }
    ensures tables { (image : Image) (location : Text) (change : List Edit) → IsRowChange change → (took : Bool) → mark_tables (after_one image (commit_at location change took)) ≡ mark_tables image }
    ensures attached { (image : Image) (location : Text) (change : List Edit) (took : Bool) (site : Text) → IsAttachedIn (after_one image (commit_at location change took)) site → IsAttachedIn image site }
    ensures left { (doing : AllDoing) (image : Image) (location : Text) (change : List Edit) → IsRowChange change → (took : Bool) → AreLeft doing image → AreLeft doing (after_one image (commit_at location change took)) }
    ensures clean { (op : Op) (image : Image) (location : Text) (change : List Edit) → IsRowChange change → (took : Bool) (site : Text) → HasNoMark op (locals_at image site) → HasNoMark op (locals_at (after_one image (commit_at location change took)) site) }
    ensures out { (op : Op) (image : Image) (location : Text) (change : List Edit) → IsRowChange change → (took : Bool) → IsOutOfLog (mark_tables image) op → IsOutOfLog (mark_tables (after_one image (commit_at location change took))) op }
{}
