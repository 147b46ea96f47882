//! The local transactions of an operation: its local step, undo and settling. Each law is the contract of a function that does nothing.
ghost use Rattle.std.specs.Prelude.{◌≡◌, ℕ, List, None};
ghost use Rattle.std.specs.FinMap as map;
ghost use Rattle.cell_world.specs.Texts.{Text};
ghost use Rattle.cell_world.specs.Stores.{Locals};
ghost use Rattle.cell_world.specs.Images.{Image, global};
ghost use Rattle.cell_world.specs.Meaning.{meaning};
ghost use Rattle.cell_world.specs.Sound.{Sound, HasLog, IsAttachedIn, locals_at};
ghost use Rattle.cell_world.specs.Marked.{HasNoMark};
ghost use Rattle.cell_world.specs.Sweep.{sweep, IsSwept, IsSweptPlain};
ghost use Rattle.cell_world.specs.UnderWay.{IsUnborn, IsDone};
ghost use Rattle.cell_world.specs.declared.operations.Op.{Op};
ghost use Rattle.cell_world.specs.declared.cells.LocalRow.{LocalRow};
ghost use Rattle.cell_world.specs.declared.cells.Mark.TheVariants.{Plain, Old};
ghost use Rattle.image_laws.specs.LocalSteps.{settle, IsStepped, IsUndone, IsSettled, with_locals, without_log_row};
ghost use Rattle.image_laws.specs.RowEdits.{AreScanned, step_edits, undo_edits, settle_edits, Leaves};

/// Whatever local rows an attached site gets, the meaning stays.
pub fn local_rows_mean_nothing()
    ensures { (image : Image) (location : Text) (after : Locals) → IsAttachedIn image location → meaning (with_locals image location after) ≡ meaning image }
{}

/// The local step of a logged operation, at an attached site where it is unborn, keeps an image sound, and is done then.
pub fn step_keeps_sound()
    ensures sound { (image : Image) → Sound image → (op : Op) → HasLog (global image).log op → (location : Text) → IsAttachedIn image location → IsUnborn op.number (locals_at image location) →
        (after : Locals) → IsStepped (global image).log op location (locals_at image location) after → Sound (with_locals image location after) }
    ensures done { (image : Image) (op : Op) (location : Text) (after : Locals) → IsStepped (global image).log op location (locals_at image location) after → IsDone op location after }
{}

/// Undo's sweep of a logged operation at an attached site keeps an image sound, and leaves the rows that overlap the hull Plain, there and where they were so before.
pub fn undo_keeps_sound()
    ensures sound { (image : Image) → Sound image → (op : Op) → HasLog (global image).log op → (location : Text) → IsAttachedIn image location →
        (after : Locals) → IsSwept (global image).log op Plain (locals_at image location) after → Sound (with_locals image location after) }
    ensures swept { (image : Image) (op : Op) (location : Text) (after : Locals) → IsSwept (global image).log op Plain (locals_at image location) after → IsSweptPlain op after }
    ensures elsewhere { (image : Image) (op : Op) (location other : Text) (after : Locals) → IsSweptPlain op after → IsSweptPlain op (locals_at image other) → IsSweptPlain op (locals_at (with_locals image location after) other) }
{}

/// Once an operation is undone at each of its sites its log row goes: the image stays sound, and the meaning stays.
pub fn undone_operations_go()
    ensures sound { (image : Image) → Sound image → (op : Op) → HasLog (global image).log op → IsUndone image op → Sound (without_log_row image op) }
    ensures meaning { (image : Image) (op : Op) → meaning (without_log_row image op) ≡ meaning image }
{}

/// Settling an operation that is out of the log, at an attached site, keeps an image sound, and leaves none of its marks there.
pub fn settling_keeps_sound()
    ensures sound { (image : Image) → Sound image → (number : ℕ) → map.get (global image).log number ≡ None → (location : Text) → IsAttachedIn image location →
        (after : Locals) → IsSettled number (locals_at image location) after → Sound (with_locals image location after) }
    ensures clean { (op : Op) (before after : Locals) → IsSettled op.number before after → HasNoMark op after }
{}

/// The edits that are made from scanned rows do just that: the local step, undo's sweep, and settling.
pub fn edits_make_the_steps()
    ensures step { (image : Image) → Sound image → (op : Op) → HasLog (global image).log op → (location : Text) (rows : List LocalRow) → AreScanned (sweep (global image).log op (Old op.number)) (locals_at image location) rows →
        Leaves image location (step_edits (global image).log op location rows) (IsStepped (global image).log op location (locals_at image location)) }
    ensures undo { (image : Image) → Sound image → (op : Op) (location : Text) (rows : List LocalRow) → AreScanned (sweep (global image).log op Plain) (locals_at image location) rows →
        Leaves image location (undo_edits (global image).log op rows) (IsSwept (global image).log op Plain (locals_at image location)) }
    ensures settle { (image : Image) → Sound image → (number : ℕ) (location : Text) (rows : List LocalRow) → AreScanned (settle number) (locals_at image location) rows →
        Leaves image location (settle_edits number rows) (IsSettled number (locals_at image location)) }
{}
