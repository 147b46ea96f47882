//! What is so of the local rows of a sound image, and what the changes make of them. Each law is the contract of a function that does nothing.
ghost use Rattle.std.specs.Prelude.{◌≡◌, ◌↔◌, List, Option, None};
ghost use Rattle.cell_world.specs.Images.{Image, Shard, global};
ghost use Rattle.cell_world.specs.Marked.{HasNoMark};
ghost use Rattle.cell_world.specs.Sound.{Sound, HasLog, IsAttachedIn, IsSuspectIn, locals_at};
ghost use Rattle.cell_world.specs.Stores.{Log, Locals};
ghost use Rattle.cell_world.specs.Sweep.{IsSwept, IsSweptPlain};
ghost use Rattle.cell_world.specs.Texts.{Text};
ghost use Rattle.cell_world.specs.UnderWay.{IsUnborn, IsDone};
ghost use Rattle.cell_world.specs.declared.operations.Op.{Op};
ghost use Rattle.cell_world.specs.declared.cells.Mark.TheVariants.{Plain};
ghost use Rattle.cell_world.specs.declared.changes.Edit.{Edit};
ghost use Rattle.image_laws.specs.LocalSteps.{AreKeyed, IsStepped, IsSettled};
ghost use Rattle.image_laws.specs.RowEdits.{Leaves};
ghost use Rattle.local_tables.specs.Altering.{edits_of, if_any, to_mark, to_settle, to_undo};
ghost use Rattle.local_tables.specs.Resolving.{CountApart};

/// At an attached and at a suspect site of a sound image at most one row counts over a key.
pub fn rows_count_apart()
    ensures attached { (image : Image) (location name : Text) → Sound image → IsAttachedIn image location → CountApart (global image).log (image.at (Shard location)).locals name }
    ensures suspect { (image : Image) (location name : Text) → Sound image → IsSuspectIn image location → CountApart (global image).log (image.at (Shard location)).locals name }
{}

/// The answers of `changes`, made at the site, are the local step, undo's sweep, and settling: nothing but the local rows is changed, and these are so. Where there is nothing to do they are so already.
pub fn changes_make_the_steps()
    ensures mark { (image : Image) → Sound image → (op : Op) → HasLog (global image).log op → (location : Text) (change : Option (List Edit)) → change ≡ if_any (to_mark (global image).log op location (locals_at image location)) →
        Leaves image location (edits_of change) (IsStepped (global image).log op location (locals_at image location)) }
    ensures undo { (image : Image) → Sound image → (op : Op) (location : Text) (change : Option (List Edit)) → change ≡ if_any (to_undo (global image).log op (locals_at image location)) →
        Leaves image location (edits_of change) (IsSwept (global image).log op Plain (locals_at image location)) }
    ensures settle { (image : Image) → Sound image → (op : Op) (location : Text) (change : Option (List Edit)) → change ≡ if_any (to_settle op (locals_at image location)) →
        Leaves image location (edits_of change) (IsSettled op.number (locals_at image location)) }
{}

/// There is nothing to do exactly where the operation is done at the site, while no row there is named by it; where the rows that overlap its hull are Plain; where no row has a mark of it.
pub fn nothing_to_do()
    ensures mark { (log : Log) (op : Op) (location : Text) (locals : Locals) → AreKeyed locals → IsUnborn op.number locals → (None ≡ if_any (to_mark log op location locals)) ↔ IsDone op location locals }
    ensures undo { (log : Log) (op : Op) (locals : Locals) → AreKeyed locals → (None ≡ if_any (to_undo log op locals)) ↔ IsSweptPlain op locals }
    ensures settle { (op : Op) (locals : Locals) → AreKeyed locals → (None ≡ if_any (to_settle op locals)) ↔ HasNoMark op locals }
{}
