//! Operations under way: how they get on, which stage they have come to, and what others leave of them. Each law is the contract of a function that does nothing.
ghost use Rattle.std.specs.Prelude.{◌≡◌, ◌≢◌, ℕ, List, [], ◌∷◌, false};
ghost use Rattle.cell_world.specs.Texts.{Text};
ghost use Rattle.cell_world.specs.Lists.{IsOneOf};
ghost use Rattle.cell_world.specs.Spelled.{listed};
ghost use Rattle.cell_world.specs.Stores.{Store, Log, Locals};
ghost use Rattle.cell_world.specs.Images.{Image, Global, global, with_store};
ghost use Rattle.cell_world.specs.Meaning.{next_operation};
ghost use Rattle.cell_world.specs.Operations.{conflicts, reach_of};
ghost use Rattle.cell_world.specs.Sound.{Sound, HasLog, IsAttachedIn, locals_at};
ghost use Rattle.cell_world.specs.Marked.{Marked, HasNoMark, NoMarksElsewhere, committed_image};
ghost use Rattle.cell_world.specs.Sweep.{IsSwept};
ghost use Rattle.cell_world.specs.UnderWay.{IsUnborn, IsDone, IsUnderWay};
ghost use Rattle.cell_world.specs.declared.operations.StageName.TheVariants.{SourceDone, TargetDone};
ghost use Rattle.cell_world.specs.declared.operations.Piece.{Piece};
ghost use Rattle.cell_world.specs.declared.operations.Op.{Op};
ghost use Rattle.cell_world.specs.declared.cells.Mark.{Mark};
ghost use Rattle.cell_world.specs.declared.cells.Mark.TheVariants.{Plain, Old};
ghost use Rattle.image_laws.specs.LocalSteps.{AreBorn, IsSettled, with_locals};

/// An operation is under way from its log row on, with no step made; each step leads on. Whatever else is done at one site, or at the global store, leaves it under way where it leaves there what was done and what was unborn, its log row and the sites' states.
pub fn operations_get_on()
    ensures begun { (image : Image) → Sound image → (op : Op) → op.number ≡ next_operation image → (g : Store) → HasLog g.log op → g.away ≡ (global image).away → IsUnderWay (with_store image Global g) op [] }
    ensures stepped { (image : Image) (op : Op) (sites : List Text) → IsUnderWay image op sites → (location : Text) (after : Locals) → IsDone op location after → IsUnderWay (with_locals image location after) op (location ∷ sites) }
    ensures local { (image : Image) (op : Op) (sites : List Text) → IsUnderWay image op sites → (location : Text) (after : Locals) →
        (IsDone op location (locals_at image location) → IsDone op location after) → (IsUnborn op.number (locals_at image location) → IsUnborn op.number after) → IsUnderWay (with_locals image location after) op sites }
    ensures global_store { (image : Image) (op : Op) (sites : List Text) → IsUnderWay image op sites → (g : Store) → HasLog g.log op → g.away ≡ (global image).away → IsUnderWay (with_store image Global g) op sites }
{}

/// What is done at the sites of the olds is SourceDone, and what is done at those of the news too is TargetDone.
pub fn done_is_marked()
    ensures source { (image : Image) → Sound image → (op : Op) → HasLog (global image).log op →
        ((old : Piece) → IsOneOf (listed op.olds) old → IsDone op old.location (locals_at image old.location)) → Marked image op SourceDone }
    ensures target { (image : Image) → Sound image → (op : Op) → HasLog (global image).log op →
        ((old : Piece) → IsOneOf (listed op.olds) old → IsDone op old.location (locals_at image old.location)) →
        ((new : Piece) → IsOneOf (listed op.news) new → IsDone op new.location (locals_at image new.location)) → Marked image op TargetDone }
{}

/// The next operation number names no row at an attached site, and none is Old of it.
pub fn next_number_is_unborn()
    ensures { (image : Image) → Sound image → (location : Text) → IsAttachedIn image location → IsUnborn (next_operation image) (locals_at image location) }
{}

/// What is done for one operation at a site stays so while another one, that doesn't conflict with it, is swept, has its news put, or is settled there.
pub fn others_stay_done()
    ensures swept { (image : Image) → Sound image → (op other : Op) → HasLog (global image).log op → conflicts (reach_of op) other ≡ false → (location : Text) → IsAttachedIn image location → IsDone op location (locals_at image location) →
        (mark : Mark) (after : Locals) → IsSwept (global image).log other mark (locals_at image location) after → IsDone op location after }
    ensures born { (image : Image) → Sound image → (op other : Op) → HasLog (global image).log op → HasLog (global image).log other → op.number ≢ other.number →
        (location : Text) (before after : Locals) → AreBorn other.number location (listed other.news) before after → IsDone op location before → IsDone op location after }
    ensures settled { (op : Op) (number : ℕ) (location : Text) (before after : Locals) → IsSettled number before after → op.number ≢ number → IsDone op location before → IsDone op location after }
{}

/// No row gets the name or the mark of an operation while another one is swept, has its news put, or is settled there.
pub fn others_stay_unborn()
    ensures swept { (log : Log) (other : Op) (mark : Mark) (before after : Locals) (number : ℕ) → mark ≢ Old number → IsSwept log other mark before after → IsUnborn number before → IsUnborn number after }
    ensures born { (number other : ℕ) (location : Text) (news : List Piece) (before after : Locals) → number ≢ other → AreBorn other location news before after → IsUnborn number before → IsUnborn number after }
    ensures settled { (number other : ℕ) (before after : Locals) → IsSettled other before after → IsUnborn number before → IsUnborn number after }
{}

/// At each attached site of none of its mappings no row has a mark of a logged operation. Its commit leaves that, and what others do at a site puts no mark of it there.
pub fn marks_stay_at_their_sites()
    ensures logged { (image : Image) → Sound image → (op : Op) → HasLog (global image).log op → NoMarksElsewhere image op }
    ensures committed { (image : Image) (op other : Op) → NoMarksElsewhere image op → NoMarksElsewhere (committed_image image other) op }
    ensures stepped { (op other : Op) (log : Log) → other.number ≢ op.number → (before after : Locals) → IsSwept log other (Old other.number) before after → HasNoMark op before → HasNoMark op after }
    ensures undone { (op other : Op) (log : Log) (before after : Locals) → IsSwept log other Plain before after → HasNoMark op before → HasNoMark op after }
    ensures born { (op : Op) (number : ℕ) → number ≢ op.number → (location : Text) (news : List Piece) (before after : Locals) → AreBorn number location news before after → HasNoMark op before → HasNoMark op after }
    ensures settled { (op : Op) (number : ℕ) (before after : Locals) → IsSettled number before after → HasNoMark op before → HasNoMark op after }
{}
