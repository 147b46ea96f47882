//! The numbers that a run gives. Each law is the contract of a function that does nothing.
ghost use Rattle.std.specs.Prelude.{◌≡◌, ◌⊎◌, ◌≤◌, ◌++◌, true, ℕ, Bool, List, Some, slice_get};
ghost use Rattle.cell_world.specs.Lists.{IsOneOf};
ghost use Rattle.cell_world.specs.Images.{Image, Place, Trail, Committed, image_at, end_of_trail};
ghost use Rattle.cell_world.specs.Plain.{Connections};
ghost use Rattle.cell_world.specs.Meaning.{next_operation};
ghost use Rattle.cell_world.specs.Sound.{Sound};
ghost use Rattle.cell_world.specs.declared.changes.Edit.{Edit};
ghost use Rattle.cell_world.specs.declared.operations.Op.{Op};
ghost use Rattle.plain_model.specs.declared.history.Entry.{Entry};
ghost use Rattle.plain_model.specs.Timelines.{Timeline, image_of, history_of};
ghost use Rattle.plain_model.specs.OnTrail.{IsLive, is_open, logs_put};
ghost use Rattle.plain_model.specs.Legal.{AllGoing, Unfolds};
ghost use Rattle.plain_model.specs.ByMoments.{LegalByMoments};
ghost use Rattle.plain_model.specs.Running.{AllSound};
ghost use Rattle.history_laws.specs.Given.{WasEverTried, IsOfRun};

/// The counter's operation number never falls: it is now at least what it was at the start, and after whatever comes later at least what it was before.
pub fn counter_never_falls()
    ensures from_start { (since : ℕ) (start : Image) (past : Timeline) (connections : Connections) → Unfolds since start past connections → next_operation start ≤ next_operation (image_of start past) }
    ensures later { (since : ℕ) (start : Image) (later past : Timeline) (connections : Connections) → Unfolds since start (later ++ past) connections →
        next_operation (image_of start past) ≤ next_operation (image_of start (later ++ past)) }
{}

/// The number of each log cell that was tried, made or not, is of this run, where the start is sound: at least 1, in the counter's range, and not in the start's log. So is each number that is open or live, and each
/// that an entry names.
pub fn numbers_are_of_the_run()
    ensures sound_start { (start : Image) (past : Timeline) → AllSound start past → Sound start }
    ensures tried { (since : ℕ) (start : Image) (past : Timeline) (connections : Connections) → Unfolds since start past connections → Sound start → (op : Op) → WasEverTried past op →
        IsOfRun start (image_of start past) op.number }
    ensures is_open { (since : ℕ) (start : Image) (past : Timeline) (connections : Connections) → Unfolds since start past connections → Sound start → (number : ℕ) → is_open number past ≡ true →
        IsOfRun start (image_of start past) number }
    ensures live { (since : ℕ) (start : Image) (past : Timeline) (connections : Connections) → Unfolds since start past connections → Sound start → (op : Op) → IsLive start past op →
        IsOfRun start (image_of start past) op.number }
    ensures named { (since : ℕ) (start : Image) (past : Timeline) (connections : Connections) → Unfolds since start past connections → Sound start → (e : Entry) → IsOneOf (history_of past) e →
        (e.operation ≡ 0) ⊎ IsOfRun start (image_of start past) e.operation }
{}

/// So it is in a legal history by moments: of each log cell that a commit from the start on was to put, made or not, and of each entry.
pub fn numbers_by_moments()
    ensures tried { (trail : Trail) (t0 : ℕ) (going : AllGoing) (history : List Entry) → t0 ≤ end_of_trail trail → LegalByMoments trail t0 going history → Sound (image_at trail t0) →
        (t : ℕ) (place : Place) (change : List Edit) (took : Bool) (op : Op) → t0 ≤ t → slice_get trail.happened t ≡ Some (Committed place change took) → IsOneOf (logs_put change) op →
        IsOfRun (image_at trail t0) (image_at trail (end_of_trail trail)) op.number }
    ensures named { (trail : Trail) (t0 : ℕ) (going : AllGoing) (history : List Entry) → t0 ≤ end_of_trail trail → LegalByMoments trail t0 going history → Sound (image_at trail t0) →
        (e : Entry) → IsOneOf history e → (e.operation ≡ 0) ⊎ IsOfRun (image_at trail t0) (image_at trail (end_of_trail trail)) e.operation }
{}
