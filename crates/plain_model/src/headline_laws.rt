//! From the run so far to what a run promises. Each law is the contract of a function that does nothing.
ghost use Rattle.std.specs.Prelude.{◌≡◌, [], ℕ, Bool, List, take, drop};
ghost use Rattle.cell_world.specs.Texts.{Text};
ghost use Rattle.cell_world.specs.Images.{Image, Trail, Wrote, image_at, end_of_trail, extended};
ghost use Rattle.cell_world.specs.Sound.{Sound};
ghost use Rattle.cell_world.specs.Outside.{Told, TellsContents, TellsTrail};
ghost use Rattle.plain_model.specs.declared.commands.Asked.{Asked};
ghost use Rattle.plain_model.specs.declared.finish.RunStatus.{RunStatus};
ghost use Rattle.plain_model.specs.declared.history.Entry.{Entry};
ghost use Rattle.plain_model.specs.Timelines.{Timeline};
ghost use Rattle.plain_model.specs.OnTrail.{NoneOwed};
ghost use Rattle.plain_model.specs.Written.{Mode, EachReply};
ghost use Rattle.plain_model.specs.RunSoFar.{Course, RunsOn, KeepsRun, RunsTo, KeepsContents, Looks, EndsWritten, AreLeftGoing, HoldsOnTrail, HoldsByStates, resting, nothing_going};

/// A run begins at the end of a trail, or with contents, that are sound.
pub fn runs_begin()
    ensures on_trail { (mode : Mode) (trail : Trail) → Sound (image_at trail (end_of_trail trail)) → RunsOn mode (end_of_trail trail) (image_at trail (end_of_trail trail)) trail (resting []) [] }
    ensures by_states { (first : Image) → Sound first → RunsTo first first (resting []) }
{}

/// What is to be written is written, or a front of it.
pub fn runs_write()
    ensures all { (mode : Mode) (t0 : ℕ) (start : Image) (trail : Trail) (course : Course) (rest : Text) → RunsOn mode t0 start trail course rest → RunsOn mode t0 start (extended trail (Wrote rest)) course [] }
    ensures front { (mode : Mode) (t0 : ℕ) (start : Image) (trail : Trail) (course : Course) (rest : Text) (n : ℕ) → RunsOn mode t0 start trail course rest →
        RunsOn mode t0 start (extended trail (Wrote (take n rest))) course (drop n rest) }
{}

/// What keeps the run, one after the other, keeps it.
pub fn runs_follow_one_another()
    ensures on_trail { (mode : Mode) (old mid new : Told) (none one two : Course) (rest : Text) → KeepsRun mode old none mid one [] → KeepsRun mode mid one new two rest → KeepsRun mode old none new two rest }
    ensures by_states { (old mid new : Told) (none one two : Course) → KeepsContents old none mid one → KeepsContents mid one new two → KeepsContents old none new two }
{}

/// Where no session has anything going no number is open, so no entry is owed.
pub fn none_is_owed_at_rest()
    ensures { (start : Image) (past : Timeline) → Looks nothing_going past → NoneOwed start past }
{}

/// A run that was kept from its beginning has, at its end, the parts of the headline that speak of the stores.
pub fn runs_hold()
    ensures on_trail { (tagged stopped : Bool) (script : List Asked) (old new : Told) (course : Course) (rest : Text) (ending : RunStatus) →
        KeepsRun (EachReply tagged) old (resting []) new course rest → AreLeftGoing stopped script course.history course.going → EndsWritten rest ending course.history →
        (before : Trail) → old ≡ TellsTrail before → Sound (image_at before (end_of_trail before)) → HoldsOnTrail (EachReply tagged) stopped script before new course.history ending }
    ensures by_states { (stopped : Bool) (script : List Asked) (old new : Told) (course : Course) → KeepsContents old (resting []) new course → AreLeftGoing stopped script course.history course.going →
        (first : Image) → old ≡ TellsContents first → Sound first → HoldsByStates stopped script first new course.history }
{}
