//! The run of the plain step. Each law is the contract of a function that does nothing.
ghost use Rattle.std.specs.Prelude.{◌≡◌, true, List, false};
ghost use Rattle.std.specs.List.{AllByRecursion};
ghost use Rattle.cell_world.specs.Images.{Image, Trail, image_at, end_of_trail};
ghost use Rattle.plain_model.specs.declared.commands.Asked.{Asked};
ghost use Rattle.plain_model.specs.declared.history.Entry.{Entry};
ghost use Rattle.plain_model.specs.Summary.{replies_of, is_fault, is_memory};
ghost use Rattle.plain_model.specs.Headline.{GoesOnFrom, IsLegalHistory, IsLegalByStates};
ghost use Rattle.plain_runs.specs.PlainRuns.{is_plain, AreAnswersTo, IsPlainRun};

/// Where one session asks plain commands, each has one entry, without an operation, nothing is going at the end, and no entry is `fault` or `memory`, a legal history is the run of the plain step.
pub fn calm_runs_are_plain()
    ensures by_states { (script : List Asked) (history : List Entry) → AllByRecursion (λ (asked : Asked). (is_plain asked.command ≡ true) × (asked.session ≡ 1)) script → AreAnswersTo script history →
        replies_of is_fault history ≡ 0 → replies_of is_memory history ≡ 0 →
        (first last : Image) → IsLegalByStates false first last script history → IsPlainRun script first last history }
    ensures on_trail { (script : List Asked) (history : List Entry) → AllByRecursion (λ (asked : Asked). (is_plain asked.command ≡ true) × (asked.session ≡ 1)) script → AreAnswersTo script history →
        replies_of is_fault history ≡ 0 → replies_of is_memory history ≡ 0 →
        (before trail : Trail) → GoesOnFrom before trail → IsLegalHistory false trail (end_of_trail before) script history →
        IsPlainRun script (image_at before (end_of_trail before)) (image_at trail (end_of_trail trail)) history }
{}
