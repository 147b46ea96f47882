//! What the transactions of operations leave of the stores, at each moment. Each law is the contract of a function that does nothing.
ghost use Rattle.std.specs.Prelude.{◌≡◌, ◌≢◌, ◌⊎◌, ◌+◌, ◌∷◌, [], ℕ, Bool, true, List, Result, IsOk};
ghost use Rattle.cell_world.specs.Images.{Image, Happening, Place, global};
ghost use Rattle.cell_world.specs.Marked.{Marked, committed};
ghost use Rattle.cell_world.specs.Meaning.{meaning, next_operation};
ghost use Rattle.cell_world.specs.Sound.{Sound};
ghost use Rattle.cell_world.specs.declared.operations.Op.{Op};
ghost use Rattle.cell_world.specs.declared.operations.StageName.{StageName};
ghost use Rattle.cell_world.specs.declared.operations.StageName.TheVariants.{SourceDone, TargetDone};
ghost use Rattle.cell_world.specs.declared.operations.Reach.{Reach};
ghost use Rattle.cell_world.specs.declared.changes.Edit.{Edit};
ghost use Rattle.global_tables.specs.declared.faults.StepFault.{StepFault};
ghost use Rattle.op_log.specs.JobSiteChanges.{JobSiteChange};
ghost use Rattle.op_log.specs.ShortChanges.{ShortChange};
ghost use Rattle.op_steps.specs.Advancing.{AdvanceStep, Advances, AtStage, CommitsOp, StepFrom, StepsAt};
ghost use Rattle.op_steps.specs.Beginning.{BeginStep, ClearsAndTries, Logs};
ghost use Rattle.op_steps.specs.Passing.{AtEach, FailsByMemory, IsCourse, changed_at};
ghost use Rattle.op_steps.specs.PassingOver.{MakesOne, has_step};
ghost use Rattle.op_steps.specs.Undoing.{AnyUndoStep, UndoStep};
ghost use Rattle.op_steps.specs.declared.stages.Stage.{Stage};
ghost use Rattle.plain_model.specs.OnTrail.{logs_put};

/// While operations are undone, wherever that stops, each image is sound and stands for the same.
pub fn undo_keeps_sound_and_meaning()
    ensures one { (op : Op) (image : Image) → Sound image → (hs : List Happening) → IsCourse (UndoStep op) image hs → AtEach (λ now. Sound now × (meaning now ≡ meaning image)) image hs }
    ensures all { (image : Image) → Sound image → (hs : List Happening) → IsCourse AnyUndoStep image hs → AtEach (λ now. Sound now × (meaning now ≡ meaning image)) image hs }
{}

/// While an operation begins, wherever that stops, each image is sound and stands for the same. What is tried of it, the log row at last, is such a course.
pub fn beginning_keeps_sound_and_meaning()
    ensures course { (live : List ℕ) (op made : Op) (took : Bool) (image : Image) (hs : List Happening) → ClearsAndTries live op made took image hs → IsCourse (BeginStep live op) image hs }
    ensures each { (live : List ℕ) (op : Op) (image : Image) → Sound image → (hs : List Happening) → IsCourse (BeginStep live op) image hs → AtEach (λ now. Sound now × (meaning now ≡ meaning image)) image hs }
{}

/// While an operation goes on, wherever that stops, each image is sound; what leads on from a stage is such a course. What the stores stand for stays but at the commit, which puts the new mappings in place of the old ones and puts the job.
pub fn advancing_keeps_sound()
    ensures course { (op : Op) (name : StageName) (image : Image) (hs : List Happening) → IsCourse (StepFrom name op) image hs → IsCourse (AdvanceStep op) image hs }
    ensures sound { (op : Op) (image : Image) → Sound image → (hs : List Happening) → IsCourse (AdvanceStep op) image hs → AtEach Sound image hs }
    ensures meaning { (op : Op) (image : Image) → Sound image → (place : Place) (change : List Edit) → AdvanceStep op image place change →
        (meaning (changed_at image place change) ≡ meaning image) ⊎ (meaning (changed_at image place change) ≡ record (meaning image) { mappings = (committed (global image) op).mappings; jobs = (committed (global image) op).jobs }) }
{}

/// Where new rows are to be put at another site, and at its commit, an operation that goes on makes just one transaction.
pub fn steps_are_made()
    ensures step { (op : Op) (image : Image) → Sound image → AtStage op SourceDone image → has_step op SourceDone ≡ true → (result : Result Stage StepFault) → IsOk result →
        (hs : List Happening) → Advances op SourceDone (IsOk result) (FailsByMemory result) image hs → MakesOne (StepsAt op) image hs }
    ensures commit { (op : Op) (image : Image) → Sound image → AtStage op TargetDone image → (result : Result Stage StepFault) → IsOk result →
        (hs : List Happening) → Advances op TargetDone (IsOk result) (FailsByMemory result) image hs → MakesOne (CommitsOp op) image hs }
{}

/// What is carried at a stage is what the cells say of it: the operation is marked so.
pub fn stages_are_marked()
    ensures { (op : Op) (name : StageName) (image : Image) → Sound image → AtStage op name image → Marked image op name }
{}

/// What is carried of an operation at a stage stays while another one goes on, is undone, or begins, and through each short change, each row that is put or deleted, the beginning and the finish of a job, and where a site is detached. Marked at a stage, at Settled too, it stays so; no mark of it comes to another site.
pub fn others_leave_stages()
    ensures goes_on { (op other : Op) (name : StageName) (image : Image) (place : Place) (change : List Edit) → Sound image → other.number ≢ op.number → AtStage op name image → AdvanceStep other image place change → AtStage op name (changed_at image place change) }
    ensures undone { (op other : Op) (name : StageName) (image : Image) (place : Place) (change : List Edit) → Sound image → other.number ≢ op.number → AtStage op name image → UndoStep other image place change → AtStage op name (changed_at image place change) }
    ensures begins { (op other : Op) (name : StageName) (image : Image) (place : Place) (change : List Edit) → Sound image → AtStage op name image → Logs other image place change → AtStage op name (changed_at image place change) }
    ensures short { (op : Op) (name : StageName) (reached : Reach) (image after : Image) → AtStage op name image → ShortChange image reached after → AtStage op name after }
    ensures jobs_and_sites { (op : Op) (name : StageName) (reached : Reach) (image after : Image) → AtStage op name image → JobSiteChange image reached after → AtStage op name after }
{}

/// The log row of an operation that begins is the only log cell that a transaction was to put, made or not: it has the number that stands, and where it is made the next one stands afterwards. The others leave the counter of operations.
pub fn one_log_row_is_tried()
    ensures undone { (op : Op) (image : Image) (place : Place) (change : List Edit) → UndoStep op image place change → (logs_put change ≡ []) × (next_operation (changed_at image place change) ≡ next_operation image) }
    ensures goes_on { (op : Op) (image : Image) (place : Place) (change : List Edit) → AdvanceStep op image place change → (logs_put change ≡ []) × (next_operation (changed_at image place change) ≡ next_operation image) }
    ensures begins { (op : Op) (image : Image) (place : Place) (change : List Edit) → Logs op image place change →
        (logs_put change ≡ op ∷ []) × (op.number ≡ next_operation image) × (next_operation (changed_at image place change) ≡ next_operation image + 1) }
{}
