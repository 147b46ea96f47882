//! What sessions have to settle: committed operations.
ghost use Rattle.std.specs.Prelude.{◌≡◌, ℕ, List, Some, Result, IsOk};
ghost use Rattle.cell_world.specs.Texts.{Text};
ghost use Rattle.cell_world.specs.Images.{Image, Happening, after_all};
ghost use Rattle.cell_world.specs.Marked.{HasNoMark};
ghost use Rattle.cell_world.specs.Plain.{Connections};
ghost use Rattle.cell_world.specs.Sound.{Sound, IsAttachedIn, locals_at};
ghost use Rattle.cell_world.specs.declared.operations.Op.{Op};
ghost use Rattle.cell_world.specs.declared.operations.Reach.{Reach};
ghost use Rattle.cell_world.specs.declared.operations.StageName.TheVariants.{TargetDone, Committed, Settled};
ghost use Rattle.global_tables.specs.declared.faults.StepFault.{StepFault};
ghost use Rattle.op_log.specs.ShortChanges.{ShortChange};
ghost use Rattle.op_steps.specs.declared.stages.Stage.{Stage};
ghost use Rattle.op_steps.specs.Passing.{IsCourse, FailsByMemory};
ghost use Rattle.op_steps.specs.Undoing.{AnyUndoStep, UndoStepOf};
ghost use Rattle.op_steps.specs.Clearing.{IsAbandonedInWay};
ghost use Rattle.op_steps.specs.Beginning.{BeginStep};
ghost use Rattle.op_steps.specs.Advancing.{AtStage, AdvanceStep, Advances};
ghost use Rattle.plain_model.specs.Timelines.{Timeline, Past, image_of};
ghost use Rattle.plain_model.specs.Written.{Mode};
ghost use Rattle.session_laws.specs.Doing.{Doing, AllDoing, IsThen};
ghost use Rattle.session_laws.specs.Core.{Core, CoreAlone};
ghost use Rattle.session_laws.specs.Needs.{Needs};
ghost use Rattle.operation_laws.specs.Courses.{happened_on};
ghost use Rattle.operation_laws.specs.Left.{left_of, AreLeft, without_left};

/// What sessions have to settle stays committed, with no mark at sites where it has no mapping: while operations are undone, begin or go on, any of them, wherever that stops, and through each short change.
pub fn what_is_left_stays()
    ensures undone { (doing : AllDoing) (image : Image) → Sound image → AreLeft doing image → (hs : List Happening) → IsCourse AnyUndoStep image hs → AreLeft doing (after_all image hs) }
    ensures cleared { (doing : AllDoing) (image : Image) → Sound image → AreLeft doing image → (live : List ℕ) (reach : Reach) (hs : List Happening) → IsCourse (UndoStepOf (IsAbandonedInWay live reach)) image hs → AreLeft doing (after_all image hs) }
    ensures begins { (doing : AllDoing) (image : Image) → Sound image → AreLeft doing image → (live : List ℕ) (op : Op) (hs : List Happening) → IsCourse (BeginStep live op) image hs → AreLeft doing (after_all image hs) }
    ensures goes_on { (doing : AllDoing) (image : Image) → Sound image → AreLeft doing image → (op : Op) (hs : List Happening) → IsCourse (AdvanceStep op) image hs → AreLeft doing (after_all image hs) }
    ensures short { (doing : AllDoing) (image after : Image) (reach : Reach) → AreLeft doing image → ShortChange image reach after → AreLeft doing after }
{}

/// Once it is settled no mark of it stands at any attached site.
pub fn settled_is_clean()
    ensures { (op : Op) (image : Image) → AtStage op Settled image → (location : Text) → IsAttachedIn image location → HasNoMark op (locals_at image location) }
{}

/// An operation that was committed is left to its session, if to any, and what others had to settle they have.
pub fn committed_is_left()
    ensures { (doing : AllDoing) (image : Image) → Sound image → AreLeft doing image → (op : Op) → AtStage op TargetDone image → (result : Result Stage StepFault) → IsOk result → (hs : List Happening) →
        Advances op TargetDone (IsOk result) (FailsByMemory result) image hs → (session : ℕ) (d : Doing) (next : AllDoing) → IsThen doing session d next → ((o : Op) → left_of d ≡ Some o → o ≡ op) → AreLeft next (after_all image hs) }
{}

/// A session settles its committed operation, in part or whole, and has it no more to settle: the core goes on. Where all went well no mark of it stands at any attached site.
pub fn what_is_left_is_settled()
    ensures on_trail { (since : ℕ) (start : Image) (mode : Mode) (past : Timeline) (connections : Connections) (rest : Text) (doing : AllDoing) → Core Needs since start mode past connections rest doing → AreLeft doing (image_of start past) →
        (session : ℕ) (op : Op) → left_of (doing session) ≡ Some op → (result : Result Stage StepFault) (hs : List Happening) → Advances op Committed (IsOk result) (FailsByMemory result) (image_of start past) hs →
        (next : AllDoing) → IsThen doing session (without_left (doing session)) next →
        Core Needs since start mode (happened_on past hs) connections rest next × AreLeft next (image_of start (happened_on past hs)) ×
        (IsOk result → (location : Text) → IsAttachedIn (image_of start (happened_on past hs)) location → HasNoMark op (locals_at (image_of start (happened_on past hs)) location)) }
    ensures alone { (first : Image) (past : Past) (connections : Connections) (image : Image) (doing : AllDoing) → CoreAlone Needs first past connections image doing → AreLeft doing image →
        (session : ℕ) (op : Op) → left_of (doing session) ≡ Some op → (result : Result Stage StepFault) (hs : List Happening) → Advances op Committed (IsOk result) (FailsByMemory result) image hs →
        (next : AllDoing) → IsThen doing session (without_left (doing session)) next →
        CoreAlone Needs first past connections (after_all image hs) next × AreLeft next (after_all image hs) ×
        (IsOk result → (location : Text) → IsAttachedIn (after_all image hs) location → HasNoMark op (locals_at (after_all image hs) location)) }
{}
