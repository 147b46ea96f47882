//! A session's operation goes on from a stage: to the next one, or to the entry that names it.
ghost use Rattle.std.specs.Prelude.{◌≡◌, ◌⊎◌, ℕ, true, List, [], ◌∷◌, Option, Some, None, Result, IsOk};
ghost use Rattle.cell_world.specs.Texts.{Text};
ghost use Rattle.cell_world.specs.Images.{Image, Global, Happening, Committed, after_all};
ghost use Rattle.cell_world.specs.Plain.{Connections, with_connections};
ghost use Rattle.cell_world.specs.Marked.{committed_image};
ghost use Rattle.cell_world.specs.Meaning.{meaning};
ghost use Rattle.cell_world.specs.Sound.{Sound};
ghost use Rattle.cell_world.specs.declared.operations.Op.{Op};
ghost use Rattle.cell_world.specs.declared.operations.StageName.{StageName};
ghost use Rattle.cell_world.specs.declared.operations.StageName.TheVariants.{TargetDone};
ghost use Rattle.global_tables.specs.declared.faults.StepFault.{StepFault};
ghost use Rattle.image_laws.specs.CommitEdits.{commit_edits};
ghost use Rattle.plain_model.specs.declared.replies.Reply.{Reply};
ghost use Rattle.plain_model.specs.declared.replies.Reply.TheVariants as reply;
ghost use Rattle.plain_model.specs.declared.history.Entry.{Entry};
ghost use Rattle.plain_model.specs.Follows.{Follows};
ghost use Rattle.plain_model.specs.Timelines.{Timeline, Past, Entered, image_of};
ghost use Rattle.plain_model.specs.Legal.{Promises};
ghost use Rattle.plain_model.specs.GoingOn.{IsOf};
ghost use Rattle.plain_model.specs.Written.{Mode};
ghost use Rattle.plain_model.specs.Running.{text_of};
ghost use Rattle.session_laws.specs.Doing.{Doing, Operating, AllDoing, Live, live_of, all_going, IsThen};
ghost use Rattle.session_laws.specs.Core.{Core, CoreAlone, Answers, Leaves};
ghost use Rattle.session_laws.specs.Needs.{Needs};
ghost use Rattle.op_steps.specs.declared.stages.Stage.{Stage};
ghost use Rattle.op_steps.specs.Passing.{FailsByMemory};
ghost use Rattle.op_steps.specs.Stages.{next_stage};
ghost use Rattle.op_steps.specs.Advancing.{AtStage, Advances};
ghost use Rattle.operation_laws.specs.Courses.{happened_on};
ghost use Rattle.operation_laws.specs.Forward.{IsForward, IsBeforeTarget};

/// A live operation is at the stage that its session has it at, as the steps carry it.
pub fn operation_is_at_its_stage()
    ensures on_trail { (since : ℕ) (start : Image) (mode : Mode) (past : Timeline) (connections : Connections) (rest : Text) (doing : AllDoing) → Core Needs since start mode past connections rest doing →
        (session : ℕ) (l : Live) → live_of (doing session) ≡ Some l → IsForward l.stage → AtStage l.op l.stage (image_of start past) }
    ensures alone { (first : Image) (past : Past) (connections : Connections) (image : Image) (doing : AllDoing) → CoreAlone Needs first past connections image doing →
        (session : ℕ) (l : Live) → live_of (doing session) ≡ Some l → IsForward l.stage → AtStage l.op l.stage image }
{}

/// Its local step at the site of the olds, or of the news, is made, or there was nothing to do: the session has it at the next stage.
pub fn operation_advances()
    ensures on_trail { (since : ℕ) (start : Image) (mode : Mode) (past : Timeline) (connections : Connections) (rest : Text) (doing : AllDoing) → Core Needs since start mode past connections rest doing →
        (session : ℕ) (l : Live) → live_of (doing session) ≡ Some l → IsBeforeTarget l.stage → (result : Result Stage StepFault) → IsOk result → (hs : List Happening) →
        Advances l.op l.stage (IsOk result) (FailsByMemory result) (image_of start past) hs → (next : AllDoing) → IsThen doing session (Operating l.command l.op (next_stage l.stage)) next →
        Core Needs since start mode (happened_on past hs) connections rest next }
    ensures alone { (first : Image) (past : Past) (connections : Connections) (image : Image) (doing : AllDoing) → CoreAlone Needs first past connections image doing →
        (session : ℕ) (l : Live) → live_of (doing session) ≡ Some l → IsBeforeTarget l.stage → (result : Result Stage StepFault) → IsOk result → (hs : List Happening) →
        Advances l.op l.stage (IsOk result) (FailsByMemory result) image hs → (next : AllDoing) → IsThen doing session (Operating l.command l.op (next_stage l.stage)) next →
        CoreAlone Needs first past connections (after_all image hs) next }
{}

/// Its transaction, from whatever stage up to the commit, was tried, made or not, or nothing was, and the entry that names it follows at once: the commit with its answer, or a fault, or want of memory, by which it is abandoned.
pub fn operation_ends()
    ensures answered { (since : ℕ) (start : Image) (mode : Mode) (past : Timeline) (connections : Connections) (doing : AllDoing) → Core Needs since start mode past connections [] doing →
        (e : Entry) (l : Live) → live_of (doing e.session) ≡ Some l → IsForward l.stage → (result : Result Stage StepFault) (hs : List Happening) → Advances l.op l.stage (IsOk result) (FailsByMemory result) (image_of start past) hs →
        (d : Doing) (next : AllDoing) → IsThen doing e.session d next → Leaves e d → IsOf (record { command = l.command; operation = l.op.number }) e → (r : Reply) → e.reply ≡ Some r →
        Promises (all_going next) e [] e.reply → (e.reply ≡ Some (reply.Pending 0) → ⊥) → (after : Connections) → Answers since start (happened_on past hs) e connections after →
        Core Needs since start mode (Entered e ∷ happened_on past hs) after (text_of mode e) next }
    ensures job_step { (since : ℕ) (start : Image) (mode : Mode) (past : Timeline) (connections : Connections) (rest : Text) (doing : AllDoing) → Core Needs since start mode past connections rest doing →
        (e : Entry) (l : Live) → live_of (doing e.session) ≡ Some l → l.stage ≡ TargetDone → (result : Result Stage StepFault) → IsOk result → (hs : List Happening) → Advances l.op l.stage (IsOk result) (FailsByMemory result) (image_of start past) hs →
        (d : Doing) (next : AllDoing) → IsThen doing e.session d next → Leaves e d → IsOf (record { command = l.command; operation = l.op.number }) e → e.reply ≡ None →
        Promises (all_going next) e [] e.reply → (e.reply ≡ Some (reply.Pending 0) → ⊥) → (after : Connections) → Answers since start (happened_on past hs) e connections after →
        Core Needs since start mode (Entered e ∷ happened_on past hs) after rest next }
    ensures alone { (first : Image) (past : Past) (connections : Connections) (image : Image) (doing : AllDoing) → CoreAlone Needs first past connections image doing →
        (e : Entry) (l : Live) → live_of (doing e.session) ≡ Some l → IsForward l.stage → (result : Result Stage StepFault) (hs : List Happening) → Advances l.op l.stage (IsOk result) (FailsByMemory result) image hs →
        (d : Doing) (next : AllDoing) → IsThen doing e.session d next → Leaves e d → IsOf (record { command = l.command; operation = l.op.number }) e →
        Promises (all_going next) e [] e.reply → (e.reply ≡ Some (reply.Pending 0) → ⊥) → (after : Connections) → Follows past (with_connections (meaning image) connections) e (with_connections (meaning (after_all image hs)) after) e.reply →
        CoreAlone Needs first (record { entry = e; before = meaning image } ∷ past) after (after_all image hs) next }
{}

/// What an operation that goes on leaves of the stores: before its commit what they stood for; with it, where all went well, its exchange, by that one transaction; where it failed the one or the other, and for want of memory nothing happened.
pub fn operation_leaves()
    ensures before { (image : Image) → Sound image → (op : Op) (name : StageName) → IsBeforeTarget name → AtStage op name image → (result : Result Stage StepFault) (hs : List Happening) →
        Advances op name (IsOk result) (FailsByMemory result) image hs → meaning (after_all image hs) ≡ meaning image }
    ensures committed { (image : Image) → Sound image → (op : Op) → AtStage op TargetDone image → (result : Result Stage StepFault) → IsOk result → (hs : List Happening) →
        Advances op TargetDone (IsOk result) (FailsByMemory result) image hs → (hs ≡ Committed Global (commit_edits op) true ∷ []) × (after_all image hs ≡ committed_image image op) }
    ensures failed { (image : Image) → Sound image → (op : Op) → AtStage op TargetDone image → (result : Result Stage StepFault) (hs : List Happening) →
        Advances op TargetDone (IsOk result) (FailsByMemory result) image hs → (after_all image hs ≡ image) ⊎ (after_all image hs ≡ committed_image image op) }
    ensures memory { (image : Image) → Sound image → (op : Op) → AtStage op TargetDone image → (result : Result Stage StepFault) → FailsByMemory result → (hs : List Happening) →
        Advances op TargetDone (IsOk result) (FailsByMemory result) image hs → hs ≡ [] }
{}
