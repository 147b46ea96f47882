//! What a command of one operation makes of a core, over what its world tells: on its trail, and by its contents alone.
ghost use Rattle.std.specs.Prelude.{◌≡◌, ◌<◌, ◌^◌, ◌++◌, ◌∷◌, ℕ, List, [], Option, None, Some, Result, Ok, Err, IsOk};
ghost use Rattle.cell_world.specs.Images.{Image, end_of_trail};
ghost use Rattle.cell_world.specs.Meaning.{next_operation};
ghost use Rattle.cell_world.specs.Outside.{Outside, IfTrail};
ghost use Rattle.cell_world.specs.Sound.{Sound};
ghost use Rattle.cell_world.specs.declared.operations.Op.{Op};
ghost use Rattle.cell_world.specs.declared.operations.StageName.TheVariants.{Logged, TargetDone};
ghost use Rattle.global_tables.specs.declared.faults.StepFault.{StepFault};
ghost use Rattle.plain_model.specs.JobSteps.{asked_number};
ghost use Rattle.plain_model.specs.Running.{text_of};
ghost use Rattle.plain_model.specs.Written.{Mode};
ghost use Rattle.plain_model.specs.declared.commands.Command.{Command};
ghost use Rattle.plain_model.specs.declared.history.Entry.{Entry};
ghost use Rattle.plain_model.specs.declared.replies.Reply.TheVariants as reply;
ghost use Rattle.op_steps.specs.Advancing.{Advances};
ghost use Rattle.op_steps.specs.Beginning.{Begins};
ghost use Rattle.op_steps.specs.Passing.{FailsByMemory, Passes};
ghost use Rattle.op_steps.specs.Stages.{next_stage};
ghost use Rattle.op_steps.specs.declared.beginning.BeginFault.TheVariants as begin;
ghost use Rattle.op_steps.specs.declared.beginning.Begun.TheVariants.{Going};
ghost use Rattle.op_steps.specs.declared.stages.Stage.{Stage};
ghost use Rattle.session_laws.specs.Contract.{Seen};
ghost use Rattle.session_laws.specs.Core.{Stands};
ghost use Rattle.session_laws.specs.Doing.{AllDoing, IsThen, Live, Operating, Resting, live_of};
ghost use Rattle.session_laws.specs.Needs.{Needs};
ghost use Rattle.operation_laws.specs.Entries.{EndsNone, FollowsAtCommit, IsOneOperation, Names};
ghost use Rattle.operation_laws.specs.Forward.{IsBeforeTarget, IsForward};
ghost use Rattle.operation_laws.specs.Leading.{Leads, with_doing, with_entry};
ghost use Rattle.operation_laws.specs.LiveNumbers.{AreTheLive};
ghost use Rattle.operation_laws.specs.Planned.{IsOpFor};

/// A session that rests takes up a command, and its operation has begun.
pub fn beginning_is_told()
    ensures { (mode : Mode) (old new : Outside) (before : Seen) (session : ℕ) (c : Command) (left : Option Op) → asked_number c ≡ None → before.doing session ≡ Resting left → (live : List ℕ) → AreTheLive live before.doing →
        (op made : Op) (stage : Stage) → Passes (λ image hs. Sound image → IsOpFor c image op × (next_operation image < 2 ^ 63) × Begins live op (Ok (Going made stage)) image hs) old new →
        (next : AllDoing) → IsThen before.doing session (Operating c made Logged) next → Leads mode old.told new.told before (with_doing before next) [] }
{}

/// Its log row was tried and refused, made or not, and the entry of the fault names its number.
pub fn refused_log_row_is_told()
    ensures { (mode : Mode) (old new : Outside) (before : Seen) (e : Entry) → IfTrail new.told (λ trail. e.moment ≡ end_of_trail trail) → (left : Option Op) (next : AllDoing) → IsThen before.doing e.session (Resting left) next →
        asked_number e.command ≡ None → before.doing e.session ≡ Resting left → (live : List ℕ) → AreTheLive live before.doing → (op : Op) → EndsNone e.command → e.reply ≡ Some reply.Fault →
        Passes (λ image hs. (Sound image → IsOpFor e.command image op × (next_operation image < 2 ^ 63)) × Begins live op (Err (begin.Tried e.operation)) image hs) old new → Leads mode old.told new.told before (with_entry before e next) (text_of mode e) }
{}

/// It has come to the next stage before its commit.
pub fn stage_is_told()
    ensures { (mode : Mode) (old new : Outside) (before : Seen) (session : ℕ) (l : Live) → live_of (before.doing session) ≡ Some l → (result : Result Stage StepFault) → IsBeforeTarget l.stage → IsOk result →
        Passes (Advances l.op l.stage (IsOk result) (FailsByMemory result)) old new → (next : AllDoing) → IsThen before.doing session (Operating l.command l.op (next_stage l.stage)) next → Leads mode old.told new.told before (with_doing before next) [] }
{}

/// It is committed and answered; or a store refused at whatever stage, and the entry of the fault names it; or memory was short.
pub fn end_is_told()
    ensures done { (mode : Mode) (old new : Outside) (before : Seen) (e : Entry) → IfTrail new.told (λ trail. e.moment ≡ end_of_trail trail) → (left : Option Op) (next : AllDoing) → IsThen before.doing e.session (Resting left) next →
        (l : Live) → live_of (before.doing e.session) ≡ Some l → (result : Result Stage StepFault) → l.stage ≡ TargetDone → IsOneOperation l.command → IsOk result → Names e l.command l.op.number reply.Ok →
        Passes (λ image hs. Advances l.op l.stage (IsOk result) (FailsByMemory result) image hs × (Sound image → Stands Needs e.session l image → FollowsAtCommit e.session l.command image l.op before.connections before.connections)) old new →
        Leads mode old.told new.told before (with_entry before e next) (text_of mode e) }
    ensures fault { (mode : Mode) (old new : Outside) (before : Seen) (e : Entry) → IfTrail new.told (λ trail. e.moment ≡ end_of_trail trail) → (left : Option Op) (next : AllDoing) → IsThen before.doing e.session (Resting left) next →
        (l : Live) → live_of (before.doing e.session) ≡ Some l → (result : Result Stage StepFault) → IsForward l.stage → EndsNone l.command → Names e l.command l.op.number reply.Fault →
        Passes (λ image hs. Advances l.op l.stage (IsOk result) (FailsByMemory result) image hs × (Sound image → Stands Needs e.session l image → FollowsAtCommit e.session l.command image l.op before.connections before.connections)) old new →
        Leads mode old.told new.told before (with_entry before e next) (text_of mode e) }
    ensures memory { (mode : Mode) (old new : Outside) (before : Seen) (e : Entry) → IfTrail new.told (λ trail. e.moment ≡ end_of_trail trail) → (left : Option Op) (next : AllDoing) → IsThen before.doing e.session (Resting left) next →
        (l : Live) → live_of (before.doing e.session) ≡ Some l → (result : Result Stage StepFault) → IsForward l.stage → IsOneOperation l.command → FailsByMemory result → Names e l.command l.op.number reply.Memory →
        Passes (Advances l.op l.stage (IsOk result) (FailsByMemory result)) old new → Leads mode old.told new.told before (with_entry before e next) (text_of mode e) }
{}
