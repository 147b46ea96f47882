//! A command that is one operation is answered. Each law gives the core after the entry, with what the entry says of the states and of the trail.
ghost use Rattle.std.specs.Prelude.{◌≡◌, ◌+◌, ◌<◌, ◌^◌, ℕ, List, [], ◌∷◌, length, Option, Some, None, Result, IsOk, Ok, Err};
ghost use Rattle.cell_world.specs.Texts.{Text};
ghost use Rattle.cell_world.specs.Images.{Image, Happening, after_all, global};
ghost use Rattle.cell_world.specs.Lawful.{Lawful};
ghost use Rattle.cell_world.specs.Plain.{Connections, with_connections};
ghost use Rattle.cell_world.specs.Meaning.{meaning, next_operation};
ghost use Rattle.cell_world.specs.Operations.{reach_of};
ghost use Rattle.cell_world.specs.Sound.{Sound};
ghost use Rattle.cell_world.specs.declared.cells.Token.{Token};
ghost use Rattle.cell_world.specs.declared.operations.Op.{Op};
ghost use Rattle.cell_world.specs.declared.operations.Reach.{Reach};
ghost use Rattle.cell_world.specs.declared.operations.StageName.TheVariants.{TargetDone};
ghost use Rattle.global_tables.specs.declared.faults.StepFault.{StepFault};
ghost use Rattle.plain_model.specs.declared.commands.Command.{Command};
ghost use Rattle.plain_model.specs.declared.commands.Command.TheVariants as command;
ghost use Rattle.plain_model.specs.declared.replies.Reply.TheVariants as reply;
ghost use Rattle.plain_model.specs.declared.replies.Refusal.TheVariants as refused;
ghost use Rattle.plain_model.specs.declared.history.Entry.{Entry};
ghost use Rattle.plain_model.specs.JobSteps.{asked_number};
ghost use Rattle.plain_model.specs.OnTrail.{reach_of_command};
ghost use Rattle.plain_model.specs.Refusing.{given_token, refusal, mapping_of};
ghost use Rattle.plain_model.specs.Steps.{ended_under};
ghost use Rattle.plain_model.specs.Timelines.{Timeline, Past, Entered, image_of, happened_of};
ghost use Rattle.plain_model.specs.Written.{Mode};
ghost use Rattle.plain_model.specs.Running.{text_of};
ghost use Rattle.session_laws.specs.Doing.{Resting, Working, AllDoing, Live, live_of, IsThen};
ghost use Rattle.session_laws.specs.Core.{Core, CoreAlone, Stands};
ghost use Rattle.session_laws.specs.Needs.{Needs};
ghost use Rattle.op_steps.specs.declared.stages.Stage.{Stage};
ghost use Rattle.op_steps.specs.declared.beginning.BeginFault.TheVariants as begin;
ghost use Rattle.op_steps.specs.declared.beginning.Begun.TheVariants.{Going};
ghost use Rattle.op_steps.specs.Passing.{FailsByMemory};
ghost use Rattle.op_steps.specs.Beginning.{Begins};
ghost use Rattle.op_steps.specs.Advancing.{Advances};
ghost use Rattle.op_steps.specs.Clearing as way;
ghost use Rattle.operation_laws.specs.Courses.{happened_on};
ghost use Rattle.operation_laws.specs.Forward.{IsForward};
ghost use Rattle.operation_laws.specs.LiveNumbers.{AreTheLive};
ghost use Rattle.operation_laws.specs.Planned.{IsOpFor};
ghost use Rattle.operation_laws.specs.Opening.{Opens, ends_with};
ghost use Rattle.operation_laws.specs.Entries.{EndsNone, IsOneOperation, IsAdding, Names, FollowsAtCommit};

/// What `add` and `addpoint` bring to the commit of their operation, from what the core carries of it: they aren't refused then either, and their plain step is the commit.
pub fn adding_follows_at_its_commit()
    ensures { (session : ℕ) (l : Live) (image : Image) → Sound image → Stands Needs session l image → IsAdding l.command → (connections : Connections) → FollowsAtCommit session l.command image l.op connections connections }
{}

/// So each command that is one operation, where its token opens the mappings that are replaced, and the operation is of no job: both are said of the command and its operation alone.
pub fn operation_follows_at_its_commit()
    ensures { (session : ℕ) (l : Live) (image : Image) → Sound image → Stands Needs session l image → IsOneOperation l.command → Opens (given_token l.command) l.op → (connections : Connections) →
        FollowsAtCommit session l.command image l.op connections (ends_with (with_connections (meaning image) connections) l.command) }
{}

/// What a command of one operation reaches is what its operation reaches, whatever its number.
pub fn command_reaches_its_operation()
    ensures { (image : Image) (connections : Connections) (c : Command) → IsOneOperation c → (op : Op) → IsOpFor c image op → reach_of_command (with_connections (meaning image) connections) c ≡ reach_of op }
{}

/// The commit is made, and the entry `ok` names the operation, for each command whose plain step is the commit. The session rests, and has something to settle or not.
pub fn commit_answers_ok()
    ensures on_trail { (since : ℕ) (start : Image) (mode : Mode) (past : Timeline) (connections : Connections) (doing : AllDoing) → Core Needs since start mode past connections [] doing →
        (e : Entry) (l : Live) → live_of (doing e.session) ≡ Some l → l.stage ≡ TargetDone → IsOneOperation l.command → (result : Result Stage StepFault) → IsOk result → (hs : List Happening) →
        Advances l.op l.stage (IsOk result) (FailsByMemory result) (image_of start past) hs → Names e l.command l.op.number reply.Ok → e.moment ≡ since + length (happened_of (happened_on past hs)) →
        (after : Connections) → FollowsAtCommit e.session l.command (image_of start past) l.op connections after → (left : Option Op) (next : AllDoing) → IsThen doing e.session (Resting left) next →
        Core Needs since start mode (Entered e ∷ happened_on past hs) after (text_of mode e) next }
    ensures alone { (first : Image) (past : Past) (connections : Connections) (image : Image) (doing : AllDoing) → CoreAlone Needs first past connections image doing →
        (e : Entry) (l : Live) → live_of (doing e.session) ≡ Some l → l.stage ≡ TargetDone → (result : Result Stage StepFault) → IsOk result → (hs : List Happening) →
        Advances l.op l.stage (IsOk result) (FailsByMemory result) image hs → Names e l.command l.op.number reply.Ok →
        (after : Connections) → FollowsAtCommit e.session l.command image l.op connections after → (left : Option Op) (next : AllDoing) → IsThen doing e.session (Resting left) next →
        CoreAlone Needs first (record { entry = e; before = meaning image } ∷ past) after (after_all image hs) next }
{}

/// The operation goes no further: the entry `fault` names it, whatever of its transaction was made. Of commands that end no connection.
pub fn fault_names_it()
    ensures on_trail { (since : ℕ) (start : Image) (mode : Mode) (past : Timeline) (connections : Connections) (doing : AllDoing) → Core Needs since start mode past connections [] doing →
        (e : Entry) (l : Live) → live_of (doing e.session) ≡ Some l → IsForward l.stage → EndsNone l.command → (result : Result Stage StepFault) (hs : List Happening) →
        Advances l.op l.stage (IsOk result) (FailsByMemory result) (image_of start past) hs → Names e l.command l.op.number reply.Fault → e.moment ≡ since + length (happened_of (happened_on past hs)) →
        FollowsAtCommit e.session l.command (image_of start past) l.op connections connections → (left : Option Op) (next : AllDoing) → IsThen doing e.session (Resting left) next →
        Core Needs since start mode (Entered e ∷ happened_on past hs) connections (text_of mode e) next }
    ensures alone { (first : Image) (past : Past) (connections : Connections) (image : Image) (doing : AllDoing) → CoreAlone Needs first past connections image doing →
        (e : Entry) (l : Live) → live_of (doing e.session) ≡ Some l → IsForward l.stage → EndsNone l.command → (result : Result Stage StepFault) (hs : List Happening) →
        Advances l.op l.stage (IsOk result) (FailsByMemory result) image hs → Names e l.command l.op.number reply.Fault →
        FollowsAtCommit e.session l.command image l.op connections connections → (left : Option Op) (next : AllDoing) → IsThen doing e.session (Resting left) next →
        CoreAlone Needs first (record { entry = e; before = meaning image } ∷ past) connections (after_all image hs) next }
{}

/// The operation goes no further for want of memory: the entry `memory` names it.
pub fn memory_names_it()
    ensures on_trail { (since : ℕ) (start : Image) (mode : Mode) (past : Timeline) (connections : Connections) (doing : AllDoing) → Core Needs since start mode past connections [] doing →
        (e : Entry) (l : Live) → live_of (doing e.session) ≡ Some l → IsForward l.stage → IsOneOperation l.command → (result : Result Stage StepFault) → FailsByMemory result → (hs : List Happening) →
        Advances l.op l.stage (IsOk result) (FailsByMemory result) (image_of start past) hs → Names e l.command l.op.number reply.Memory → e.moment ≡ since + length (happened_of (happened_on past hs)) →
        (left : Option Op) (next : AllDoing) → IsThen doing e.session (Resting left) next → Core Needs since start mode (Entered e ∷ happened_on past hs) connections (text_of mode e) next }
    ensures alone { (first : Image) (past : Past) (connections : Connections) (image : Image) (doing : AllDoing) → CoreAlone Needs first past connections image doing →
        (e : Entry) (l : Live) → live_of (doing e.session) ≡ Some l → IsForward l.stage → IsOneOperation l.command → (result : Result Stage StepFault) → FailsByMemory result → (hs : List Happening) →
        Advances l.op l.stage (IsOk result) (FailsByMemory result) image hs → Names e l.command l.op.number reply.Memory →
        (left : Option Op) (next : AllDoing) → IsThen doing e.session (Resting left) next → CoreAlone Needs first (record { entry = e; before = meaning image } ∷ past) connections (after_all image hs) next }
{}

/// The log row was tried and refused, made or not: the entry `fault` names its number.
pub fn fault_names_its_log_row()
    ensures on_trail { (since : ℕ) (start : Image) (mode : Mode) (past : Timeline) (connections : Connections) (doing : AllDoing) → Core Needs since start mode past connections [] doing →
        (e : Entry) (left : Option Op) → doing e.session ≡ Working e.command left → EndsNone e.command → (live : List ℕ) → AreTheLive live doing → (op : Op) → IsOpFor e.command (image_of start past) op → next_operation (image_of start past) < 2 ^ 63 →
        (hs : List Happening) → Begins live op (Err (begin.Tried e.operation)) (image_of start past) hs → e.reply ≡ Some reply.Fault → e.moment ≡ since + length (happened_of (happened_on past hs)) →
        (next : AllDoing) → IsThen doing e.session (Resting left) next → Core Needs since start mode (Entered e ∷ happened_on past hs) connections (text_of mode e) next }
    ensures alone { (first : Image) (past : Past) (connections : Connections) (image : Image) (doing : AllDoing) → CoreAlone Needs first past connections image doing →
        (e : Entry) (left : Option Op) → doing e.session ≡ Working e.command left → EndsNone e.command → (live : List ℕ) → AreTheLive live doing → (op : Op) → IsOpFor e.command image op → next_operation image < 2 ^ 63 →
        (hs : List Happening) → Begins live op (Err (begin.Tried e.operation)) image hs → e.reply ≡ Some reply.Fault →
        (next : AllDoing) → IsThen doing e.session (Resting left) next → CoreAlone Needs first (record { entry = e; before = meaning image } ∷ past) connections (after_all image hs) next }
{}

/// Nothing of its operation was tried, whatever was undone before: the entry `fault` names none.
pub fn fault_before_it()
    ensures on_trail { (since : ℕ) (start : Image) (mode : Mode) (past : Timeline) (connections : Connections) (doing : AllDoing) → Core Needs since start mode past connections [] doing →
        (e : Entry) (left : Option Op) → doing e.session ≡ Working e.command left → e.moment ≡ since + length (happened_of past) → (next : AllDoing) → IsThen doing e.session (Resting left) next → e.operation ≡ 0 →
        EndsNone e.command → e.reply ≡ Some reply.Fault → Core Needs since start mode (Entered e ∷ past) connections (text_of mode e) next }
    ensures alone { (first : Image) (past : Past) (connections : Connections) (image : Image) (doing : AllDoing) → CoreAlone Needs first past connections image doing →
        (e : Entry) (left : Option Op) → doing e.session ≡ Working e.command left → (next : AllDoing) → IsThen doing e.session (Resting left) next → e.operation ≡ 0 →
        EndsNone e.command → e.reply ≡ Some reply.Fault → CoreAlone Needs first (record { entry = e; before = meaning image } ∷ past) connections image next }
{}

/// So for want of memory.
pub fn memory_before_it()
    ensures on_trail { (since : ℕ) (start : Image) (mode : Mode) (past : Timeline) (connections : Connections) (doing : AllDoing) → Core Needs since start mode past connections [] doing →
        (e : Entry) (left : Option Op) → doing e.session ≡ Working e.command left → e.moment ≡ since + length (happened_of past) → (next : AllDoing) → IsThen doing e.session (Resting left) next → e.operation ≡ 0 →
        IsOneOperation e.command → e.reply ≡ Some reply.Memory → Core Needs since start mode (Entered e ∷ past) connections (text_of mode e) next }
    ensures alone { (first : Image) (past : Past) (connections : Connections) (image : Image) (doing : AllDoing) → CoreAlone Needs first past connections image doing →
        (e : Entry) (left : Option Op) → doing e.session ≡ Working e.command left → (next : AllDoing) → IsThen doing e.session (Resting left) next → e.operation ≡ 0 →
        IsOneOperation e.command → e.reply ≡ Some reply.Memory → CoreAlone Needs first (record { entry = e; before = meaning image } ∷ past) connections image next }
{}

/// The live operation of least number in its way is another session's: the entry `pending` says its number, for each command that asks for no job and isn't refused. Over contents alone that this number isn't 0 is asked; each operation that begins has one from 1 on.
pub fn pending_answers()
    ensures on_trail { (since : ℕ) (start : Image) (mode : Mode) (past : Timeline) (connections : Connections) (doing : AllDoing) → Core Needs since start mode past connections [] doing →
        (live : List ℕ) → AreTheLive live doing → (reach : Reach) (other : Op) → way.IsLeastInWay live reach (global (image_of start past)).log other → (e : Entry) (left : Option Op) → doing e.session ≡ Working e.command left →
        e.operation ≡ 0 → e.reply ≡ Some (reply.Pending other.number) → asked_number e.command ≡ None → reach_of_command (with_connections (meaning (image_of start past)) connections) e.command ≡ reach →
        refusal (with_connections (meaning (image_of start past)) connections) e.session e.command ≡ None → e.moment ≡ since + length (happened_of past) →
        (next : AllDoing) → IsThen doing e.session (Resting left) next → Core Needs since start mode (Entered e ∷ past) connections (text_of mode e) next }
    ensures alone { (first : Image) (past : Past) (connections : Connections) (image : Image) (doing : AllDoing) → CoreAlone Needs first past connections image doing →
        (live : List ℕ) → AreTheLive live doing → (reach : Reach) (other : Op) → way.IsLeastInWay live reach (global image).log other → (e : Entry) (left : Option Op) → doing e.session ≡ Working e.command left →
        e.operation ≡ 0 → e.reply ≡ Some (reply.Pending other.number) → (other.number ≡ 0 → ⊥) → asked_number e.command ≡ None → refusal (with_connections (meaning image) connections) e.session e.command ≡ None →
        (next : AllDoing) → IsThen doing e.session (Resting left) next → CoreAlone Needs first (record { entry = e; before = meaning image } ∷ past) connections image next }
    ensures numbered { (live : List ℕ) (op made : Op) (stage : Stage) (image : Image) (hs : List Happening) → Begins live op (Ok (Going made stage)) image hs → Sound image → Lawful image op → next_operation image < 2 ^ 63 → made.number ≡ 0 → ⊥ }
{}

/// No operation number is left: the entry `full` of a command that isn't refused otherwise.
pub fn full_answers()
    ensures on_trail { (since : ℕ) (start : Image) (mode : Mode) (past : Timeline) (connections : Connections) (doing : AllDoing) → Core Needs since start mode past connections [] doing →
        (e : Entry) (left : Option Op) → doing e.session ≡ Working e.command left → e.operation ≡ 0 → e.reply ≡ Some (reply.Refused refused.Full) →
        IsOneOperation e.command → refusal (with_connections (meaning (image_of start past)) connections) e.session e.command ≡ None → next_operation (image_of start past) ≡ 2 ^ 63 → e.moment ≡ since + length (happened_of past) →
        (next : AllDoing) → IsThen doing e.session (Resting left) next → Core Needs since start mode (Entered e ∷ past) connections (text_of mode e) next }
    ensures alone { (first : Image) (past : Past) (connections : Connections) (image : Image) (doing : AllDoing) → CoreAlone Needs first past connections image doing →
        (e : Entry) (left : Option Op) → doing e.session ≡ Working e.command left → e.operation ≡ 0 → e.reply ≡ Some (reply.Refused refused.Full) →
        IsOneOperation e.command → refusal (with_connections (meaning image) connections) e.session e.command ≡ None →
        (next : AllDoing) → IsThen doing e.session (Resting left) next → CoreAlone Needs first (record { entry = e; before = meaning image } ∷ past) connections image next }
{}

/// The fault of an `offline`, at whatever stage: the entry names its operation, and the connections to its mapping have ended, whether it is committed or not.
pub fn offline_fault_names_it()
    ensures on_trail { (since : ℕ) (start : Image) (mode : Mode) (past : Timeline) (connections : Connections) (doing : AllDoing) → Core Needs since start mode past connections [] doing → (e : Entry) (name key : Text) (token : Option Token) →
        (l : Live) → live_of (doing e.session) ≡ Some l → l.command ≡ command.Offline name key token → IsForward l.stage → (result : Result Stage StepFault) (hs : List Happening) → Advances l.op l.stage (IsOk result) (FailsByMemory result) (image_of start past) hs →
        Names e (command.Offline name key token) l.op.number reply.Fault → e.moment ≡ since + length (happened_of (happened_on past hs)) →
        FollowsAtCommit e.session (command.Offline name key token) (image_of start past) l.op connections (ended_under (mapping_of (with_connections (meaning (image_of start past)) connections) name key) connections) →
        (left : Option Op) (next : AllDoing) → IsThen doing e.session (Resting left) next →
        Core Needs since start mode (Entered e ∷ happened_on past hs) (ended_under (mapping_of (with_connections (meaning (image_of start past)) connections) name key) connections) (text_of mode e) next }
    ensures alone { (first : Image) (past : Past) (connections : Connections) (image : Image) (doing : AllDoing) → CoreAlone Needs first past connections image doing → (e : Entry) (name key : Text) (token : Option Token) →
        (l : Live) → live_of (doing e.session) ≡ Some l → l.command ≡ command.Offline name key token → IsForward l.stage → (result : Result Stage StepFault) (hs : List Happening) → Advances l.op l.stage (IsOk result) (FailsByMemory result) image hs →
        Names e (command.Offline name key token) l.op.number reply.Fault →
        FollowsAtCommit e.session (command.Offline name key token) image l.op connections (ended_under (mapping_of (with_connections (meaning image) connections) name key) connections) →
        (left : Option Op) (next : AllDoing) → IsThen doing e.session (Resting left) next →
        CoreAlone Needs first (record { entry = e; before = meaning image } ∷ past) (ended_under (mapping_of (with_connections (meaning image) connections) name key) connections) (after_all image hs) next }
{}

/// So where its log row was tried and refused.
pub fn offline_fault_names_its_log_row()
    ensures on_trail { (since : ℕ) (start : Image) (mode : Mode) (past : Timeline) (connections : Connections) (doing : AllDoing) → Core Needs since start mode past connections [] doing → (e : Entry) (name key : Text) (token : Option Token) →
        (left : Option Op) → doing e.session ≡ Working e.command left → e.command ≡ command.Offline name key token → (live : List ℕ) → AreTheLive live doing → (op : Op) → IsOpFor e.command (image_of start past) op → next_operation (image_of start past) < 2 ^ 63 →
        (hs : List Happening) → Begins live op (Err (begin.Tried e.operation)) (image_of start past) hs → e.reply ≡ Some reply.Fault → e.moment ≡ since + length (happened_of (happened_on past hs)) → (next : AllDoing) → IsThen doing e.session (Resting left) next →
        Core Needs since start mode (Entered e ∷ happened_on past hs) (ended_under (mapping_of (with_connections (meaning (image_of start past)) connections) name key) connections) (text_of mode e) next }
    ensures alone { (first : Image) (past : Past) (connections : Connections) (image : Image) (doing : AllDoing) → CoreAlone Needs first past connections image doing → (e : Entry) (name key : Text) (token : Option Token) →
        (left : Option Op) → doing e.session ≡ Working e.command left → e.command ≡ command.Offline name key token → (live : List ℕ) → AreTheLive live doing → (op : Op) → IsOpFor e.command image op → next_operation image < 2 ^ 63 →
        (hs : List Happening) → Begins live op (Err (begin.Tried e.operation)) image hs → e.reply ≡ Some reply.Fault → (next : AllDoing) → IsThen doing e.session (Resting left) next →
        CoreAlone Needs first (record { entry = e; before = meaning image } ∷ past) (ended_under (mapping_of (with_connections (meaning image) connections) name key) connections) (after_all image hs) next }
{}

/// And where nothing of its operation was tried: then no connection has ended.
pub fn offline_fault_before_it()
    ensures on_trail { (since : ℕ) (start : Image) (mode : Mode) (past : Timeline) (connections : Connections) (doing : AllDoing) → Core Needs since start mode past connections [] doing → (e : Entry) (name key : Text) (token : Option Token) →
        (left : Option Op) → doing e.session ≡ Working e.command left → e.command ≡ command.Offline name key token → e.operation ≡ 0 → e.reply ≡ Some reply.Fault → e.moment ≡ since + length (happened_of past) →
        (next : AllDoing) → IsThen doing e.session (Resting left) next → Core Needs since start mode (Entered e ∷ past) connections (text_of mode e) next }
    ensures alone { (first : Image) (past : Past) (connections : Connections) (image : Image) (doing : AllDoing) → CoreAlone Needs first past connections image doing → (e : Entry) (name key : Text) (token : Option Token) →
        (left : Option Op) → doing e.session ≡ Working e.command left → e.command ≡ command.Offline name key token → e.operation ≡ 0 → e.reply ≡ Some reply.Fault →
        (next : AllDoing) → IsThen doing e.session (Resting left) next → CoreAlone Needs first (record { entry = e; before = meaning image } ∷ past) connections image next }
{}
