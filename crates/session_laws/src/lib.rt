//! Laws of a core of several sessions, on definitions alone: what holds between two events, how each thing that a core does keeps it, and what it implies.
//! What a live operation needs of the stores is `Needs`; the lemmas in proofs/ hold for any such predicate.
#![tactic(auto)]

ghost use Rattle.std.specs.Prelude.{◌≡◌, ℕ, ◌+◌, ◌^◌, ◌<◌, ◌≤◌, Bool, true, false, List, [], ◌∷◌, ◌++◌, Option, Some, None, IsTrue};
ghost use Rattle.cell_world.specs.Texts.{Text};
ghost use Rattle.cell_world.specs.Images.{Image, Trail, Global, Shard, Happening, Committed, Wrote, after_one, global};
ghost use Rattle.cell_world.specs.Stores.{Locals};
ghost use Rattle.cell_world.specs.Spelled.{listed};
ghost use Rattle.cell_world.specs.Lawful.{Lawful};
ghost use Rattle.cell_world.specs.Marked.{Marked};
ghost use Rattle.cell_world.specs.declared.cells.Mark.TheVariants.{Old};
ghost use Rattle.cell_world.specs.declared.cells.Cell.TheVariants as cell;
ghost use Rattle.cell_world.specs.declared.changes.Edit.TheVariants.{Put};
ghost use Rattle.cell_world.specs.declared.operations.StageName.TheVariants.{Logged, TargetDone};
ghost use Rattle.plain_model.specs.declared.commands.HighText.{HighText};
ghost use Rattle.plain_model.specs.declared.commands.Command.TheVariants as command;
ghost use Rattle.plain_model.specs.Steps.{plain_step};
ghost use Rattle.cell_world.specs.UnderWay.{IsUnderWay};
ghost use Rattle.cell_world.specs.Plain.{Connections, nobody, with_connections, holds_nothing};
ghost use Rattle.cell_world.specs.Meaning.{meaning, next_operation, next_job};
ghost use Rattle.cell_world.specs.Sound.{Sound, HasLog, IsAttachedIn};
ghost use Rattle.cell_world.specs.Operations.{conflicts, reach_of};
ghost use Rattle.cell_world.specs.declared.operations.Op.{Op};
ghost use Rattle.cell_world.specs.declared.operations.Reach.{Reach};
ghost use Rattle.cell_world.specs.declared.operations.StageName.{StageName};
ghost use Rattle.cell_world.specs.declared.changes.Edit.{Edit};
ghost use Rattle.plain_model.specs.declared.commands.Command.{Command};
ghost use Rattle.plain_model.specs.declared.replies.Reply.{Reply};
ghost use Rattle.plain_model.specs.declared.replies.Reply.TheVariants as reply;
ghost use Rattle.plain_model.specs.declared.history.Entry.{Entry};
ghost use Rattle.plain_model.specs.JobSteps.{asked_number};
ghost use Rattle.plain_model.specs.Timelines.{Timeline, Happened, Entered, image_of, facts_of, happened_of, history_of};
ghost use Rattle.plain_model.specs.OnTrail.{logs_put, IsLeastInWay};
ghost use Rattle.plain_model.specs.Legal.{Going, Promises, PromisesOperation, PromisesJob, MayHappen, IsOwnOf, Legal};
ghost use Rattle.plain_model.specs.GoingOn.{IsOf};
ghost use Rattle.plain_model.specs.Written.{Mode};
ghost use Rattle.plain_model.specs.Running.{text_of};
ghost use Rattle.session_laws.specs.Doing.{Doing, Working, Operating, AllDoing, Live, live_of, command_of, going_of, all_going, IsThen};
ghost use Rattle.session_laws.specs.Contract.{Seen, CoreOn};
ghost use Rattle.plain_model.specs.ByMoments.{RunsByMoments};
ghost use Rattle.session_laws.specs.Needs.{Needs, done_at};
ghost use Rattle.session_laws.specs.Core.{Core, AllStand, OthersStand, IsTriedFor, SameGoing, Quiet, Answers, Leaves};

/// A core begins with sound stores and sessions that rest.
pub fn core_begins()
    ensures { (since : ℕ) (start : Image) (mode : Mode) (doing : AllDoing) → Sound start → ((session : ℕ) → going_of (doing session) ≡ None) →
        Core Needs since start mode [] nobody [] doing }
{}

/// A session takes up a command. No other session has a command of the same job going.
pub fn core_takes_up()
    ensures { (since : ℕ) (start : Image) (mode : Mode) (past : Timeline) (connections : Connections) (rest : Text) (doing : AllDoing) →
        Core Needs since start mode past connections rest doing → (session : ℕ) (c : Command) (left : Option Op) (next : AllDoing) → command_of (doing session) ≡ None → IsThen doing session (Working c left) next →
        ((t : ℕ) (d : Command) (number : ℕ) → (session ≡ t → ⊥) → command_of (doing t) ≡ Some d → asked_number c ≡ Some number → asked_number d ≡ Some number → ⊥) →
        Core Needs since start mode past connections rest next }
{}

/// Something happens that tries no log cell and leaves the meaning: a local step, an undo, a settling, a failed commit, a reopening that brings the same.
pub fn core_goes_on()
    ensures { (since : ℕ) (start : Image) (mode : Mode) (past : Timeline) (connections : Connections) (rest : Text) (doing : AllDoing) →
        Core Needs since start mode past connections rest doing → (h : Happening) (next : AllDoing) → SameGoing doing next → Quiet start past h →
        meaning (after_one (image_of start past) h) ≡ meaning (image_of start past) → AllStand Needs next (after_one (image_of start past) h) → Core Needs since start mode (Happened h ∷ past) connections rest next }
{}

/// A part of what is to be written is written.
pub fn core_writes()
    ensures { (since : ℕ) (start : Image) (mode : Mode) (past : Timeline) (connections : Connections) (rest : Text) (doing : AllDoing) →
        Core Needs since start mode past connections rest doing → (part more : Text) → part ++ more ≡ rest → Core Needs since start mode (Happened (Wrote part) ∷ past) connections more doing }
{}

/// An operation of a session's command is logged.
pub fn core_logs()
    ensures { (since : ℕ) (start : Image) (mode : Mode) (past : Timeline) (connections : Connections) (rest : Text) (doing : AllDoing) →
        Core Needs since start mode past connections rest doing → (session : ℕ) (c : Command) (op : Op) (stage : StageName) (next : AllDoing) (g : Going) → going_of (doing session) ≡ Some g → g.command ≡ c → g.operation ≡ 0 →
        IsThen doing session (Operating c op stage) next → (change : List Edit) → logs_put change ≡ op ∷ [] → MayHappen start past (Committed Global change true) →
        Sound (after_one (image_of start past) (Committed Global change true)) → meaning (after_one (image_of start past) (Committed Global change true)) ≡ meaning (image_of start past) →
        IsTriedFor (asked_number c) (image_of start past) op → AllStand Needs next (after_one (image_of start past) (Committed Global change true)) →
        Core Needs since start mode (Happened (Committed Global change true) ∷ past) connections rest next }
{}

/// A session's command is answered, alone: refused, answered, `pending`, `full`, `memory`, or a fault in which nothing was committed.
pub fn core_answers()
    ensures { (since : ℕ) (start : Image) (mode : Mode) (past : Timeline) (connections : Connections) (rest : Text) (doing : AllDoing) →
        Core Needs since start mode past connections rest doing → (e : Entry) (g : Going) → going_of (doing e.session) ≡ Some g → IsOf g e → (d : Doing) (next : AllDoing) → IsThen doing e.session d next → Leaves e d →
        Promises (all_going next) e [] e.reply → (e.reply ≡ Some (reply.Pending 0) → ⊥) → (after : Connections) (r : Reply) → rest ≡ [] → e.reply ≡ Some r → Answers since start past e connections after →
        Core Needs since start mode (Entered e ∷ past) after (text_of mode e) next }
{}

/// What happened last is followed at once by its entry: the commit of an operation, a short command, a step of a job, a failed call that was made.
pub fn core_commits()
    ensures answered { (since : ℕ) (start : Image) (mode : Mode) (past : Timeline) (connections : Connections) (rest : Text) (doing : AllDoing) →
        Core Needs since start mode past connections rest doing → (e : Entry) (g : Going) → going_of (doing e.session) ≡ Some g → IsOf g e → (d : Doing) (next : AllDoing) → IsThen doing e.session d next → Leaves e d →
        Promises (all_going next) e [] e.reply → (e.reply ≡ Some (reply.Pending 0) → ⊥) → (after : Connections) (h : Happening) → Quiet start past h → OthersStand Needs doing e.session (after_one (image_of start past) h) →
        Answers since start (Happened h ∷ past) e connections after → (r : Reply) → rest ≡ [] → e.reply ≡ Some r →
        Core Needs since start mode (Entered e ∷ Happened h ∷ past) after (text_of mode e) next }
    ensures job_step { (since : ℕ) (start : Image) (mode : Mode) (past : Timeline) (connections : Connections) (rest : Text) (doing : AllDoing) →
        Core Needs since start mode past connections rest doing → (e : Entry) (g : Going) → going_of (doing e.session) ≡ Some g → IsOf g e → (d : Doing) (next : AllDoing) → IsThen doing e.session d next → Leaves e d →
        Promises (all_going next) e [] e.reply → (e.reply ≡ Some (reply.Pending 0) → ⊥) → (after : Connections) (h : Happening) → Quiet start past h → OthersStand Needs doing e.session (after_one (image_of start past) h) →
        Answers since start (Happened h ∷ past) e connections after → e.reply ≡ None →
        Core Needs since start mode (Entered e ∷ Happened h ∷ past) after rest next }
{}

/// The commit of a log cell failed, made or not, and the entry names its number at once.
pub fn core_fails_to_log()
    ensures { (since : ℕ) (start : Image) (mode : Mode) (past : Timeline) (connections : Connections) (rest : Text) (doing : AllDoing) →
        Core Needs since start mode past connections rest doing → (c : Command) (op : Op) (change : List Edit) (took : Bool) (e : Entry) → going_of (doing e.session) ≡ Some (record { command = c; operation = 0 }) → logs_put change ≡ op ∷ [] →
        IsTriedFor (asked_number c) (image_of start past) op → (asked_number c ≡ None → IsOwnOf (with_connections (facts_of start past) connections) c None start op) →
        MayHappen start past (Committed Global change took) → Sound (after_one (image_of start past) (Committed Global change took)) → OthersStand Needs doing e.session (after_one (image_of start past) (Committed Global change took)) →
        (d : Doing) (next : AllDoing) (after : Connections) (r : Reply) → rest ≡ [] → e.reply ≡ Some r → IsOf (record { command = c; operation = op.number }) e → IsThen doing e.session d next → Leaves e d →
        Promises (all_going next) e [] e.reply → (e.reply ≡ Some (reply.Pending 0) → ⊥) → Answers since start (Happened (Committed Global change took) ∷ past) e connections after →
        Core Needs since start mode (Entered e ∷ Happened (Committed Global change took) ∷ past) after (text_of mode e) next }
{}

/// What `pending` and `job-running` say holds where another session's live operation, or its job, is the cause.
pub fn core_keeps_promises()
    ensures pending { (since : ℕ) (start : Image) (mode : Mode) (past : Timeline) (connections : Connections) (rest : Text) (doing : AllDoing) →
        Core Needs since start mode past connections rest doing → (e : Entry) (next : AllDoing) (reached : Reach) (t : ℕ) (l : Live) → (e.session ≡ t → ⊥) → next t ≡ doing t → live_of (doing t) ≡ Some l → IsTrue (conflicts reached l.op) →
        ((u : ℕ) (m : Live) → live_of (doing u) ≡ Some m → IsTrue (conflicts reached m.op) → l.op.number ≤ m.op.number) →
        IsLeastInWay start past reached l.op.number × PromisesOperation (all_going next) e [] l.op.number }
    ensures running { (since : ℕ) (start : Image) (mode : Mode) (past : Timeline) (connections : Connections) (rest : Text) (doing : AllDoing) →
        Core Needs since start mode past connections rest doing → (e : Entry) (next : AllDoing) (t : ℕ) (c : Command) (number : ℕ) → (e.session ≡ t → ⊥) → next t ≡ doing t → command_of (doing t) ≡ Some c →
        asked_number c ≡ Some number → asked_number e.command ≡ Some number → PromisesJob (all_going next) e [] }
{}

/// Wherever the run ends, its history is legal with what is going then.
pub fn core_is_legal()
    ensures { (since : ℕ) (start : Image) (mode : Mode) (past : Timeline) (connections : Connections) (rest : Text) (doing : AllDoing) →
        Core Needs since start mode past connections rest doing → Legal since (record { start = start; happened = happened_of past }) (all_going doing) (history_of past) }
{}

/// A core on its trail: at each moment the stores are sound, the history is legal with what is going now, and only what happened is written.
pub fn core_runs_at_each_moment()
    ensures { (mode : Mode) (t0 : ℕ) (start : Image) (trail : Trail) (seen : Seen) (rest : Text) → CoreOn mode t0 start trail seen rest → RunsByMoments mode trail t0 (all_going seen.doing) seen.history }
{}
