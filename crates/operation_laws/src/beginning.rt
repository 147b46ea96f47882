//! A session's operation begins, or another one is in its way, or its beginning fails.
ghost use Rattle.std.specs.Prelude.{◌≡◌, ◌<◌, ◌^◌, ℕ, false, List, [], ◌∷◌, Option, Some, None, Ok, Err};
ghost use Rattle.cell_world.specs.Texts.{Text};
ghost use Rattle.cell_world.specs.Images.{Image, Happening, after_all, global};
ghost use Rattle.cell_world.specs.Plain.{Connections, with_connections};
ghost use Rattle.cell_world.specs.Meaning.{meaning, next_operation};
ghost use Rattle.cell_world.specs.Operations.{conflicts};
ghost use Rattle.cell_world.specs.Sound.{HasLog};
ghost use Rattle.cell_world.specs.declared.operations.Op.{Op};
ghost use Rattle.cell_world.specs.declared.operations.Reach.{Reach};
ghost use Rattle.cell_world.specs.declared.operations.StageName.{StageName};
ghost use Rattle.cell_world.specs.declared.operations.StageName.TheVariants.{Logged};
ghost use Rattle.plain_model.specs.declared.commands.Command.{Command};
ghost use Rattle.plain_model.specs.declared.replies.Reply.{Reply};
ghost use Rattle.plain_model.specs.declared.replies.Reply.TheVariants as reply;
ghost use Rattle.plain_model.specs.declared.history.Entry.{Entry};
ghost use Rattle.plain_model.specs.Follows.{Follows};
ghost use Rattle.plain_model.specs.Timelines.{Timeline, Past, Entered, image_of};
ghost use Rattle.plain_model.specs.OnTrail as trail;
ghost use Rattle.plain_model.specs.Legal.{Promises, PromisesOperation};
ghost use Rattle.plain_model.specs.GoingOn.{IsOf};
ghost use Rattle.plain_model.specs.Written.{Mode};
ghost use Rattle.plain_model.specs.Running.{text_of};
ghost use Rattle.session_laws.specs.Doing.{Doing, Working, Operating, AllDoing, live_of, all_going, IsThen};
ghost use Rattle.session_laws.specs.Core.{Core, CoreAlone, Answers, Leaves};
ghost use Rattle.session_laws.specs.Needs.{Needs};
ghost use Rattle.op_steps.specs.declared.stages.Stage.{Stage};
ghost use Rattle.op_steps.specs.declared.beginning.BeginFault.TheVariants as begin;
ghost use Rattle.op_steps.specs.declared.beginning.Begun.TheVariants.{Going};
ghost use Rattle.op_steps.specs.Beginning.{Begins};
ghost use Rattle.op_steps.specs.Clearing as way;
ghost use Rattle.op_steps.specs.Clearing.{Clears};
ghost use Rattle.operation_laws.specs.Courses.{happened_on};
ghost use Rattle.operation_laws.specs.LiveNumbers.{AreTheLive, AreGiven};
ghost use Rattle.operation_laws.specs.Planned.{IsOpFor};

/// The operation of a command that is going has begun: the session has it live, at its first stage.
pub fn operation_begins()
    ensures on_trail { (since : ℕ) (start : Image) (mode : Mode) (past : Timeline) (connections : Connections) (rest : Text) (doing : AllDoing) → Core Needs since start mode past connections rest doing →
        (session : ℕ) (c : Command) (left : Option Op) → doing session ≡ Working c left → (live : List ℕ) → AreTheLive live doing → (op : Op) → IsOpFor c (image_of start past) op → next_operation (image_of start past) < 2 ^ 63 →
        (made : Op) (stage : Stage) (hs : List Happening) → Begins live op (Ok (Going made stage)) (image_of start past) hs → (next : AllDoing) → IsThen doing session (Operating c made Logged) next →
        Core Needs since start mode (happened_on past hs) connections rest next }
    ensures alone { (first : Image) (past : Past) (connections : Connections) (image : Image) (doing : AllDoing) → CoreAlone Needs first past connections image doing →
        (session : ℕ) (c : Command) (left : Option Op) → doing session ≡ Working c left → (live : List ℕ) → AreTheLive live doing → (op : Op) → IsOpFor c image op → next_operation image < 2 ^ 63 →
        (made : Op) (stage : Stage) (hs : List Happening) → Begins live op (Ok (Going made stage)) image hs → (next : AllDoing) → IsThen doing session (Operating c made Logged) next →
        CoreAlone Needs first past connections (after_all image hs) next }
{}

/// The log row of a command's operation was tried and refused, made or not, and the entry that names its number follows at once.
pub fn operation_fails_to_begin()
    ensures on_trail { (since : ℕ) (start : Image) (mode : Mode) (past : Timeline) (connections : Connections) (doing : AllDoing) → Core Needs since start mode past connections [] doing →
        (e : Entry) (left : Option Op) → doing e.session ≡ Working e.command left → (live : List ℕ) → AreTheLive live doing → (op : Op) → IsOpFor e.command (image_of start past) op → next_operation (image_of start past) < 2 ^ 63 →
        (hs : List Happening) → Begins live op (Err (begin.Tried e.operation)) (image_of start past) hs → (d : Doing) (next : AllDoing) → IsThen doing e.session d next → Leaves e d →
        (r : Reply) → e.reply ≡ Some r → IsOf (record { command = e.command; operation = e.operation }) e → Promises (all_going next) e [] e.reply → (e.reply ≡ Some (reply.Pending 0) → ⊥) →
        (after : Connections) → Answers since start (happened_on past hs) e connections after → Core Needs since start mode (Entered e ∷ happened_on past hs) after (text_of mode e) next }
    ensures alone { (first : Image) (past : Past) (connections : Connections) (image : Image) (doing : AllDoing) → CoreAlone Needs first past connections image doing →
        (e : Entry) (left : Option Op) → doing e.session ≡ Working e.command left → (live : List ℕ) → AreTheLive live doing → (op : Op) → IsOpFor e.command image op → next_operation image < 2 ^ 63 →
        (hs : List Happening) → Begins live op (Err (begin.Tried e.operation)) image hs → (d : Doing) (next : AllDoing) → IsThen doing e.session d next → Leaves e d →
        IsOf (record { command = e.command; operation = e.operation }) e → Promises (all_going next) e [] e.reply → (e.reply ≡ Some (reply.Pending 0) → ⊥) →
        (after : Connections) → Follows past (with_connections (meaning image) connections) e (with_connections (meaning (after_all image hs)) after) e.reply →
        CoreAlone Needs first (record { entry = e; before = meaning image } ∷ past) after (after_all image hs) next }
{}

/// A live operation of another session is in the way: what `pending` says of it holds, of the trail and of later entries. The session that is answered has none live.
pub fn pending_is_named()
    ensures on_trail { (since : ℕ) (start : Image) (mode : Mode) (past : Timeline) (connections : Connections) (rest : Text) (doing : AllDoing) → Core Needs since start mode past connections rest doing →
        (live : List ℕ) → AreTheLive live doing → (reach : Reach) (other : Op) → way.IsLeastInWay live reach (global (image_of start past)).log other →
        (e : Entry) (next : AllDoing) → live_of (doing e.session) ≡ None → ((t : ℕ) → (e.session ≡ t → ⊥) → next t ≡ doing t) →
        trail.IsLeastInWay start past reach other.number × PromisesOperation (all_going next) e [] other.number }
    ensures alone { (first : Image) (past : Past) (connections : Connections) (image : Image) (doing : AllDoing) → CoreAlone Needs first past connections image doing →
        (live : List ℕ) → AreTheLive live doing → (reach : Reach) (other : Op) → way.IsLeastInWay live reach (global image).log other →
        (e : Entry) (next : AllDoing) → live_of (doing e.session) ≡ None → ((t : ℕ) → (e.session ≡ t → ⊥) → next t ≡ doing t) → PromisesOperation (all_going next) e [] other.number }
{}

/// The way of a short command is cleared: the core goes on, and no logged operation conflicts with what the command reaches.
pub fn way_is_cleared()
    ensures on_trail { (since : ℕ) (start : Image) (mode : Mode) (past : Timeline) (connections : Connections) (rest : Text) (doing : AllDoing) → Core Needs since start mode past connections rest doing →
        (live : List ℕ) → AreTheLive live doing → (reach : Reach) (hs : List Happening) → Clears live reach (Ok None) (image_of start past) hs →
        Core Needs since start mode (happened_on past hs) connections rest doing × ((op : Op) → HasLog (global (image_of start (happened_on past hs))).log op → conflicts reach op ≡ false) }
    ensures alone { (first : Image) (past : Past) (connections : Connections) (image : Image) (doing : AllDoing) → CoreAlone Needs first past connections image doing →
        (live : List ℕ) → AreTheLive live doing → (reach : Reach) (hs : List Happening) → Clears live reach (Ok None) image hs →
        CoreAlone Needs first past connections (after_all image hs) doing × ((op : Op) → HasLog (global (after_all image hs)).log op → conflicts reach op ≡ false) }
{}

/// Each live operation has a number from 1 on, as an operation that begins has: it stays so, whatever a session does next.
pub fn numbers_are_given()
    ensures first { (doing : AllDoing) → ((session : ℕ) → live_of (doing session) ≡ None) → AreGiven doing }
    ensures operating { (doing : AllDoing) → AreGiven doing → (session : ℕ) (c : Command) (op : Op) (stage : StageName) → (op.number ≡ 0 → ⊥) → (next : AllDoing) → IsThen doing session (Operating c op stage) next → AreGiven next }
    ensures idle { (doing : AllDoing) → AreGiven doing → (session : ℕ) (d : Doing) → live_of d ≡ None → (next : AllDoing) → IsThen doing session d next → AreGiven next }
{}
