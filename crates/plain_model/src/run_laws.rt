//! Laws of a run: how the run so far goes on, and what follows from it at each moment. Each is the contract of a function that does nothing.
ghost use Rattle.std.specs.Prelude.{true, ◌≡◌, ◌↔◌, ◌≤◌, ◌+◌, ◌++◌, ◌∷◌, [], ℕ, Bool, List, length, Some, None, drop, take, slice_get};
ghost use Rattle.cell_world.specs.Texts.{Text};
ghost use Rattle.cell_world.specs.Stores.{Store};
ghost use Rattle.cell_world.specs.declared.operations.Op.{Op};
ghost use Rattle.cell_world.specs.declared.changes.Edit.{Edit};
ghost use Rattle.cell_world.specs.Images.{Image, Global, Shard, Committed, Reopened, Trail, Happening, Wrote, after_one, image_at, end_of_trail, extended};
ghost use Rattle.cell_world.specs.Plain.{PlainState, Connections, nobody, with_connections};
ghost use Rattle.cell_world.specs.Meaning.{meaning};
ghost use Rattle.cell_world.specs.Sound.{Sound};
ghost use Rattle.plain_model.specs.declared.replies.Reply.{Reply};
ghost use Rattle.plain_model.specs.declared.replies.Reply.TheVariants as reply;
ghost use Rattle.plain_model.specs.declared.history.Entry.{Entry};
ghost use Rattle.plain_model.specs.Timelines.{Timeline, Happened, Entered, image_of, happened_of, history_of, written_of, Past, past_of};
ghost use Rattle.plain_model.specs.Near.{Near};
ghost use Rattle.plain_model.specs.Follows.{Follows};
ghost use Rattle.plain_model.specs.OnTrail.{reach_of_command, logs_put, is_open, InLog, NoneOwed};
ghost use Rattle.plain_model.specs.Legal.{Going, AllGoing, Promises, KeepsPromises, AreNamed, Legal, IsAtRest, Unfolds, MayHappen, MayEnter};
ghost use Rattle.plain_model.specs.GoingOn.{GoesOn, TakesUp, NamesOperations, TriesNumbered};
ghost use Rattle.plain_model.specs.Written.{Mode, EachReply, Summary, summary, all_lines, IsPrefixOf, WrittenSoFar, WasWritten, WrittenByMoments, AllWritten, last_moment};
ghost use Rattle.plain_model.specs.ByMoments.{LegalByMoments, TrailByMoments, IsLeastInWayAt, RunsByMoments, from_moment, timeline_at, standing};
ghost use Rattle.plain_model.specs.Running.{AllSound, Running, Owing, Recovering, bytes_of, text_of};
ghost use Rattle.plain_model.specs.RunningAlone.{RunningAlone, entries_of};
ghost use Rattle.plain_model.specs.Headline.{FollowsTo};

// ---- how the run so far goes on

/// A run begins with stores that are sound, and with nothing to write.
pub fn run_begins()
    ensures { (since : ℕ) (start : Image) (mode : Mode) → Sound start → Owing since start mode [] nobody [] }
{}

/// What happens may leave what the stores stand for: a stage, a mark, a settling, a reopening. Then the run goes on, and what is still to be written stays.
pub fn run_goes_on()
    ensures happened { (since : ℕ) (start : Image) (mode : Mode) (past : Timeline) (connections : Connections) (rest : Text) (h : Happening) → Owing since start mode past connections rest →
        bytes_of h ≡ [] → MayHappen start past h → Sound (after_one (image_of start past) h) → meaning (after_one (image_of start past) h) ≡ meaning (image_of start past) →
        NoneOwed start (Happened h ∷ past) → Owing since start mode (Happened h ∷ past) connections rest }
    ensures whatever_is_written { (since : ℕ) (start : Image) (mode : Mode) (past : Timeline) (connections : Connections) (h : Happening) → Running since start mode past connections →
        MayHappen start past h → Sound (after_one (image_of start past) h) → meaning (after_one (image_of start past) h) ≡ meaning (image_of start past) →
        NoneOwed start (Happened h ∷ past) → WrittenSoFar mode (Happened h ∷ past) → Running since start mode (Happened h ∷ past) connections }
{}

/// No entry is owed at first, after what writes, opens a shard again or changes a shard, after a log cell is put, and after a commit that leaves the log cells that are open; nor after the entry of an operation.
pub fn none_is_owed()
    ensures at_first { (start : Image) → NoneOwed start [] }
    ensures written { (start : Image) (past : Timeline) (bytes : Text) → NoneOwed start past → NoneOwed start (Happened (Wrote bytes) ∷ past) }
    ensures reopened { (start : Image) (past : Timeline) (location : Text) (cells : Store) → NoneOwed start past → NoneOwed start (Happened (Reopened (Shard location) cells) ∷ past) }
    ensures local { (start : Image) (past : Timeline) (location : Text) (change : List Edit) (took : Bool) → logs_put change ≡ [] → NoneOwed start past → NoneOwed start (Happened (Committed (Shard location) change took) ∷ past) }
    ensures kept { (start : Image) (past : Timeline) (change : List Edit) (took : Bool) → logs_put change ≡ [] →
        ((number : ℕ) → is_open number past ≡ true → InLog (after_one (image_of start past) (Committed Global change took)) number) → NoneOwed start (Happened (Committed Global change took) ∷ past) }
    ensures logged { (start : Image) (past : Timeline) (change : List Edit) (op : Op) → logs_put change ≡ op ∷ [] → InLog (after_one (image_of start past) (Committed Global change true)) op.number →
        ((number : ℕ) → is_open number past ≡ true → InLog (after_one (image_of start past) (Committed Global change true)) number) → NoneOwed start (Happened (Committed Global change true) ∷ past) }
    ensures entered { (start : Image) (past : Timeline) (e : Entry) → NoneOwed start past → NoneOwed start (Entered e ∷ past) }
    ensures committed { (start : Image) (past : Timeline) (change : List Edit) (took : Bool) (e : Entry) → logs_put change ≡ [] →
        ((number : ℕ) → is_open number past ≡ true → (e.operation ≡ number → ⊥) → InLog (after_one (image_of start past) (Committed Global change took)) number) →
        NoneOwed start (Entered e ∷ Happened (Committed Global change took) ∷ past) }
    ensures tried { (start : Image) (past : Timeline) (change : List Edit) (took : Bool) (op : Op) (e : Entry) → logs_put change ≡ op ∷ [] → e.operation ≡ op.number →
        ((number : ℕ) → is_open number past ≡ true → (e.operation ≡ number → ⊥) → InLog (after_one (image_of start past) (Committed Global change took)) number) →
        NoneOwed start (Entered e ∷ Happened (Committed Global change took) ∷ past) }
{}

/// An entry may come: alone, or with the commit that it stands for. With a reply it comes once all is written, and its text is then to be written.
pub fn run_enters()
    ensures answered { (since : ℕ) (start : Image) (mode : Mode) (past : Timeline) (before after : Connections) (e : Entry) (reply : Reply) → Owing since start mode past before [] →
        e.reply ≡ Some reply → MayEnter since start past e before after → Owing since start mode (Entered e ∷ past) after (text_of mode e) }
    ensures unanswered { (since : ℕ) (start : Image) (mode : Mode) (past : Timeline) (before after : Connections) (rest : Text) (e : Entry) → Owing since start mode past before rest →
        e.reply ≡ None → MayEnter since start past e before after → Owing since start mode (Entered e ∷ past) after rest }
    ensures committed { (since : ℕ) (start : Image) (mode : Mode) (past : Timeline) (before after : Connections) (h : Happening) (e : Entry) (reply : Reply) → Owing since start mode past before [] →
        bytes_of h ≡ [] → e.reply ≡ Some reply → MayHappen start past h → Sound (after_one (image_of start past) h) → MayEnter since start (Happened h ∷ past) e before after →
        Owing since start mode (Entered e ∷ Happened h ∷ past) after (text_of mode e) }
    ensures job_step { (since : ℕ) (start : Image) (mode : Mode) (past : Timeline) (before after : Connections) (rest : Text) (h : Happening) (e : Entry) → Owing since start mode past before rest →
        bytes_of h ≡ [] → e.reply ≡ None → MayHappen start past h → Sound (after_one (image_of start past) h) → MayEnter since start (Happened h ∷ past) e before after →
        Owing since start mode (Entered e ∷ Happened h ∷ past) after rest }
{}

/// Inside `attach` and `clear` the stores stand for the state of the latest entry up to near; with the entry they stand exactly for its state.
pub fn run_recovers()
    ensures from { (since : ℕ) (start : Image) (mode : Mode) (past : Timeline) (connections : Connections) (rest : Text) → Owing since start mode past connections rest →
        Recovering since start mode past connections rest }
    ensures happened { (since : ℕ) (start : Image) (mode : Mode) (past : Timeline) (connections : Connections) (rest : Text) (h : Happening) → Recovering since start mode past connections rest →
        bytes_of h ≡ [] → MayHappen start past h → Sound (after_one (image_of start past) h) → IsAtRest start (Happened h ∷ past) → NoneOwed start (Happened h ∷ past) → Recovering since start mode (Happened h ∷ past) connections rest }
    ensures answered { (since : ℕ) (start : Image) (mode : Mode) (past : Timeline) (before after : Connections) (e : Entry) (reply : Reply) → Recovering since start mode past before [] →
        e.reply ≡ Some reply → MayEnter since start past e before after → Owing since start mode (Entered e ∷ past) after (text_of mode e) }
    ensures committed { (since : ℕ) (start : Image) (mode : Mode) (past : Timeline) (before after : Connections) (h : Happening) (e : Entry) (reply : Reply) → Recovering since start mode past before [] →
        bytes_of h ≡ [] → e.reply ≡ Some reply → MayHappen start past h → Sound (after_one (image_of start past) h) → MayEnter since start (Happened h ∷ past) e before after →
        Owing since start mode (Entered e ∷ Happened h ∷ past) after (text_of mode e) }
{}

/// Near is an equivalence.
pub fn near_is_an_equivalence()
    ensures itself { (a : PlainState) → Near a a }
    ensures back { (a b : PlainState) → Near a b → Near b a }
    ensures on { (a b c : PlainState) → Near a b → Near b c → Near a c }
{}

/// What is to be written may be written at once or in parts, and so may the summary.
pub fn run_writes()
    ensures all { (since : ℕ) (start : Image) (mode : Mode) (past : Timeline) (connections : Connections) (rest : Text) → Owing since start mode past connections rest →
        Owing since start mode (Happened (Wrote rest) ∷ past) connections [] }
    ensures part { (since : ℕ) (start : Image) (mode : Mode) (past : Timeline) (connections : Connections) (part rest : Text) → Owing since start mode past connections (part ++ rest) →
        Owing since start mode (Happened (Wrote part) ∷ past) connections rest }
    ensures front { (since : ℕ) (start : Image) (mode : Mode) (past : Timeline) (connections : Connections) (n : ℕ) (rest : Text) → Owing since start mode past connections rest →
        Owing since start mode (Happened (Wrote (take n rest)) ∷ past) connections (drop n rest) }
    ensures summary { (since : ℕ) (start : Image) (past : Timeline) (connections : Connections) (part : Text) → Running since start Summary past connections →
        IsPrefixOf (written_of past ++ part) (summary (history_of past)) → Running since start Summary (Happened (Wrote part) ∷ past) connections }
    ensures summary_front { (since : ℕ) (start : Image) (past : Timeline) (connections : Connections) (n : ℕ) → Owing since start Summary past connections [] →
        Running since start Summary (Happened (Wrote (take n (summary (history_of past)))) ∷ past) connections }
{}

// ---- what follows from it at each moment

/// From the run so far: at each moment the stores are sound, the history is legal, and only what happened is written.
pub fn runs_at_each_moment()
    ensures { (mode : Mode) (trail : Trail) (t0 : ℕ) (going : AllGoing) (past : Timeline) (connections : Connections) → t0 ≤ end_of_trail trail → happened_of past ≡ drop t0 trail.happened →
        Running t0 (image_at trail t0) mode past connections → KeepsPromises going (history_of past) → AreNamed going past [] → RunsByMoments mode trail t0 going (history_of past) }
{}

/// All is written at the end where nothing is left to write, or where the summary was written.
pub fn all_is_written()
    ensures each_reply { (tagged : Bool) (trail : Trail) (t0 : ℕ) (past : Timeline) (connections : Connections) → t0 ≤ end_of_trail trail → happened_of past ≡ drop t0 trail.happened →
        Owing t0 (image_at trail t0) (EachReply tagged) past connections [] → AllWritten (EachReply tagged) trail t0 (history_of past) }
    ensures summary { (trail : Trail) (t0 : ℕ) (past : Timeline) (connections : Connections) → t0 ≤ end_of_trail trail → happened_of (Happened (Wrote (summary (history_of past))) ∷ past) ≡ drop t0 trail.happened →
        Owing t0 (image_at trail t0) Summary past connections [] → AllWritten Summary trail t0 (history_of past) }
    ensures in_parts { (mode : Mode) (trail : Trail) (t0 : ℕ) (past : Timeline) → t0 ≤ end_of_trail trail → happened_of past ≡ drop t0 trail.happened →
        written_of past ≡ all_lines mode (history_of past) → AllWritten mode trail t0 (history_of past) }
{}

/// What happened since the run began is the rest of the trail: the moment that is now is its end, the stores are its last image, and it goes on as the trail does.
pub fn runs_on_its_trail()
    ensures moment { (trail : Trail) (t0 : ℕ) (past : Timeline) → t0 ≤ end_of_trail trail → happened_of past ≡ drop t0 trail.happened → t0 + length (happened_of past) ≡ end_of_trail trail }
    ensures image { (trail : Trail) (t0 : ℕ) (past : Timeline) → t0 ≤ end_of_trail trail → happened_of past ≡ drop t0 trail.happened → image_of (image_at trail t0) past ≡ image_at trail (end_of_trail trail) }
    ensures grows { (trail : Trail) (t0 : ℕ) (past : Timeline) (h : Happening) → t0 ≤ end_of_trail trail → happened_of past ≡ drop t0 trail.happened →
        happened_of (Happened h ∷ past) ≡ drop t0 (extended trail h).happened }
{}

// ---- the order in which all came, and the moments

/// What is legal in some order is legal at each moment, and the other way round. There is but one such order.
pub fn moments_tell_the_order()
    ensures at_moments { (trail : Trail) (t0 : ℕ) (going : AllGoing) (history : List Entry) → t0 ≤ end_of_trail trail → Legal t0 (from_moment trail t0) going history → LegalByMoments trail t0 going history }
    ensures in_order { (trail : Trail) (t0 : ℕ) (going : AllGoing) (history : List Entry) → t0 ≤ end_of_trail trail → LegalByMoments trail t0 going history → Legal t0 (from_moment trail t0) going history }
    ensures one { (trail : Trail) (t0 : ℕ) (going : AllGoing) (history : List Entry) → t0 ≤ end_of_trail trail → (legal : Legal t0 (from_moment trail t0) going history) →
        legal.timeline ≡ timeline_at trail t0 history (end_of_trail trail) }
{}

/// So it is with what is written.
pub fn moments_tell_what_is_written()
    ensures before { (mode : Mode) (trail : Trail) (t0 : ℕ) (going : AllGoing) (history : List Entry) → t0 ≤ end_of_trail trail → (legal : Legal t0 (from_moment trail t0) going history) →
        WrittenByMoments mode trail t0 history → WasWritten mode legal.timeline }
    ensures now { (mode : Mode) (trail : Trail) (t0 : ℕ) (going : AllGoing) (history : List Entry) → t0 ≤ end_of_trail trail → (legal : Legal t0 (from_moment trail t0) going history) →
        WrittenByMoments mode trail t0 history → WrittenSoFar mode legal.timeline }
    ensures at_moments { (mode : Mode) (trail : Trail) (t0 : ℕ) (going : AllGoing) (history : List Entry) → t0 ≤ end_of_trail trail → (legal : Legal t0 (from_moment trail t0) going history) →
        WasWritten mode legal.timeline → WrittenSoFar mode legal.timeline → WrittenByMoments mode trail t0 history }
    ensures all { (mode : Mode) (trail : Trail) (t0 : ℕ) (going : AllGoing) (history : List Entry) → t0 ≤ end_of_trail trail → (legal : Legal t0 (from_moment trail t0) going history) →
        AllWritten mode trail t0 history ↔ (written_of legal.timeline ≡ all_lines mode history) }
{}

/// What a legal history says of its trail alone.
pub fn trail_at_each_moment()
    ensures { (trail : Trail) (t0 : ℕ) (going : AllGoing) (history : List Entry) → t0 ≤ end_of_trail trail → LegalByMoments trail t0 going history → TrailByMoments trail t0 history }
{}

/// An entry that is answered `pending` names the least live operation in its way, where live is said by moments.
pub fn pending_names_the_least()
    ensures { (trail : Trail) (t0 : ℕ) (going : AllGoing) (history : List Entry) → t0 ≤ end_of_trail trail → (legal : LegalByMoments trail t0 going history) →
        (i : ℕ) (e : Entry) (number : ℕ) → slice_get history i ≡ Some e → e.reply ≡ Some (reply.Pending number) →
        IsLeastInWayAt trail t0 (take i history) e.moment (reach_of_command (standing trail (last_moment t0 (take i history)) (legal.connections i)) e.command) number }
{}

// ---- promises

/// Promises are kept as the history goes on, and as a session takes up something.
pub fn promises_are_kept()
    ensures entered { (before after : AllGoing) (e : Entry) (history : List Entry) → GoesOn before after e → KeepsPromises before history → Promises after e [] e.reply → KeepsPromises after (history ++ e ∷ []) }
    ensures taken_up { (before after : AllGoing) (session : ℕ) (g : Going) (history : List Entry) → TakesUp before after session g → NamesOperations history → KeepsPromises before history → KeepsPromises after history }
{}

/// The operations that were tried stay named in the same way.
pub fn operations_are_named()
    ensures entered { (before after : AllGoing) (e : Entry) (past : Timeline) → GoesOn before after e → AreNamed before past [] → AreNamed after (Entered e ∷ past) [] }
    ensures taken_up { (before after : AllGoing) (session : ℕ) (g : Going) (past : Timeline) → TakesUp before after session g → TriesNumbered past → AreNamed before past [] → AreNamed after past [] }
    ensures numbered { (since : ℕ) (start : Image) (past : Timeline) (connections : Connections) → Unfolds since start past connections → AllSound start past → TriesNumbered past }
{}

// ---- over a world that tells its contents alone

/// There too the run begins, goes on while the stores stand for the same, and with an entry that follows; and its entries follow one after the other.
pub fn run_alone()
    ensures begins { (first : Image) → Sound first → RunningAlone first [] nobody first }
    ensures goes_on { (first : Image) (past : Past) (connections : Connections) (old new : Image) → RunningAlone first past connections old → Sound new → meaning new ≡ meaning old →
        RunningAlone first past connections new }
    ensures enters { (first : Image) (past : Past) (before after : Connections) (old new : Image) (e : Entry) → RunningAlone first past before old → Sound new →
        Follows past (with_connections (meaning old) before) e (with_connections (meaning new) after) e.reply →
        RunningAlone first (record { entry = e; before = meaning old } ∷ past) after new }
    ensures follows { (first : Image) (past : Past) (connections : Connections) (image : Image) → RunningAlone first past connections image →
        FollowsTo [] (meaning first) (entries_of past) (with_connections (meaning image) connections) }
{}

/// What is a run on a trail is one by its contents alone.
pub fn run_alone_on_a_trail()
    ensures run { (since : ℕ) (start : Image) (mode : Mode) (past : Timeline) (connections : Connections) → Running since start mode past connections →
        RunningAlone start (past_of start past) connections (image_of start past) }
    ensures entries { (start : Image) (past : Timeline) → entries_of (past_of start past) ≡ history_of past }
{}
