//! A command by a connection in a core of several sessions, over what its world tells: on its trail, and by its contents alone. Each law is the contract of a function that does nothing.
ghost use Rattle.std.specs.Prelude.{◌≡◌, ℕ, Bool, true, List, [], Option, None};
ghost use Rattle.cell_world.specs.Images.{Image, end_of_trail};
ghost use Rattle.cell_world.specs.Outside.{Told, IfContents, IfTrail, told_after};
ghost use Rattle.cell_world.specs.Plain.{Connections, holds_nothing};
ghost use Rattle.cell_world.specs.Sound.{Sound, IsAttachedIn};
ghost use Rattle.cell_world.specs.Texts.{Text};
ghost use Rattle.cell_world.specs.declared.changes.Edit.{Edit};
ghost use Rattle.cell_world.specs.declared.operations.Op.{Op};
ghost use Rattle.cell_world.specs.declared.operations.Reach.TheVariants as reach;
ghost use Rattle.plain_model.specs.OnTrail.{logs_put};
ghost use Rattle.plain_model.specs.Running.{text_of};
ghost use Rattle.plain_model.specs.ShortCommands.{FollowsShort, short_entry, standing_with};
ghost use Rattle.plain_model.specs.Steps.{plain_step};
ghost use Rattle.plain_model.specs.Written.{Mode};
ghost use Rattle.plain_model.specs.declared.commands.Command.{Command};
ghost use Rattle.plain_model.specs.declared.history.Entry.{Entry};
ghost use Rattle.plain_model.specs.declared.replies.Reply.{Reply};
ghost use Rattle.plain_model.specs.declared.replies.Reply.TheVariants as reply;
ghost use Rattle.op_log.specs.ShortChanges.{ShortChange};
ghost use Rattle.session_laws.specs.Core.{AllStand};
ghost use Rattle.session_laws.specs.Doing.{AllDoing, Resting};
ghost use Rattle.session_laws.specs.Needs.{Needs};
ghost use Rattle.operation_laws.specs.Leading.{Leads};
ghost use Rattle.connection_laws.specs.Keeping.{is_by_connection};
ghost use Rattle.session_rows.specs.Rows.{changed_at, commit_at};
ghost use Rattle.row_laws.specs.Commits.{RowCommits};
ghost use Rattle.row_laws.specs.Replies.{is_row_answer, is_row_reply};
ghost use Rattle.row_laws.specs.Seeing.{answered_with, seen_of};

/// A command by a connection is answered and nothing happened: `open`, `close` and `get`, a refusal, want of memory, and a fault before anything was tried. Who is connected afterwards may be others.
pub fn quiet_entries_lead()
    ensures { (session : ℕ) (c : Command) → is_by_connection c ≡ true → (r : Reply) → is_row_reply r ≡ true → (before : AllDoing) (left : Option Op) → before session ≡ Resting left → (connected still : Connections) (old new : Told) → new ≡ old →
        IfContents old (λ image. Sound image → AllStand Needs before image → FollowsShort session c (standing_with image connected) (standing_with image still) r) → (moment : ℕ) → IfTrail new (λ trail. moment ≡ end_of_trail trail) →
        (mode : Mode) (history : List Entry) → Leads mode old new (seen_of history before connected) (answered_with (seen_of history before connected) (short_entry session c r moment) before still) (text_of mode (short_entry session c r moment)) }
{}

/// A command by a connection is answered just after its one transaction, at its connection's shard: `put` and `del` that are done, and a fault in which the transaction was made or not.
pub fn row_commits_lead()
    ensures { (session : ℕ) (c : Command) → is_by_connection c ≡ true → (r : Reply) → is_row_reply r ≡ true → (before : AllDoing) (left : Option Op) → before session ≡ Resting left → (connected : Connections) (location : Text) (change : List Edit) (took : Bool) → logs_put change ≡ [] →
        (old new : Told) → new ≡ told_after old (commit_at location change took) → IfContents old (λ image. Sound image → AllStand Needs before image → RowCommits before session c connected location change took r image) → (moment : ℕ) → IfTrail new (λ trail. moment ≡ end_of_trail trail) →
        (mode : Mode) (history : List Entry) → Leads mode old new (seen_of history before connected) (answered_with (seen_of history before connected) (short_entry session c r moment) before connected) (text_of mode (short_entry session c r moment)) }
{}

/// What is asked of such a transaction (`RowCommits`) holds where it is a short change that reaches nothing and makes what the plain step makes: made, with the plain step's answer; and at a fault, made or not.
pub fn short_changes_are_row_commits()
    ensures done { (before : AllDoing) (session : ℕ) (c : Command) → is_by_connection c ≡ true → (connected : Connections) (location : Text) (change : List Edit) (image : Image) → Sound image → AllStand Needs before image → IsAttachedIn image location →
        Sound (changed_at image location change) → ShortChange image reach.Nothing (changed_at image location change) → (r : Reply) → is_row_answer r ≡ true →
        plain_step holds_nothing (standing_with image connected) session c ≡ (standing_with (changed_at image location change) connected, r) → RowCommits before session c connected location change true r image }
    ensures fault { (before : AllDoing) (session : ℕ) (c : Command) → is_by_connection c ≡ true → (connected : Connections) (location : Text) (change : List Edit) (image : Image) → Sound image → AllStand Needs before image → IsAttachedIn image location →
        Sound (changed_at image location change) → ShortChange image reach.Nothing (changed_at image location change) → (r : Reply) →
        plain_step holds_nothing (standing_with image connected) session c ≡ (standing_with (changed_at image location change) connected, r) → (took : Bool) → RowCommits before session c connected location change took reply.Fault image }
{}
