//! Laws of the short commands: what their entries may say. Each is the contract of a function that does nothing.
ghost use Rattle.std.specs.Prelude.{◌≡◌, ℕ, true, None, Some, []};
ghost use Rattle.cell_world.specs.Plain.{PlainState, holds_nothing};
ghost use Rattle.plain_model.specs.declared.commands.Command.{Command};
ghost use Rattle.plain_model.specs.declared.history.Entry.{Entry};
ghost use Rattle.plain_model.specs.declared.replies.Reply.{Reply};
ghost use Rattle.plain_model.specs.declared.replies.Reply.TheVariants as reply;
ghost use Rattle.plain_model.specs.declared.replies.Refusal.{Refusal};
ghost use Rattle.plain_model.specs.Refusing.{refusal};
ghost use Rattle.plain_model.specs.Steps.{accepted};
ghost use Rattle.plain_model.specs.Legal.{AllGoing, Promises};
ghost use Rattle.plain_model.specs.ShortCommands.{is_short, is_short_answer, is_short_refusal, is_short_reply, FollowsShort};

/// The entry of a short command follows: done or refused as the plain step says; after a failed call with the old state or that after the command; for want of memory with the old one.
pub fn short_entries_follow()
    ensures done { (session : ℕ) (c : Command) → is_short c ≡ true → (A B : PlainState) (r : Reply) → is_short_answer r ≡ true → refusal A session c ≡ None → accepted holds_nothing A session c ≡ (B, r) → FollowsShort session c A B r }
    ensures refused { (session : ℕ) (c : Command) → is_short c ≡ true → (A B : PlainState) (r : Refusal) → is_short_refusal r ≡ true → refusal A session c ≡ Some r → B ≡ A → FollowsShort session c A B (reply.Refused r) }
    ensures unmade { (session : ℕ) (c : Command) → is_short c ≡ true → (A B : PlainState) → B ≡ A → FollowsShort session c A B reply.Fault }
    ensures made { (session : ℕ) (c : Command) → is_short c ≡ true → (A B : PlainState) (r : Reply) → refusal A session c ≡ None → accepted holds_nothing A session c ≡ (B, r) → FollowsShort session c A B reply.Fault }
    ensures memory { (session : ℕ) (c : Command) → is_short c ≡ true → (A B : PlainState) → B ≡ A → FollowsShort session c A B reply.Memory }
{}

/// A short command is refused with one word, and no reply of one speaks of another session.
pub fn short_replies()
    ensures refusals { (s : PlainState) (session : ℕ) (c : Command) → is_short c ≡ true → (r : Refusal) → refusal s session c ≡ Some r → is_short_refusal r ≡ true }
    ensures promises { (r : Reply) → is_short_reply r ≡ true → (going : AllGoing) (e : Entry) → Promises going e [] (Some r) }
    ensures never_pending { (r : Reply) → is_short_reply r ≡ true → Some r ≡ Some (reply.Pending 0) → ⊥ }
{}
