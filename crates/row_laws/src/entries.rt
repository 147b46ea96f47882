//! The entry of a command by a connection. Each law is the contract of a function that does nothing.
ghost use Rattle.std.specs.Prelude.{◌≡◌, ℕ, true, Some};
ghost use Rattle.cell_world.specs.Plain.{PlainState, holds_nothing};
ghost use Rattle.plain_model.specs.Refusing.{refusal};
ghost use Rattle.plain_model.specs.ShortCommands.{FollowsShort, is_short_refusal};
ghost use Rattle.plain_model.specs.Steps.{plain_step};
ghost use Rattle.plain_model.specs.declared.commands.Command.{Command};
ghost use Rattle.plain_model.specs.declared.replies.Refusal.{Refusal};
ghost use Rattle.plain_model.specs.declared.replies.Reply.{Reply};
ghost use Rattle.plain_model.specs.declared.replies.Reply.TheVariants as reply;
ghost use Rattle.connection_laws.specs.Keeping.{is_by_connection};
ghost use Rattle.row_laws.specs.Replies.{is_row_answer};

/// The entry may stand between the states, whatever came before: refused, and done, as the plain step says; at a fault with the old state, or the plain step's; for want of memory with the old one.
pub fn entries_follow()
    ensures refused { (session : ℕ) (c : Command) → is_by_connection c ≡ true → (A : PlainState) (r : Refusal) → is_short_refusal r ≡ true → refusal A session c ≡ Some r → FollowsShort session c A A (reply.Refused r) }
    ensures done { (session : ℕ) (c : Command) → is_by_connection c ≡ true → (A B : PlainState) (r : Reply) → is_row_answer r ≡ true → plain_step holds_nothing A session c ≡ (B, r) → FollowsShort session c A B r }
    ensures unmade { (session : ℕ) (c : Command) → is_by_connection c ≡ true → (A : PlainState) → FollowsShort session c A A reply.Fault }
    ensures made { (session : ℕ) (c : Command) → is_by_connection c ≡ true → (A B : PlainState) (r : Reply) → plain_step holds_nothing A session c ≡ (B, r) → FollowsShort session c A B reply.Fault }
    ensures memory { (session : ℕ) (c : Command) → is_by_connection c ≡ true → (A : PlainState) → FollowsShort session c A A reply.Memory }
{}
