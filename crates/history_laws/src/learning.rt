//! What a run has learnt. Each law is the contract of a function that does nothing.
ghost use Rattle.std.specs.Prelude.{◌≡◌, ◌<◌, ℕ, length, Some, IsTrue};
ghost use Rattle.cell_world.specs.Texts.{Text};
ghost use Rattle.cell_world.specs.Lists.{IsOneOf};
ghost use Rattle.cell_world.specs.Keys.{contains};
ghost use Rattle.cell_world.specs.KeyForms.{normal_of};
ghost use Rattle.cell_world.specs.Plain.{PlainState};
ghost use Rattle.plain_model.specs.declared.commands.Command.TheVariants as command;
ghost use Rattle.plain_model.specs.declared.history.Entry.{Entry};
ghost use Rattle.plain_model.specs.declared.replies.Reply.TheVariants as reply;
ghost use Rattle.plain_model.specs.Caches.{Learnt};
ghost use Rattle.plain_model.specs.Timelines.{Past};
ghost use Rattle.plain_model.specs.Follows.{Follows, cache_of, WasLearnt};

/// A span that is in the cache was learnt in this run, before now, and no later entry of any session dropped it.
pub fn cached_spans_were_learnt()
    ensures learnt { (past : Past) (session : ℕ) (k : Learnt) → IsOneOf (cache_of past) k → WasLearnt past session k }
    ensures before_now { (past : Past) (k : Learnt) → IsOneOf (cache_of past) k → k.place < length past }
{}

/// So a `peek` may be answered with a span of the cache that contains its key.
pub fn cached_spans_are_known()
    ensures { (past : Past) (A : PlainState) (e : Entry) (text key : Text) (k : Learnt) → IsOneOf (cache_of past) k → e.command ≡ command.Peek k.map text → normal_of k.type text ≡ Some key → IsTrue (contains k.span key) →
        Follows past A e A (Some (reply.Known k.type k.span k.location k.place)) }
{}
