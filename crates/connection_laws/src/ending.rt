//! Connections that are opened, closed and ended. Each law is the contract of a function that does nothing.
ghost use Rattle.std.specs.Prelude.{◌≡◌, ℕ, Bool, true, Option, Some, None};
ghost use Rattle.cell_world.specs.Texts.{Text};
ghost use Rattle.cell_world.specs.Plain.{PlainState, Connection, Connections, Held, with_connections};
ghost use Rattle.cell_world.specs.declared.operations.Piece.{Piece};
ghost use Rattle.plain_model.specs.declared.commands.Command.{Command};
ghost use Rattle.plain_model.specs.declared.commands.Command.TheVariants as command;
ghost use Rattle.plain_model.specs.declared.replies.Reply.{Reply};
ghost use Rattle.plain_model.specs.Refusing.{refusal, key_in, mapping_of};
ghost use Rattle.plain_model.specs.Steps.{plain_step, connection_to, ended_where, ended_under, ended_at, with_connection, detach};
ghost use Rattle.connections.specs.Links.{IsOwned, AreOwned};
ghost use Rattle.connection_laws.specs.Keeping.{is_by_connection};

/// An owned connection that is opened leaves all owned, and so does one that is closed.
pub fn opening_and_closing_keep_connections()
    ensures opened { (s : PlainState) (connections : Connections) → AreOwned s connections → (session number : ℕ) (c : Connection) → IsOwned s c → AreOwned s (with_connection connections session number (Some c)) }
    ensures closed { (s : PlainState) (connections : Connections) → AreOwned s connections → (session number : ℕ) → AreOwned s (with_connection connections session number None) }
{}

/// Those that are left where some are ended stay owned: by any test, under a mapping, as a faulted `offline` may end them, and at a site.
pub fn ending_keeps_connections()
    ensures by_test { (s : PlainState) (test : Connection → Bool) (connections : Connections) → AreOwned s connections → AreOwned s (ended_where test connections) }
    ensures under { (s : PlainState) (piece : Option Piece) (connections : Connections) → AreOwned s connections → AreOwned s (ended_under piece connections) }
    ensures at_site { (s : PlainState) (location : Text) (connections : Connections) → AreOwned s connections → AreOwned s (ended_at location connections) }
{}

/// Where a site is detached the connections to it have ended, and the others stay owned.
pub fn detaching_keeps_connections()
    ensures { (s : PlainState) (location : Text) (held : Held) (connections : Connections) → AreOwned s connections → AreOwned (detach s location held) (ended_at location connections) }
{}

/// What an accepted `open` connects is owned. So `open`, `close`, `put`, `get` and `del`, done or refused, leave connections owned.
pub fn connection_commands_keep_connections()
    ensures opened { (s : PlainState) (session number : ℕ) (name text : Text) → refusal s session (command.Open number name text) ≡ None → (c : Connection) → connection_to name (key_in s name text) (mapping_of s name text) ≡ Some c → IsOwned s c }
    ensures kept { (s : PlainState) (connections : Connections) → AreOwned s connections → (held : Held) (session : ℕ) (c : Command) → is_by_connection c ≡ true →
        (t : PlainState) (after : Connections) (r : Reply) → plain_step held (with_connections s connections) session c ≡ (with_connections t after, r) → AreOwned t after }
{}
