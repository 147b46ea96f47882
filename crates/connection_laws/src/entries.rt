//! What entries leave of connections. Each law is the contract of a function that does nothing. An entry is taken by the states that it follows by, whoever is connected in them; where any other connections are meant, the law says so.
ghost use Rattle.std.specs.Prelude.{◌≡◌, ℕ, true, false, Option, Some, None};
ghost use Rattle.cell_world.specs.Texts.{Text};
ghost use Rattle.cell_world.specs.Images.{Image};
ghost use Rattle.cell_world.specs.Plain.{PlainState, Connections, with_connections};
ghost use Rattle.cell_world.specs.Meaning.{meaning};
ghost use Rattle.cell_world.specs.Lawful.{Lawful};
ghost use Rattle.cell_world.specs.Sound.{Sound};
ghost use Rattle.cell_world.specs.declared.cells.Token.{Token};
ghost use Rattle.cell_world.specs.declared.operations.Op.{Op};
ghost use Rattle.cell_world.specs.declared.operations.Piece.{Piece};
ghost use Rattle.plain_model.specs.declared.commands.Command.{Command};
ghost use Rattle.plain_model.specs.declared.commands.Command.TheVariants as command;
ghost use Rattle.plain_model.specs.declared.history.Entry.{Entry};
ghost use Rattle.plain_model.specs.declared.replies.Reply.{Reply};
ghost use Rattle.plain_model.specs.ShortCommands.{is_short};
ghost use Rattle.plain_model.specs.Refusing.{mapping_of};
ghost use Rattle.plain_model.specs.Timelines.{Past};
ghost use Rattle.plain_model.specs.Follows.{Follows};
ghost use Rattle.plain_model.specs.Legal.{IsOwnOf};
ghost use Rattle.session_laws.specs.Doing.{Live};
ghost use Rattle.session_laws.specs.Core.{Stands};
ghost use Rattle.session_laws.specs.Needs.{Needs};
ghost use Rattle.operation_laws.specs.Entries.{IsOneOperation};
ghost use Rattle.operation_laws.specs.Opening.{ends_with};
ghost use Rattle.operation_laws.specs.Planned.{IsOpFor};
ghost use Rattle.connections.specs.Links.{AreOwned};
ghost use Rattle.connection_laws.specs.Keeping.{AreOnShards, is_by_connection};
ghost use Rattle.connection_laws.specs.Leaving.{may_be_done, left_by};

/// The entry of a short command, whatever its answer, leaves connections owned, and connects nobody and ends no connection. That mappings are on shards is asked; it is so in what a sound image stands for.
pub fn short_entries_keep_connections()
    ensures kept { (past : Past) (A B : PlainState) (before after : Connections) (e : Entry) (answer : Option Reply) → is_short e.command ≡ true → Follows past (with_connections A before) e (with_connections B after) answer →
        AreOnShards A → (connections : Connections) → AreOwned A connections → AreOwned B connections }
    ensures connects { (past : Past) (A B : PlainState) (before after : Connections) (e : Entry) (answer : Option Reply) → is_short e.command ≡ true → Follows past (with_connections A before) e (with_connections B after) answer → after ≡ before }
{}

/// The entry of `open`, `close`, `put`, `get` or `del`, whatever its answer: the connections after it are owned if those before it were.
pub fn connection_entries_keep_connections()
    ensures { (past : Past) (A B : PlainState) (before after : Connections) (e : Entry) (answer : Option Reply) → is_by_connection e.command ≡ true → Follows past (with_connections A before) e (with_connections B after) answer →
        AreOwned A before → AreOwned B after }
{}

/// The entry of a command of one operation, whatever its answer: the connections that are left are owned. The stores before it admit the operation, and it is the command's; that is so of a live operation, which stands, and of one that was planned. An `offline` that faulted once its log row was tried has ended those under its mapping, whether it was committed or not; before that it may have ended none, and `connected` speaks of those that the entry itself leaves.
pub fn operation_entries_keep_connections()
    ensures own { (image : Image) → Sound image → (op : Op) → Lawful image op → (past : Past) (later : Image) (before after : Connections) (e : Entry) (answer : Option Reply) → IsOneOperation e.command →
        IsOwnOf (with_connections (meaning image) before) e.command None image op → Follows past (with_connections (meaning image) before) e (with_connections (meaning later) after) answer →
        (connections : Connections) → AreOwned (meaning image) connections → AreOwned (meaning later) (left_by e.command answer op.olds.one connections) }
    ensures connected { (image : Image) → Sound image → (op : Op) → Lawful image op → (past : Past) (later : Image) (before after : Connections) (e : Entry) (answer : Option Reply) → IsOneOperation e.command →
        IsOwnOf (with_connections (meaning image) before) e.command None image op → Follows past (with_connections (meaning image) before) e (with_connections (meaning later) after) answer →
        AreOwned (meaning image) before → AreOwned (meaning later) after }
    ensures standing { (image : Image) → Sound image → (session : ℕ) (l : Live) → Stands Needs session l image → (past : Past) (later : Image) (before after : Connections) (e : Entry) (answer : Option Reply) → e.command ≡ l.command →
        IsOneOperation l.command → Follows past (with_connections (meaning image) before) e (with_connections (meaning later) after) answer →
        (connections : Connections) → AreOwned (meaning image) connections → AreOwned (meaning later) (left_by e.command answer l.op.olds.one connections) }
    ensures planned { (image : Image) → Sound image → (op : Op) (past : Past) (later : Image) (before after : Connections) (e : Entry) (answer : Option Reply) → IsOneOperation e.command →
        IsOpFor e.command image op → Follows past (with_connections (meaning image) before) e (with_connections (meaning later) after) answer →
        (connections : Connections) → AreOwned (meaning image) connections → AreOwned (meaning later) (left_by e.command answer op.olds.one connections) }
{}

/// The mapping under which `offline` ends connections, which its words name, is the first that its operation replaces. So the connections that are left where a command of one operation may have been done are those that its plain step leaves.
pub fn offline_takes_the_first_old()
    ensures first { (image : Image) (op : Op) → Lawful image op → (A : PlainState) (name key : Text) (token : Option Token) → IsOwnOf A (command.Offline name key token) None image op → op.olds.one ≡ mapping_of A name key }
    ensures left { (image : Image) (op : Op) → Lawful image op → (A : PlainState) (c : Command) → IsOwnOf A c None image op → (answer : Option Reply) → may_be_done answer ≡ true → ends_with A c ≡ left_by c answer op.olds.one A.connections }
{}

/// Without an operation at hand: a command of one operation that is answered neither `ok` nor `fault` leaves connections owned; and where the stores stand for what they stood for, those that `left_by` leaves are owned, whatever mapping is given, or none.
pub fn entries_without_an_operation_keep_connections()
    ensures not_done { (past : Past) (A B : PlainState) (before after : Connections) (e : Entry) (answer : Option Reply) → IsOneOperation e.command → may_be_done answer ≡ false →
        Follows past (with_connections A before) e (with_connections B after) answer → (connections : Connections) → AreOwned A connections → AreOwned B connections }
    ensures still { (image later : Image) → meaning later ≡ meaning image → (connections : Connections) → AreOwned (meaning image) connections →
        (c : Command) (answer : Option Reply) (piece : Option Piece) → AreOwned (meaning later) (left_by c answer piece connections) }
{}
