//! The commit of an operation beside connections. Each law is the contract of a function that does nothing.
ghost use Rattle.std.specs.Prelude.{◌≡◌, ℕ, true, Some, None};
ghost use Rattle.cell_world.specs.Spelled.{listed};
ghost use Rattle.cell_world.specs.Images.{Image};
ghost use Rattle.cell_world.specs.Plain.{Connection, Connections, with_connections};
ghost use Rattle.cell_world.specs.Meaning.{meaning};
ghost use Rattle.cell_world.specs.Lawful.{Lawful};
ghost use Rattle.cell_world.specs.Sound.{Sound};
ghost use Rattle.cell_world.specs.Marked.{committed_image};
ghost use Rattle.cell_world.specs.declared.operations.Op.{Op};
ghost use Rattle.plain_model.specs.declared.commands.Command.{Command};
ghost use Rattle.plain_model.specs.Legal.{IsOwnOf};
ghost use Rattle.operation_laws.specs.Entries.{IsOneOperation};
ghost use Rattle.operation_laws.specs.Opening.{ends_with};
ghost use Rattle.connections.specs.Links.{IsOwned, AreOwned};
ghost use Rattle.connection_laws.specs.Keeping.{StaysOnline};

/// The commit of a lawful operation, of whatever shape, a step of a job or not, leaves a connection owned unless an online mapping over its key becomes an offline one.
pub fn commits_keep_connections()
    ensures one { (image : Image) → Sound image → (op : Op) → Lawful image op → (c : Connection) → StaysOnline (listed op.olds) (listed op.news) c → IsOwned (meaning image) c → IsOwned (meaning (committed_image image op)) c }
    ensures all { (image : Image) → Sound image → (op : Op) → Lawful image op → (connections : Connections) → AreOwned (meaning image) connections →
        ((session number : ℕ) (c : Connection) → connections session number ≡ Some c → c.live ≡ true → StaysOnline (listed op.olds) (listed op.news) c) → AreOwned (meaning (committed_image image op)) connections }
{}

/// So at the commit of a command that is one operation those are owned who are connected once it is done: `offline` has ended the connections to its mapping, and no other makes an online mapping an offline one.
pub fn operations_keep_connections()
    ensures { (image : Image) → Sound image → (op : Op) → Lawful image op → (connections : Connections) → AreOwned (meaning image) connections →
        (c : Command) → IsOneOperation c → IsOwnOf (with_connections (meaning image) connections) c None image op → AreOwned (meaning (committed_image image op)) (ends_with (with_connections (meaning image) connections) c) }
{}
