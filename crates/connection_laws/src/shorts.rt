//! Short commands of maps and mappings beside connections. Each law is the contract of a function that does nothing.
ghost use Rattle.std.specs.Prelude.{◌≡◌, ℕ, true};
ghost use Rattle.cell_world.specs.Images.{Image};
ghost use Rattle.cell_world.specs.Plain.{PlainState, Connections, Held, with_connections};
ghost use Rattle.cell_world.specs.Meaning.{meaning};
ghost use Rattle.cell_world.specs.Sound.{Sound};
ghost use Rattle.plain_model.specs.declared.commands.Command.{Command};
ghost use Rattle.plain_model.specs.declared.replies.Reply.{Reply};
ghost use Rattle.plain_model.specs.ShortCommands.{is_short};
ghost use Rattle.plain_model.specs.Steps.{plain_step};
ghost use Rattle.connections.specs.Links.{AreOwned};
ghost use Rattle.connection_laws.specs.Keeping.{AreOnShards};

/// A short command, done or refused, leaves connections owned, where mappings are on shards of maps that stand, as they are in what a sound image stands for.
pub fn short_commands_keep_connections()
    ensures kept { (s : PlainState) → AreOnShards s → (connections : Connections) → AreOwned s connections → (held : Held) (session : ℕ) (c : Command) → is_short c ≡ true →
        (t : PlainState) (r : Reply) → plain_step held (with_connections s connections) session c ≡ (with_connections t connections, r) → AreOwned t connections }
    ensures sound { (image : Image) → Sound image → AreOnShards (meaning image) }
{}
