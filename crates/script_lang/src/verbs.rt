//! The first words of commands.
ghost use Rattle.std.specs.Prelude.{◌≡◌};
ghost use Rattle.script_lang.specs.Commands.{verb_word};
ghost use Rattle.script_lang.specs.Scripts.{verb_in};

/// A command by its first word, in the order of the table of commands.
#[derive(Clone, Copy, Debug, PartialEq, Eq)]
pub enum Verb {
    Map,
    Unmap,
    Shard,
    Unshard,
    Table,
    Add,
    Addpoint,
    Delete,
    Offline,
    Online,
    Move,
    Split,
    Merge,
    Lock,
    Unlock,
    Find,
    List,
    Shards,
    Open,
    Close,
    Put,
    Get,
    Del,
    Peek,
    Detach,
    Attach,
    Differences,
    Resolve,
    Discard,
    Clear,
    Job,
    Step,
    Run,
}

/// Every command, in the order of the table.
pub const ALL: [Verb; 33] = [
    Verb::Map,
    Verb::Unmap,
    Verb::Shard,
    Verb::Unshard,
    Verb::Table,
    Verb::Add,
    Verb::Addpoint,
    Verb::Delete,
    Verb::Offline,
    Verb::Online,
    Verb::Move,
    Verb::Split,
    Verb::Merge,
    Verb::Lock,
    Verb::Unlock,
    Verb::Find,
    Verb::List,
    Verb::Shards,
    Verb::Open,
    Verb::Close,
    Verb::Put,
    Verb::Get,
    Verb::Del,
    Verb::Peek,
    Verb::Detach,
    Verb::Attach,
    Verb::Differences,
    Verb::Resolve,
    Verb::Discard,
    Verb::Clear,
    Verb::Job,
    Verb::Step,
    Verb::Run,
];

impl Verb {
    /// The word.
    pub fn word(self) -> &'static [u8]
        ensures { result.now ≡ verb_word self }
    {
        match self {
            Verb::Map => b"map",
            Verb::Unmap => b"unmap",
            Verb::Shard => b"shard",
            Verb::Unshard => b"unshard",
            Verb::Table => b"table",
            Verb::Add => b"add",
            Verb::Addpoint => b"addpoint",
            Verb::Delete => b"delete",
            Verb::Offline => b"offline",
            Verb::Online => b"online",
            Verb::Move => b"move",
            Verb::Split => b"split",
            Verb::Merge => b"merge",
            Verb::Lock => b"lock",
            Verb::Unlock => b"unlock",
            Verb::Find => b"find",
            Verb::List => b"list",
            Verb::Shards => b"shards",
            Verb::Open => b"open",
            Verb::Close => b"close",
            Verb::Put => b"put",
            Verb::Get => b"get",
            Verb::Del => b"del",
            Verb::Peek => b"peek",
            Verb::Detach => b"detach",
            Verb::Attach => b"attach",
            Verb::Differences => b"differences",
            Verb::Resolve => b"resolve",
            Verb::Discard => b"discard",
            Verb::Clear => b"clear",
            Verb::Job => b"job",
            Verb::Step => b"step",
            Verb::Run => b"run",
        }
    }
}

/// The command in force whose first word this is.
pub(crate) fn verb_in(in_force: &[Verb], word: &[u8]) -> Option<Verb>
    ensures { result ≡ verb_in in_force.now word.now }
{
    for verb in in_force {
        if verb.word() == word {
            return Some(*verb);
        }
    }
    None
}
