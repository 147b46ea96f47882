//! How far an operation has come.
ghost use Rattle.std.specs.Prelude.{◌≡◌};
ghost use Rattle.op_steps.specs.Stages.{name_of, next_stage, number_of};

use cell_world::operations::StageName;

/// How far the operation of this number has come. It can't be copied or made elsewhere: a beginning gives the first one,
/// and each step spends it and gives the next one.
#[derive(Drop)]
pub struct Stage {
    /// The operation's.
    number: u64,
    /// What is marked.
    name: StageName,
}

/// The stage after this one; Settled is the last.
fn next_name(name: StageName) -> StageName
    ensures { result ≡ next_stage name }
{
    match name {
        StageName::Logged => StageName::SourceDone,
        StageName::SourceDone => StageName::TargetDone,
        StageName::TargetDone => StageName::Committed,
        StageName::Committed => StageName::Settled,
        StageName::Settled => StageName::Settled,
    }
}

impl Stage {
    /// The number of the operation.
    pub fn number(&self) -> u64
        ensures { result ≡ number_of self.now }
    {
        self.number
    }

    /// How far it has come.
    pub fn name(&self) -> StageName
        ensures { result ≡ name_of self.now }
    {
        self.name
    }

    /// The stage of an operation whose log row was put.
    pub(crate) fn logged(number: u64) -> Stage
        ensures number { number_of result ≡ number }
        ensures name { name_of result ≡ StageName.Logged }
    {
        Stage {
            number,
            name: StageName::Logged,
        }
    }

    /// The stage after this one, when what leads there is done.
    pub(crate) fn advanced(self) -> Stage
        ensures number { number_of result ≡ number_of self }
        ensures name { name_of result ≡ next_stage (name_of self) }
    {
        Stage {
            number: self.number,
            name: next_name(self.name),
        }
    }
}
