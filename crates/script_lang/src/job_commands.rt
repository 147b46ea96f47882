//! Commands on jobs.
ghost use Rattle.std.specs.Prelude.{map, IfOk, IfErr};
ghost use Rattle.script_lang.specs.Commands.{word_kinds, said_by, IsCommand};
ghost use Rattle.script_lang.specs.Reading.{IsStop};
ghost use Rattle.script_lang.specs.declared.verbs.Verb.TheVariants as verb;

use crate::arguments::{one_job, range_at};
use crate::numbers::batch_at;
use crate::stops::LineStop;
use plain_model::commands::Command;
use plain_model::finish::Reason;

/// `job MAP LOW HIGH LOC BATCH`.
pub(crate) fn job(words: &[&[u8]]) -> Result<Command, LineStop>
    ensures ok { IfOk result (IsCommand verb.Job (map (λ w. w.now) words.now)) }
    ensures err { IfErr result (IsStop (said_by (word_kinds verb.Job) (map (λ w. w.now) words.now))) }
{
    let [map, low, high, location, batch] = words else {
        return Err(LineStop::Faulty(Reason::BadCount));
    };
    let at = range_at(map, low, high, location)?;
    match batch_at(batch, 6) {
        Ok(batch) => Ok(Command::Job(at.map, at.low, at.high, at.location, batch)),
        Err(reason) => Err(LineStop::Faulty(reason)),
    }
}

/// `step J`.
pub(crate) fn step(words: &[&[u8]]) -> Result<Command, LineStop>
    ensures ok { IfOk result (IsCommand verb.Step (map (λ w. w.now) words.now)) }
    ensures err { IfErr result (IsStop (said_by (word_kinds verb.Step) (map (λ w. w.now) words.now))) }
{
    let at = one_job(words)?;
    Ok(Command::Step(at))
}

/// `run J`.
pub(crate) fn run(words: &[&[u8]]) -> Result<Command, LineStop>
    ensures ok { IfOk result (IsCommand verb.Run (map (λ w. w.now) words.now)) }
    ensures err { IfErr result (IsStop (said_by (word_kinds verb.Run) (map (λ w. w.now) words.now))) }
{
    let at = one_job(words)?;
    Ok(Command::Run(at))
}
