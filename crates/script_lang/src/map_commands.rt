//! Commands on maps, their shards and their tables.
ghost use Rattle.std.specs.Prelude.{map, IfOk, IfErr};
ghost use Rattle.script_lang.specs.Commands.{word_kinds, said_by, IsCommand};
ghost use Rattle.script_lang.specs.Reading.{IsStop};
ghost use Rattle.script_lang.specs.declared.verbs.Verb.TheVariants as verb;

use crate::arguments::{map_and_location, one_map};
use crate::stops::LineStop;
use crate::values::{kind_at, name_at, type_at};
use plain_model::commands::Command;
use plain_model::finish::Reason;

/// `map NAME KIND TYPE`.
pub(crate) fn map(words: &[&[u8]]) -> Result<Command, LineStop>
    ensures ok { IfOk result (IsCommand verb.Map (map (λ w. w.now) words.now)) }
    ensures err { IfErr result (IsStop (said_by (word_kinds verb.Map) (map (λ w. w.now) words.now))) }
{
    let [name, of, keys] = words else {
        return Err(LineStop::Faulty(Reason::BadCount));
    };
    let name = name_at(name, 2)?;
    let of = kind_at(of, 3)?;
    let keys = type_at(keys, 4)?;
    Ok(Command::Map(name, of, keys))
}

/// `unmap MAP`.
pub(crate) fn unmap(words: &[&[u8]]) -> Result<Command, LineStop>
    ensures ok { IfOk result (IsCommand verb.Unmap (map (λ w. w.now) words.now)) }
    ensures err { IfErr result (IsStop (said_by (word_kinds verb.Unmap) (map (λ w. w.now) words.now))) }
{
    let at = one_map(words)?;
    Ok(Command::Unmap(at))
}

/// `shard MAP LOC`.
pub(crate) fn shard(words: &[&[u8]]) -> Result<Command, LineStop>
    ensures ok { IfOk result (IsCommand verb.Shard (map (λ w. w.now) words.now)) }
    ensures err { IfErr result (IsStop (said_by (word_kinds verb.Shard) (map (λ w. w.now) words.now))) }
{
    let at = map_and_location(words)?;
    Ok(Command::Shard(at.map, at.location))
}

/// `unshard MAP LOC`.
pub(crate) fn unshard(words: &[&[u8]]) -> Result<Command, LineStop>
    ensures ok { IfOk result (IsCommand verb.Unshard (map (λ w. w.now) words.now)) }
    ensures err { IfErr result (IsStop (said_by (word_kinds verb.Unshard) (map (λ w. w.now) words.now))) }
{
    let at = map_and_location(words)?;
    Ok(Command::Unshard(at.map, at.location))
}

/// `table MAP TABLE`.
pub(crate) fn table(words: &[&[u8]]) -> Result<Command, LineStop>
    ensures ok { IfOk result (IsCommand verb.Table (map (λ w. w.now) words.now)) }
    ensures err { IfErr result (IsStop (said_by (word_kinds verb.Table) (map (λ w. w.now) words.now))) }
{
    let [map, table] = words else {
        return Err(LineStop::Faulty(Reason::BadCount));
    };
    let map = name_at(map, 2)?;
    let table = name_at(table, 3)?;
    Ok(Command::Table(map, table))
}

/// `list MAP`.
pub(crate) fn list(words: &[&[u8]]) -> Result<Command, LineStop>
    ensures ok { IfOk result (IsCommand verb.List (map (λ w. w.now) words.now)) }
    ensures err { IfErr result (IsStop (said_by (word_kinds verb.List) (map (λ w. w.now) words.now))) }
{
    let at = one_map(words)?;
    Ok(Command::List(at))
}

/// `shards MAP`.
pub(crate) fn shards(words: &[&[u8]]) -> Result<Command, LineStop>
    ensures ok { IfOk result (IsCommand verb.Shards (map (λ w. w.now) words.now)) }
    ensures err { IfErr result (IsStop (said_by (word_kinds verb.Shards) (map (λ w. w.now) words.now))) }
{
    let at = one_map(words)?;
    Ok(Command::Shards(at))
}
