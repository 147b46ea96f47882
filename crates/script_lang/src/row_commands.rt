//! Commands on connections and rows.
ghost use Rattle.std.specs.Prelude.{map, IfOk, IfErr};
ghost use Rattle.script_lang.specs.Commands.{word_kinds, said_by, IsCommand};
ghost use Rattle.script_lang.specs.Reading.{IsStop};
ghost use Rattle.script_lang.specs.declared.verbs.Verb.TheVariants as verb;

use crate::arguments::{map_and_key, row_at};
use crate::numbers::{connection_at, row_number_at};
use crate::stops::LineStop;
use crate::values::{key_at, name_at, row_value_at};
use plain_model::commands::Command;
use plain_model::finish::Reason;
use std::alloc::Global;

/// `open C MAP KEY`.
pub(crate) fn open(words: &[&[u8]]) -> Result<Command, LineStop>
    ensures ok { IfOk result (IsCommand verb.Open (map (λ w. w.now) words.now)) }
    ensures err { IfErr result (IsStop (said_by (word_kinds verb.Open) (map (λ w. w.now) words.now))) }
{
    let [connection, map, key] = words else {
        return Err(LineStop::Faulty(Reason::BadCount));
    };
    let connection = connection_at(connection, 2)?;
    let map = name_at(map, 3)?;
    let key = key_at(key, 4)?;
    Ok(Command::Open(connection, map, key))
}

/// `close C`.
pub(crate) fn close(words: &[&[u8]]) -> Result<Command, LineStop>
    ensures ok { IfOk result (IsCommand verb.Close (map (λ w. w.now) words.now)) }
    ensures err { IfErr result (IsStop (said_by (word_kinds verb.Close) (map (λ w. w.now) words.now))) }
{
    let [connection] = words else {
        return Err(LineStop::Faulty(Reason::BadCount));
    };
    let connection = connection_at(connection, 2)?;
    Ok(Command::Close(connection))
}

/// `put C TABLE ID BYTES`.
pub(crate) fn put(alloc: Global, words: &[&[u8]]) -> Result<Command, LineStop>
    ensures ok { IfOk result (IsCommand verb.Put (map (λ w. w.now) words.now)) }
    ensures err { IfErr result (IsStop (said_by (word_kinds verb.Put) (map (λ w. w.now) words.now))) }
{
    let [connection, table, row, bytes] = words else {
        return Err(LineStop::Faulty(Reason::BadCount));
    };
    let connection = connection_at(connection, 2)?;
    let table = name_at(table, 3)?;
    let row = row_number_at(row, 4)?;
    let bytes = row_value_at(alloc, bytes, 5)?;
    Ok(Command::Put(connection, table, row, bytes))
}

/// `get C TABLE ID`.
pub(crate) fn get(words: &[&[u8]]) -> Result<Command, LineStop>
    ensures ok { IfOk result (IsCommand verb.Get (map (λ w. w.now) words.now)) }
    ensures err { IfErr result (IsStop (said_by (word_kinds verb.Get) (map (λ w. w.now) words.now))) }
{
    let at = row_at(words)?;
    Ok(Command::Get(at.connection, at.table, at.row))
}

/// `del C TABLE ID`.
pub(crate) fn del(words: &[&[u8]]) -> Result<Command, LineStop>
    ensures ok { IfOk result (IsCommand verb.Del (map (λ w. w.now) words.now)) }
    ensures err { IfErr result (IsStop (said_by (word_kinds verb.Del) (map (λ w. w.now) words.now))) }
{
    let at = row_at(words)?;
    Ok(Command::Del(at.connection, at.table, at.row))
}

/// `peek MAP KEY`.
pub(crate) fn peek(words: &[&[u8]]) -> Result<Command, LineStop>
    ensures ok { IfOk result (IsCommand verb.Peek (map (λ w. w.now) words.now)) }
    ensures err { IfErr result (IsStop (said_by (word_kinds verb.Peek) (map (λ w. w.now) words.now))) }
{
    let at = map_and_key(words)?;
    Ok(Command::Peek(at.map, at.key))
}
