//! Commands on mappings.
ghost use Rattle.std.specs.Prelude.{map, IfOk, IfErr};
ghost use Rattle.script_lang.specs.Commands.{word_kinds, said_by, IsCommand};
ghost use Rattle.script_lang.specs.Reading.{IsStop};
ghost use Rattle.script_lang.specs.declared.verbs.Verb.TheVariants as verb;

use crate::arguments::{
    key_and_location, key_and_maybe_token, key_and_token, map_and_key, range_at,
};
use crate::stops::LineStop;
use crate::values::{key_at, location_at, name_at, token_at};
use plain_model::commands::Command;
use plain_model::finish::Reason;

/// `add MAP LOW HIGH LOC`.
pub(crate) fn add(words: &[&[u8]]) -> Result<Command, LineStop>
    ensures ok { IfOk result (IsCommand verb.Add (map (λ w. w.now) words.now)) }
    ensures err { IfErr result (IsStop (said_by (word_kinds verb.Add) (map (λ w. w.now) words.now))) }
{
    let [map, low, high, location] = words else {
        return Err(LineStop::Faulty(Reason::BadCount));
    };
    let at = range_at(map, low, high, location)?;
    Ok(Command::Add(at.map, at.low, at.high, at.location))
}

/// `addpoint MAP KEY LOC`.
pub(crate) fn addpoint(words: &[&[u8]]) -> Result<Command, LineStop>
    ensures ok { IfOk result (IsCommand verb.Addpoint (map (λ w. w.now) words.now)) }
    ensures err { IfErr result (IsStop (said_by (word_kinds verb.Addpoint) (map (λ w. w.now) words.now))) }
{
    let [map, key, location] = words else {
        return Err(LineStop::Faulty(Reason::BadCount));
    };
    let map = name_at(map, 2)?;
    let key = key_at(key, 3)?;
    let location = location_at(location, 4)?;
    Ok(Command::Addpoint(map, key, location))
}

/// `delete MAP KEY [TOKEN]`.
pub(crate) fn delete(words: &[&[u8]]) -> Result<Command, LineStop>
    ensures ok { IfOk result (IsCommand verb.Delete (map (λ w. w.now) words.now)) }
    ensures err { IfErr result (IsStop (said_by (word_kinds verb.Delete) (map (λ w. w.now) words.now))) }
{
    let at = key_and_maybe_token(words)?;
    Ok(Command::Delete(at.map, at.key, at.token))
}

/// `offline MAP KEY [TOKEN]`.
pub(crate) fn offline(words: &[&[u8]]) -> Result<Command, LineStop>
    ensures ok { IfOk result (IsCommand verb.Offline (map (λ w. w.now) words.now)) }
    ensures err { IfErr result (IsStop (said_by (word_kinds verb.Offline) (map (λ w. w.now) words.now))) }
{
    let at = key_and_maybe_token(words)?;
    Ok(Command::Offline(at.map, at.key, at.token))
}

/// `online MAP KEY [TOKEN]`.
pub(crate) fn online(words: &[&[u8]]) -> Result<Command, LineStop>
    ensures ok { IfOk result (IsCommand verb.Online (map (λ w. w.now) words.now)) }
    ensures err { IfErr result (IsStop (said_by (word_kinds verb.Online) (map (λ w. w.now) words.now))) }
{
    let at = key_and_maybe_token(words)?;
    Ok(Command::Online(at.map, at.key, at.token))
}

/// `split MAP KEY [TOKEN]`.
pub(crate) fn split(words: &[&[u8]]) -> Result<Command, LineStop>
    ensures ok { IfOk result (IsCommand verb.Split (map (λ w. w.now) words.now)) }
    ensures err { IfErr result (IsStop (said_by (word_kinds verb.Split) (map (λ w. w.now) words.now))) }
{
    let at = key_and_maybe_token(words)?;
    Ok(Command::Split(at.map, at.key, at.token))
}

/// `merge MAP KEY [TOKEN]`.
pub(crate) fn merge(words: &[&[u8]]) -> Result<Command, LineStop>
    ensures ok { IfOk result (IsCommand verb.Merge (map (λ w. w.now) words.now)) }
    ensures err { IfErr result (IsStop (said_by (word_kinds verb.Merge) (map (λ w. w.now) words.now))) }
{
    let at = key_and_maybe_token(words)?;
    Ok(Command::Merge(at.map, at.key, at.token))
}

/// `move MAP KEY LOC [TOKEN]`.
pub(crate) fn move_mapping(words: &[&[u8]]) -> Result<Command, LineStop>
    ensures ok { IfOk result (IsCommand verb.Move (map (λ w. w.now) words.now)) }
    ensures err { IfErr result (IsStop (said_by (word_kinds verb.Move) (map (λ w. w.now) words.now))) }
{
    match words {
        [map, key, location] => {
            let at = key_and_location(map, key, location)?;
            Ok(Command::Move(at.map, at.key, at.location, None))
        }
        [map, key, location, token] => {
            let at = key_and_location(map, key, location)?;
            match token_at(token, 5) {
                Ok(token) => Ok(Command::Move(at.map, at.key, at.location, Some(token))),
                Err(reason) => Err(LineStop::Faulty(reason)),
            }
        }
        _ => Err(LineStop::Faulty(Reason::BadCount)),
    }
}

/// `lock MAP KEY TOKEN`.
pub(crate) fn lock(words: &[&[u8]]) -> Result<Command, LineStop>
    ensures ok { IfOk result (IsCommand verb.Lock (map (λ w. w.now) words.now)) }
    ensures err { IfErr result (IsStop (said_by (word_kinds verb.Lock) (map (λ w. w.now) words.now))) }
{
    let at = key_and_token(words)?;
    Ok(Command::Lock(at.map, at.key, at.token))
}

/// `unlock MAP KEY TOKEN`.
pub(crate) fn unlock(words: &[&[u8]]) -> Result<Command, LineStop>
    ensures ok { IfOk result (IsCommand verb.Unlock (map (λ w. w.now) words.now)) }
    ensures err { IfErr result (IsStop (said_by (word_kinds verb.Unlock) (map (λ w. w.now) words.now))) }
{
    let at = key_and_token(words)?;
    Ok(Command::Unlock(at.map, at.key, at.token))
}

/// `find MAP KEY`.
pub(crate) fn find(words: &[&[u8]]) -> Result<Command, LineStop>
    ensures ok { IfOk result (IsCommand verb.Find (map (λ w. w.now) words.now)) }
    ensures err { IfErr result (IsStop (said_by (word_kinds verb.Find) (map (λ w. w.now) words.now))) }
{
    let at = map_and_key(words)?;
    Ok(Command::Find(at.map, at.key))
}
