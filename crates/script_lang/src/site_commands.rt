//! Commands on sites.
ghost use Rattle.std.specs.Prelude.{map, IfOk, IfErr};
ghost use Rattle.script_lang.specs.Commands.{word_kinds, said_by, IsCommand};
ghost use Rattle.script_lang.specs.Reading.{IsStop};
ghost use Rattle.script_lang.specs.declared.verbs.Verb.TheVariants as verb;

use crate::arguments::one_location;
use crate::numbers::listed_at;
use crate::stops::LineStop;
use crate::values::{location_at, name_at, side_at};
use plain_model::commands::Command;
use plain_model::finish::Reason;

/// `detach LOC`.
pub(crate) fn detach(words: &[&[u8]]) -> Result<Command, LineStop>
    ensures ok { IfOk result (IsCommand verb.Detach (map (λ w. w.now) words.now)) }
    ensures err { IfErr result (IsStop (said_by (word_kinds verb.Detach) (map (λ w. w.now) words.now))) }
{
    let at = one_location(words)?;
    Ok(Command::Detach(at))
}

/// `attach LOC`.
pub(crate) fn attach(words: &[&[u8]]) -> Result<Command, LineStop>
    ensures ok { IfOk result (IsCommand verb.Attach (map (λ w. w.now) words.now)) }
    ensures err { IfErr result (IsStop (said_by (word_kinds verb.Attach) (map (λ w. w.now) words.now))) }
{
    let at = one_location(words)?;
    Ok(Command::Attach(at))
}

/// `differences LOC MAP`.
pub(crate) fn differences(words: &[&[u8]]) -> Result<Command, LineStop>
    ensures ok { IfOk result (IsCommand verb.Differences (map (λ w. w.now) words.now)) }
    ensures err { IfErr result (IsStop (said_by (word_kinds verb.Differences) (map (λ w. w.now) words.now))) }
{
    let [location, map] = words else {
        return Err(LineStop::Faulty(Reason::BadCount));
    };
    let location = location_at(location, 2)?;
    let map = name_at(map, 3)?;
    Ok(Command::Differences(location, map))
}

/// `resolve LOC MAP N SIDE`.
pub(crate) fn resolve(words: &[&[u8]]) -> Result<Command, LineStop>
    ensures ok { IfOk result (IsCommand verb.Resolve (map (λ w. w.now) words.now)) }
    ensures err { IfErr result (IsStop (said_by (word_kinds verb.Resolve) (map (λ w. w.now) words.now))) }
{
    let [location, map, difference, side] = words else {
        return Err(LineStop::Faulty(Reason::BadCount));
    };
    let location = location_at(location, 2)?;
    let map = name_at(map, 3)?;
    let difference = listed_at(difference, 4)?;
    let side = side_at(side, 5)?;
    Ok(Command::Resolve(location, map, difference, side))
}

/// `discard LOC`.
pub(crate) fn discard(words: &[&[u8]]) -> Result<Command, LineStop>
    ensures ok { IfOk result (IsCommand verb.Discard (map (λ w. w.now) words.now)) }
    ensures err { IfErr result (IsStop (said_by (word_kinds verb.Discard) (map (λ w. w.now) words.now))) }
{
    let at = one_location(words)?;
    Ok(Command::Discard(at))
}

/// `clear LOC`.
pub(crate) fn clear(words: &[&[u8]]) -> Result<Command, LineStop>
    ensures ok { IfOk result (IsCommand verb.Clear (map (λ w. w.now) words.now)) }
    ensures err { IfErr result (IsStop (said_by (word_kinds verb.Clear) (map (λ w. w.now) words.now))) }
{
    let at = one_location(words)?;
    Ok(Command::Clear(at))
}
