//! Lines of a script.
ghost use Rattle.std.specs.Prelude.{◌≡◌, ◌<◌, [], ◌∷◌, length, map, Ok, Err, IfOk, IfErr, IsTrue};
ghost use Rattle.std.specs.List.{list_all};
ghost use Rattle.script_lang.specs.Commands.{word_kinds, said_by, IsCommand};
ghost use Rattle.script_lang.specs.Reading.{IsStop};
ghost use Rattle.script_lang.specs.Scripts.{meaning_of, is_comment, session_means, words_mean, line_means};
ghost use Rattle.script_lang.specs.declared.script_lines.Said.TheVariants as said;
ghost use Rattle.script_lang.specs.Words.{is_line_byte};

use crate::numbers::session_at;
use crate::programs::Program;
use crate::stops::LineStop;
use crate::verbs::{Verb, verb_in};
use crate::words::words_in;
use crate::{job_commands, map_commands, mapping_commands, row_commands, site_commands};
use plain_model::commands::Command;
use plain_model::finish::Reason;
use std::alloc::Global;

/// The most bytes of a line, without its end.
const LINE_BYTES: usize = 4_096;

/// What a line of a script says.
#[derive(Drop)]
pub(crate) enum Said {
    /// The line is skipped.
    Nothing,
    /// The commands after it belong to this session, from 1 to 16.
    Session(u32),
    Command(Command),
}

/// The command of a first word and the words behind it.
fn command_of(alloc: Global, verb: Verb, words: &[&[u8]]) -> Result<Command, LineStop>
    ensures ok { IfOk result (IsCommand verb (map (λ w. w.now) words.now)) }
    ensures err { IfErr result (IsStop (said_by (word_kinds verb) (map (λ w. w.now) words.now))) }
{
    match verb {
        Verb::Map => map_commands::map(words),
        Verb::Unmap => map_commands::unmap(words),
        Verb::Shard => map_commands::shard(words),
        Verb::Unshard => map_commands::unshard(words),
        Verb::Table => map_commands::table(words),
        Verb::Add => mapping_commands::add(words),
        Verb::Addpoint => mapping_commands::addpoint(words),
        Verb::Delete => mapping_commands::delete(words),
        Verb::Offline => mapping_commands::offline(words),
        Verb::Online => mapping_commands::online(words),
        Verb::Move => mapping_commands::move_mapping(words),
        Verb::Split => mapping_commands::split(words),
        Verb::Merge => mapping_commands::merge(words),
        Verb::Lock => mapping_commands::lock(words),
        Verb::Unlock => mapping_commands::unlock(words),
        Verb::Find => mapping_commands::find(words),
        Verb::List => map_commands::list(words),
        Verb::Shards => map_commands::shards(words),
        Verb::Open => row_commands::open(words),
        Verb::Close => row_commands::close(words),
        Verb::Put => row_commands::put(alloc, words),
        Verb::Get => row_commands::get(words),
        Verb::Del => row_commands::del(words),
        Verb::Peek => row_commands::peek(words),
        Verb::Detach => site_commands::detach(words),
        Verb::Attach => site_commands::attach(words),
        Verb::Differences => site_commands::differences(words),
        Verb::Resolve => site_commands::resolve(words),
        Verb::Discard => site_commands::discard(words),
        Verb::Clear => site_commands::clear(words),
        Verb::Job => job_commands::job(words),
        Verb::Step => job_commands::step(words),
        Verb::Run => job_commands::run(words),
    }
}

/// The number of a `session` line's words.
fn session_of(program: Program, words: &[&[u8]]) -> Result<u32, Reason>
    ensures ok { IfOk result (λ n. session_means program (map (λ w. w.now) words.now) ≡ Ok (meaning_of (said.Session n))) }
    ensures err { IfErr result (λ reason. session_means program (map (λ w. w.now) words.now) ≡ Err reason) }
{
    match program {
        Program::Ctl => Err(Reason::SessionLine),
        Program::Mux => match words {
            [session] => session_at(session, 2),
            _ => Err(Reason::BadCount),
        },
    }
}

fn is_comment(word: &[u8]) -> bool
    ensures { result ≡ is_comment word.now }
{
    matches!(word, [b'#', ..])
}

/// What the words of a line say.
fn words_say(
    alloc: Global,
    program: Program,
    in_force: &[Verb],
    words: &[&[u8]],
) -> Result<Said, LineStop>
    ensures ok { IfOk result (λ says. words_mean program in_force.now (map (λ w. w.now) words.now) ≡ Ok (meaning_of says)) }
    ensures err { IfErr result (IsStop (words_mean program in_force.now (map (λ w. w.now) words.now))) }
{
    let [first, behind @ ..] = words else {
        return Ok(Said::Nothing);
    };
    if is_comment(first) {
        return Ok(Said::Nothing);
    }
    if *first == b"session".as_slice() {
        let session = session_of(program, behind)?;
        return Ok(Said::Session(session));
    }
    let Some(verb) = verb_in(in_force, first) else {
        return Err(LineStop::Faulty(Reason::UnknownCommand));
    };
    match command_of(alloc, verb, behind) {
        Ok(command) => Ok(Said::Command(command)),
        Err(stop) => Err(stop),
    }
}

fn is_line_byte(byte: u8) -> bool
    ensures { result ≡ is_line_byte byte }
{
    matches!(byte, b' '..=b'~' | b'\t')
}

fn all_line_bytes(line: &[u8]) -> bool
    ensures { result ≡ list_all is_line_byte line.now }
{
    line.iter().all(|byte| is_line_byte(*byte))
}

/// What a line says.
#[tactic(auto, unfolding(crate::specs::Scripts::line_means))]
pub(crate) fn line_says(
    alloc: Global,
    program: Program,
    in_force: &[Verb],
    line: &[u8],
) -> Result<Said, LineStop>
    ensures ok { IfOk result (λ says. line_means program in_force.now line.now ≡ Ok (meaning_of says)) }
    ensures err { IfErr result (IsStop (line_means program in_force.now line.now)) }
{
    if line.len() > LINE_BYTES {
        return Err(LineStop::Faulty(Reason::LongLine));
    }
    if !all_line_bytes(line) {
        return Err(LineStop::Faulty(Reason::BadByte));
    }
    let words = words_in(alloc, line)?;
    words_say(alloc, program, in_force, &words)
}
