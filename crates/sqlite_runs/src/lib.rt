//! Runs of scripts over the world in memory, which must end so over `sqlite` in memory too.
#![tactic(auto)]

ghost use Rattle.std.specs.Prelude.{map};
ghost use Rattle.std.specs.String.{string_bytes};
ghost use Rattle.script_lang.specs.CommandLine.{SaysWords, options_built};
ghost use Rattle.script_lang.specs.declared.programs.Program.TheVariants.{Ctl};

use command_scripts::Line;
use plain_model::finish::RunStatus;
use script_lang::command_line::{Words, read_words};
use script_lang::programs::Program;
use script_runs::runs::{Ran, is, run_words};
use script_runs::told::{LOCATIONS, script_of};
use script_runs::worlds::words_in;
use script_shell::shell::run_script;
use std::alloc::Global;
use std::test::Fail;
use world_memory::source::MemorySource;
use world_sqlite::SqliteWorld;

/// How a script ended, and what it wrote.
#[derive(Drop)]
struct Ended {
    status: RunStatus,
    output: Vec<u8>,
}

/// Runs a script over empty stores of `sqlite` in memory, at the locations that the words name.
fn run_over_sqlite(
    alloc: Global,
    words: &Vec<String>,
    says: &Words,
    script: &[u8],
) -> Result<Ended, Fail>
    requires says { SaysWords Ctl options_built (map string_bytes words.now.items) says.now }
{
    let out: Vec<u8> = Vec::new(alloc);
    let world = SqliteWorld::in_memory(alloc, out, says.locations.as_slice())?;
    let mut source = MemorySource::new(script.to_vec(alloc)?);
    let (finish, world) = run_script(alloc, words, world, &mut source);
    Ok(Ended {
        status: finish.status,
        output: world.into_output(),
    })
}

/// Whether a script ends so over `sqlite` too, with these replies. Where the words are bad there is no world.
fn is_so_over_sqlite(
    alloc: Global,
    words: &Vec<String>,
    script: &[u8],
    ran: &Ran,
) -> Result<bool, Fail> {
    let Ok(says) = read_words(alloc, words, Program::Ctl) else {
        return Ok(true);
    };
    let ended = run_over_sqlite(alloc, words, &says, script)?;
    let output = ran.output(alloc)?;
    Ok(ended.status == ran.status && ended.output.as_slice() == output.as_slice())
}

/// Runs a script over empty stores at the locations of the line; over `sqlite` in memory it must end so too, with the
/// same replies.
pub fn run_at(alloc: Global, line: &str, script: &[u8]) -> Result<Ran, Fail> {
    let words = words_in(alloc, line)?;
    let ran = run_words(alloc, &words, script)?;
    if !is_so_over_sqlite(alloc, &words, script, &ran)? {
        return Err("over `sqlite` it ends otherwise".into());
    }
    Ok(ran)
}

/// Whether a script at the locations of the line has this status and writes this, over `sqlite` too.
pub fn ends_so(
    alloc: Global,
    line: &str,
    script: &[u8],
    status: RunStatus,
    output: &[u8],
) -> Result<bool, Fail> {
    let ran = run_at(alloc, line, script)?;
    is(alloc, &ran, status, output)
}

/// Runs the lines over empty stores, over `sqlite` too.
pub fn run_told(alloc: Global, lines: &[Line]) -> Result<Ran, Fail> {
    run_at(alloc, LOCATIONS, script_of(alloc, lines)?.as_slice())
}
