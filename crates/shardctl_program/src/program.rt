//! The program over any words, input and output.
ghost use Rattle.std.specs.Prelude.{◌≡◌, ◌≤◌, IfOk, [], None, Some, length, map};
ghost use Rattle.std.specs.List.{IsDistinct};
ghost use Rattle.std.specs.String.{string_bytes};
ghost use Rattle.cell_world.specs.Images.{empty_image};
ghost use Rattle.cell_world.specs.Keys.{same};
ghost use Rattle.cell_world.specs.declared.limits.TheConstants.{MOST_LOCATIONS};
ghost use Rattle.script_lang.specs.declared.programs.Program.TheVariants.{Ctl};
ghost use Rattle.script_lang.specs.CommandLine.{options_built, SaysWords};
ghost use Rattle.script_lang.specs.Endings.{exit_status};
ghost use Rattle.world_memory.specs.Memory.{outside_of};
ghost use Rattle.world_memory.specs.Told.{fresh};
ghost use Rattle.shardctl_program.specs.Runs.{Ran, IsUnopened, RunsOver, RunsSaid, Runs};

use cell_world::locations::Location;
use cell_world::memory::Memory;
use cell_world::outside::{World, WorldError};
use plain_model::finish::RunStatus;
use script_lang::command_line::{Words, WordsFault, read_words};
use script_lang::endings::{exit_number, standard_error_line};
use script_lang::programs::Program;
use script_shell::shell::run_script;
use script_shell::std_source::{StdSource, SteadyRead};
use std::alloc::Global;
use std::io::Write;
use std::str;
use world_memory::world::MemoryWorld;
use world_sqlite::SqliteWorld;

/// A world without locations, in which nothing happened yet.
pub fn empty_world(alloc: Global) -> Result<MemoryWorld, Memory>
    ensures { IfOk result (λ world. outside_of world ≡ fresh [] (empty_image [])) }
{
    MemoryWorld::new(alloc, &[])
}

/// Runs a script over a world.
fn run_over<W: World + Drop, I: SteadyRead + Drop>(
    alloc: Global,
    words: &Vec<String>,
    world: W,
    input: I,
) -> RunStatus
    ensures { Ran (map string_bytes words.now.items) (I.remaining input) (W.outside world) result }
{
    let mut source = StdSource::new(input);
    let (finish, _world) = run_script(alloc, words, world, &mut source);
    finish.status
}

/// The status of a run whose stores can't be opened.
fn unopened(error: WorldError) -> RunStatus
    ensures { IsUnopened result }
{
    match error {
        WorldError::Failed => RunStatus::StoreFault,
        WorldError::Memory => RunStatus::Memory,
    }
}

/// Runs a script over empty stores in memory at these locations.
fn run_in_memory<I: SteadyRead + Drop, O: Write + Drop>(
    alloc: Global,
    words: &Vec<String>,
    locations: &[Location],
    input: I,
    output: O,
) -> RunStatus
    requires distinct { IsDistinct same locations.now }
    requires few { length locations.now ≤ MOST_LOCATIONS }
    ensures { RunsOver (map string_bytes words.now.items) None locations.now (I.remaining input) result }
{
    match SqliteWorld::in_memory(alloc, output, locations) {
        Ok(world) => run_over(alloc, words, world, input),
        Err(error) => unopened(error),
    }
}

/// Runs a script over the stores of these locations in the files of a folder.
fn run_at_folder<I: SteadyRead + Drop, O: Write + Drop>(
    rt: &HostRuntime,
    words: &Vec<String>,
    folder: &[u8],
    locations: &[Location],
    input: I,
    output: O,
) -> RunStatus
    requires distinct { IsDistinct same locations.now }
    requires few { length locations.now ≤ MOST_LOCATIONS }
    ensures { RunsOver (map string_bytes words.now.items) (Some folder.now) locations.now (I.remaining input) result }
{
    // the folder is a word, and so it is a text
    let Ok(folder) = str::from_utf8(folder) else {
        return RunStatus::StoreFault;
    };
    match SqliteWorld::at_folder(rt, folder, output, locations) {
        Ok(world) => run_over(rt.alloc(), words, world, input),
        Err(error) => unopened(error),
    }
}

/// Runs a script over the stores that the words name.
fn run_said<I: SteadyRead + Drop, O: Write + Drop>(
    rt: &HostRuntime,
    words: &Vec<String>,
    says: &Words,
    input: I,
    output: O,
) -> RunStatus
    requires says { SaysWords Ctl options_built (map string_bytes words.now.items) says.now }
    ensures { RunsSaid (map string_bytes words.now.items) (I.remaining input) result }
{
    let locations = says.locations.as_slice();
    match &says.folder {
        Some(folder) => run_at_folder(rt, words, folder.as_slice(), locations, input, output),
        None => run_in_memory(rt.alloc(), words, locations, input, output),
    }
}

/// Runs a script, and writes each reply when its command is done.
///
/// With `--store FOLDER` the stores are files, which stay; without it they are in memory, and gone at the end. Files
/// that aren't there are made before the script is read.
pub fn run<I: SteadyRead + Drop, O: Write + Drop>(
    rt: &HostRuntime,
    words: &Vec<String>,
    input: I,
    output: O,
) -> RunStatus
    // From the empty stores of the words on in memory, and from whatever the files of a folder hold: all that a run of a script promises.
    ensures { Runs (map string_bytes words.now.items) (I.remaining input) result }
{
    match read_words(rt.alloc(), words, Program::Ctl) {
        Ok(says) => run_said(rt, words, &says, input, output),
        Err(WordsFault::At(_)) => match empty_world(rt.alloc()) {
            Ok(world) => run_over(rt.alloc(), words, world, input),
            Err(Memory) => RunStatus::Memory,
        },
        Err(WordsFault::Memory) => RunStatus::Memory,
    }
}

/// Tells how a run ended, in one line for the statuses 2 to 8, and gives the exit status. Where memory or the
/// errors fail, the line is lost.
pub fn tell<E: Write>(alloc: Global, status: &RunStatus, errors: &mut E) -> u8
    ensures { result ≡ exit_status status.now }
{
    if let Ok(line) = standard_error_line(alloc, b"shardctl", status) {
        let _told = errors.write_all(line.as_slice());
    }
    exit_number(status)
}
