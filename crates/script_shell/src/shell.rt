//! The program `shardctl` over any world and any source: words, reading, script, opening, commands.
ghost use Rattle.std.specs.Prelude.{◌≡◌, [], map, IfOk, IfErr};
ghost use Rattle.std.specs.String.{string_bytes};
ghost use Rattle.script_shell.specs.Promises.{RunsScript, Completes};
ghost use Rattle.script_shell.specs.Reading.{IsReadScript, StopsReading, unopened};

use crate::run::run_core;
use cell_world::outside::{Source, World};
use manager_core::manager::Core;
use manager_core::opening::StartFault;
use plain_model::finish::{Finish, RunStatus};
use plain_model::history::History;
use script_lang::command_line::{WordsFault, read_words};
use script_lang::programs::Program;
use script_lang::reading::{ReadStop, read_all};
use script_lang::scripts::{Script, ScriptFault, read_script};
use std::alloc::Global;

/// How a run ended that asked nothing.
fn unstarted(alloc: Global, status: RunStatus) -> Finish
    ensures status { result.status ≡ status }
    ensures history { result.history ≡ [] }
{
    Finish {
        status,
        history: History::new(alloc),
    }
}

/// The script of a source.
fn script_of<S: Source>(
    alloc: Global,
    words: &Vec<String>,
    source: &mut S,
) -> Result<Script, RunStatus>
    ensures ok { IfOk result (λ script. IsReadScript (map string_bytes words.now.items) (S.left source.old) (S.left source.new) (S.faults source.old) (S.faults source.new) script.lines) }
    ensures err { IfErr result (λ status. StopsReading (map string_bytes words.now.items) (S.left source.old) (S.left source.new) (S.faults source.old) (S.faults source.new) status) }
{
    match read_words(alloc, words, Program::Ctl) {
        Ok(_words) => {}
        Err(WordsFault::At(place)) => return Err(RunStatus::BadWords(place)),
        Err(WordsFault::Memory) => return Err(RunStatus::Memory),
    }
    let bytes = match read_all(alloc, source) {
        Ok(bytes) => bytes,
        Err(ReadStop::Fault) => return Err(RunStatus::ReadFault),
        Err(ReadStop::TooLong) => return Err(RunStatus::TooLong),
        Err(ReadStop::Memory) => return Err(RunStatus::Memory),
    };
    match read_script(alloc, Program::Ctl, &bytes) {
        Ok(script) => Ok(script),
        Err(ScriptFault::Line(line, reason)) => Err(RunStatus::BadScript(line, reason)),
        Err(ScriptFault::Memory) => Err(RunStatus::Memory),
    }
}

/// The status of a run whose stores can't be opened.
fn unopened(fault: StartFault) -> RunStatus
    ensures { result ≡ unopened fault }
{
    match fault {
        StartFault::Store => RunStatus::StoreFault,
        StartFault::Memory => RunStatus::Memory,
        StartFault::UnknownLocation(location) => RunStatus::UnknownLocation(location),
    }
}

/// Reads the words and a script, opens the stores, and runs the commands in order.
///
/// It has no handle `Wait`, and it always returns: each turn of its reading but the last takes at least one byte, and
/// the turn that passes 1,048,576 bytes is the last.
pub fn run_script<W: World, S: Source>(
    alloc: Global,
    words: &Vec<String>,
    world: W,
    source: &mut S,
) -> (Finish, W)
    // From a sound image on: the stores are sound at each moment of the call, the history is legal, only what happened is written,
    // each command was asked once and in order, and the status has its cause.
    // Bad words are found before the source is touched, and for the statuses 2, 3 and 7 the world is handed back as it was.
    ensures promises { RunsScript (map string_bytes words.now.items) (S.left source.old) (S.left source.new) (S.faults source.old) (S.faults source.new)
        (W.outside world) (W.outside result.1) result.0.history result.0.status }
    // With accepted words, with a script that fits, and where no count rose, only want of memory or an unknown location keeps the script from being run to its end.
    ensures completes { Completes (map string_bytes words.now.items) (S.left source.old) (S.faults source.old) (S.faults source.new) (W.outside world) (W.outside result.1) result.0.status }
{
    let script = match script_of(alloc, words, source) {
        Ok(script) => script,
        Err(status) => return (unstarted(alloc, status), world),
    };
    let core = match Core::start(alloc, world, 1) {
        Ok(core) => core,
        Err((fault, world)) => return (unstarted(alloc, unopened(fault)), world),
    };
    run_core(alloc, core, script.lines.into_vec())
}
