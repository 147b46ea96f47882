//! Scripts.
ghost use Rattle.std.specs.Prelude.{◌≡◌, ◌<◌, ◌^◌, [], ◌∷◌, ◌++◌, List, length, IfOk, IfErr};
ghost use Rattle.script_lang.specs.Scripts.{asked_from, built, IsScript, IsScriptFault};
ghost use Rattle.script_lang.specs.Reading.{fault_at};
ghost use Rattle.script_lang.specs.declared.script_lines.Said.{Said};

use crate::programs::Program;
use crate::script_lines::{Said, line_says};
use crate::stops::LineStop;
use crate::verbs::Verb;
use crate::words::first_line;
use cell_world::items::Items;
use cell_world::memory::Memory;
use plain_model::commands::Asked;
use plain_model::finish::Reason;
use std::alloc::Global;
use thiserror::Error;

/// The commands that are built so far: no other word begins a command.
pub const BUILT: [Verb; 18] = [
    Verb::Map,
    Verb::Unmap,
    Verb::Shard,
    Verb::Unshard,
    Verb::Table,
    Verb::Add,
    Verb::Addpoint,
    Verb::Delete,
    Verb::Offline,
    Verb::Online,
    Verb::Move,
    Verb::Split,
    Verb::Merge,
    Verb::Lock,
    Verb::Unlock,
    Verb::Find,
    Verb::List,
    Verb::Shards,
];

/// The commands of a script, each with its session, in order.
#[derive(Drop)]
pub struct Script {
    pub lines: Items<Asked>,
}

/// Why bytes are no script.
#[derive(Debug, Drop, Clone, Copy, PartialEq, Eq, Error)]
pub enum ScriptFault {
    /// The number of the first faulty line, counted from 1, and why it is faulty.
    #[error("line {0} is faulty")]
    Line(u32, Reason),
    /// Want of memory.
    #[error("out of memory")]
    Memory,
}

/// The fault of a script whose line of this number isn't taken.
fn fault_at(number: u32, stop: LineStop) -> ScriptFault
    ensures { result ≡ fault_at number stop }
{
    match stop {
        LineStop::Faulty(reason) => ScriptFault::Line(number, reason),
        LineStop::Memory => ScriptFault::Memory,
    }
}

/// Takes a line into the commands asked so far. Answers the session of the lines behind it.
fn take_line(asked: &mut Items<Asked>, session: u32, says: Said) -> Result<u32, Memory>
    ensures { IfOk result (λ next. (more : List Said) → asked.old ++ asked_from session (says ∷ more) ≡ asked.new ++ asked_from next more) }
{
    match says {
        Said::Nothing => Ok(session),
        Said::Session(other) => Ok(other),
        Said::Command(command) => match asked.push(Asked { session, command }) {
            Ok(()) => Ok(session),
            Err(_) => Err(Memory),
        },
    }
}

/// Reads a script in which these commands are in force.
pub fn read_lines(
    alloc: Global,
    program: Program,
    in_force: &[Verb],
    bytes: &[u8],
) -> Result<Script, ScriptFault>
    requires { length bytes.now < 2 ^ 32 }
    ensures ok { IfOk result (λ script. IsScript program in_force.now bytes.now script.lines) }
    ensures err { IfErr result (IsScriptFault program in_force.now bytes.now) }
{
    let mut asked = Items::new(alloc);
    let mut session = 1;
    let mut number: u32 = 0;
    let mut rest = bytes;
    while !rest.is_empty() {
        number += 1;
        let line = first_line(rest);
        rest = line.behind;
        match line_says(alloc, program, in_force, line.text) {
            Ok(says) => match take_line(&mut asked, session, says) {
                Ok(next) => session = next,
                Err(Memory) => return Err(ScriptFault::Memory),
            },
            Err(stop) => return Err(fault_at(number, stop)),
        }
    }
    Ok(Script { lines: asked })
}

/// Reads the bytes of a script: its commands with their sessions, in order.
///
/// Lines end with a line feed, and the last may lack its end; README.md and docs/COMMANDS.md have the grammar. Takes time by the number of bytes. `Line` is the first faulty line, and after
/// it nothing was done; so too after `Memory`.
pub fn read_script(alloc: Global, program: Program, bytes: &[u8]) -> Result<Script, ScriptFault>
    requires { length bytes.now < 2 ^ 32 }
    ensures ok { IfOk result (λ script. IsScript program built bytes.now script.lines) }
    ensures err { IfErr result (IsScriptFault program built bytes.now) }
{
    read_lines(alloc, program, &BUILT, bytes)
}
