//! How a status is told to the one who ran the program: the exit status, and a line on standard error.
ghost use Rattle.std.specs.Prelude.{◌≡◌, ◌++◌, codes, decimal, IfOk, OnOk, is_some, unwrap_or, []};
ghost use Rattle.plain_model.specs.Lines.{reason_text, status_text, error_line};
ghost use Rattle.script_lang.specs.Endings.{exit_status};

use crate::adding::{add, add_number};
use cell_world::memory::Memory;
use plain_model::finish::{Reason, RunStatus};
use std::alloc::Global;

/// The exit status.
pub fn exit_number(status: &RunStatus) -> u8
    ensures { result ≡ exit_status status.now }
{
    match *status {
        RunStatus::Done => 0,
        RunStatus::Refused => 1,
        RunStatus::BadWords(_) | RunStatus::BadScript(_, _) => 2,
        RunStatus::ReadFault => 3,
        RunStatus::WriteFault => 4,
        RunStatus::StoreFault => 5,
        RunStatus::Memory => 6,
        RunStatus::TooLong => 7,
        RunStatus::UnknownLocation(_) => 8,
    }
}

/// Adds why a line is faulty.
fn add_reason(alloc: Global, line: &mut Vec<u8>, reason: Reason) -> Result<(), Memory>
    ensures { OnOk result (line.new.items ≡ line.old.items ++ reason_text reason) }
{
    match reason {
        Reason::LongLine => add(line, b"long-line"),
        Reason::BadByte => add(line, b"bad-byte"),
        Reason::UnknownCommand => add(line, b"unknown-command"),
        Reason::SessionLine => add(line, b"session-line"),
        Reason::BadCount => add(line, b"bad-count"),
        Reason::BadWord(number) => {
            add(line, b"bad-word ")?;
            add_number(alloc, line, u64::from(number))
        }
    }
}

/// Adds what is said of a faulty line of a script.
fn add_faulty(alloc: Global, line: &mut Vec<u8>, number: u32, reason: Reason) -> Result<(), Memory>
    ensures { OnOk result (line.new.items ≡ line.old.items ++ (codes "bad script line " ++ decimal number ++ codes ": " ++ reason_text reason)) }
{
    add(line, b"bad script line ")?;
    add_number(alloc, line, u64::from(number))?;
    add(line, b": ")?;
    add_reason(alloc, line, reason)
}

/// Whether something is said of a status: not of the statuses 0 and 1.
#[tactic(auto, unfolding(plain_model::specs::Lines::status_text))]
fn is_told(status: &RunStatus) -> bool
    ensures { result ≡ is_some (status_text status.now) }
{
    !matches!(*status, RunStatus::Done | RunStatus::Refused)
}

/// Adds what is said of a status; nothing of the statuses 0 and 1.
#[tactic(auto, unfolding(plain_model::specs::Lines::status_text))]
fn add_status(alloc: Global, line: &mut Vec<u8>, status: &RunStatus) -> Result<(), Memory>
    ensures { OnOk result (line.new.items ≡ line.old.items ++ unwrap_or (status_text status.now) []) }
{
    match *status {
        RunStatus::Done | RunStatus::Refused => Ok(()),
        RunStatus::BadWords(place) => {
            add(line, b"bad words at ")?;
            add_number(alloc, line, u64::from(place))
        }
        RunStatus::BadScript(number, reason) => add_faulty(alloc, line, number, reason),
        RunStatus::ReadFault => add(line, b"read fault"),
        RunStatus::WriteFault => add(line, b"write fault"),
        RunStatus::StoreFault => add(line, b"store fault"),
        RunStatus::Memory => add(line, b"out of memory"),
        RunStatus::TooLong => add(line, b"script too long"),
        RunStatus::UnknownLocation(location) => {
            add(line, b"unknown location ")?;
            add(line, location.as_slice())
        }
    }
}

/// Adds the line on standard error of a program.
fn add_line(
    alloc: Global,
    line: &mut Vec<u8>,
    program: &[u8],
    status: &RunStatus,
) -> Result<(), Memory>
    ensures { OnOk result (line.new.items ≡ line.old.items ++ (program.now ++ (codes ": " ++ (unwrap_or (status_text status.now) [] ++ codes "\n")))) }
{
    add(line, program)?;
    add(line, b": ")?;
    add_status(alloc, line, status)?;
    add(line, b"\n")
}

/// The line on standard error of a program; nothing of the statuses 0 and 1.
pub fn standard_error_line(
    alloc: Global,
    program: &[u8],
    status: &RunStatus,
) -> Result<Vec<u8>, Memory>
    ensures { IfOk result (λ line. line.items ≡ error_line program.now status.now) }
{
    let mut line = Vec::new(alloc);
    if is_told(status) {
        add_line(alloc, &mut line, program, status)?;
    }
    Ok(line)
}
