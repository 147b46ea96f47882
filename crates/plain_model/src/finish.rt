//! How a run ended.
use crate::history::History;
use cell_world::locations::Location;

/// Why a line of a script is faulty, in the order in which the reasons are looked for.
#[derive(Clone, Copy, Debug, PartialEq, Eq)]
pub enum Reason {
    /// It has more than 4,096 bytes.
    LongLine,
    /// A byte is neither a tab nor from space to `~`.
    BadByte,
    /// Its first word is no command.
    UnknownCommand,
    /// It is a `session` line, in a program with one session.
    SessionLine,
    /// It has too few words or too many.
    BadCount,
    /// The word of this number, from 1 with the command, is the first that isn't in its grammar.
    BadWord(u32),
}

/// How a run ended.
#[derive(Clone, Copy, PartialEq, Eq)]
pub enum RunStatus {
    /// Status 0: the script was run to its end, and no command was refused.
    Done,
    /// Status 1: the script was run to its end, and some reply was a refusal or `pending`.
    Refused,
    /// Status 2: the words of the command line are in no grammar from this place on, counted from 1. Nothing was done.
    BadWords(u32),
    /// Status 2: the first faulty line, counted from 1. Nothing was done.
    BadScript(u32, Reason),
    /// Status 3: the script couldn't be read. Nothing was done.
    ReadFault,
    /// Status 4: a reply couldn't be written. The run stopped there.
    WriteFault,
    /// Status 5: the stores couldn't be opened, or some reply was `fault`.
    StoreFault,
    /// Status 6: want of memory.
    Memory,
    /// Status 7: the script has more than 1,048,576 bytes. Nothing was done.
    TooLong,
    /// Status 8: the stores name a location that the world doesn't know. Nothing was done.
    UnknownLocation(Location),
}

/// How a run ended, and what was asked and answered in it.
#[derive(Drop)]
pub struct Finish {
    pub status: RunStatus,
    pub history: History,
}
