//! The rows of tables, which are written as texts, and what the calls under test tell.
use plain_model::finish::Reason;
use script_lang::programs::Program;
use script_lang::scripts::{ScriptFault, read_lines};
use script_lang::verbs::ALL;
use std::alloc::Global;
use std::test::Fail;

/// A row: a number of two digits, a letter, and what is behind them.
#[derive(Clone, Copy)]
pub(crate) struct Row<'a> {
    pub(crate) number: u32,
    pub(crate) letter: u8,
    pub(crate) text: &'a [u8],
}

/// The texts between these bytes.
pub(crate) fn rows_of(alloc: Global, table: &[u8], between: u8) -> Result<Vec<&[u8]>, Fail> {
    let mut rows = Vec::new(alloc);
    for row in table.split(|byte| *byte == between) {
        rows.push(row)?;
    }
    Ok(rows)
}

/// The row that a text is: two digits, a letter, and a text.
pub(crate) fn row_of(row: &[u8]) -> Result<Row<'_>, Fail> {
    let [tens, ones, letter, text @ ..] = row else {
        return Err(Fail::from("no row"));
    };
    let tens = u32::from(tens.wrapping_sub(b'0'));
    let ones = u32::from(ones.wrapping_sub(b'0'));
    Ok(Row {
        number: tens.wrapping_mul(10).wrapping_add(ones),
        letter: *letter,
        text,
    })
}

/// How many commands a script has, by every command, or its fault.
pub(crate) fn count(alloc: Global, program: Program, bytes: &[u8]) -> Result<usize, ScriptFault> {
    if bytes.len() > 100_000 {
        return Err(ScriptFault::Memory);
    }
    match read_lines(alloc, program, &ALL, bytes) {
        Ok(script) => Ok(script.lines.as_slice().len()),
        Err(fault) => Err(fault),
    }
}

/// What is told of a script, as a letter and a number: `=` and how many commands it has; or by its reason `L` for a long line, `B` for a bad byte, `U` for an unknown command, `S` for a `session` line, `C` for a bad count,
/// each with the number of the line; or `W` with the number of the word, where the first line is faulty.
pub(crate) fn told(alloc: Global, program: Program, script: &[u8]) -> Result<(u8, u32), Fail> {
    match count(alloc, program, script) {
        Ok(commands) => Ok((b'=', u32::try_from(commands)?)),
        Err(ScriptFault::Line(line, reason)) => letter_of(line, reason),
        Err(ScriptFault::Memory) => Err(Fail::from("out of memory")),
    }
}

fn letter_of(line: u32, reason: Reason) -> Result<(u8, u32), Fail> {
    match reason {
        Reason::LongLine => Ok((b'L', line)),
        Reason::BadByte => Ok((b'B', line)),
        Reason::UnknownCommand => Ok((b'U', line)),
        Reason::SessionLine => Ok((b'S', line)),
        Reason::BadCount => Ok((b'C', line)),
        Reason::BadWord(word) => {
            if line == 1 {
                Ok((b'W', word))
            } else {
                Err(Fail::from("another line"))
            }
        }
    }
}

/// Bytes, a byte so many times, and bytes.
pub(crate) fn repeated(
    alloc: Global,
    before: &[u8],
    byte: u8,
    times: u32,
    behind: &[u8],
) -> Result<Vec<u8>, Fail> {
    let mut line = Vec::new(alloc);
    line.extend_from_slice(before)?;
    for _ in 0..times {
        line.push(byte)?;
    }
    line.extend_from_slice(behind)?;
    Ok(line)
}
