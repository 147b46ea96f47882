//! The lines of a script, and the words of a line.
ghost use Rattle.std.specs.Prelude.{◌≡◌, ◌<◌, ◌++◌, ◌∷◌, [], length, map, OnOk, IfOk};
ghost use Rattle.std.specs.List.{position, filter};
ghost use Rattle.std.specs.Str.Lines.{lines, strip_carriage_return};
ghost use Rattle.script_lang.specs.Words.{is_line_feed, is_blank, has_bytes, words};

use cell_world::memory::Memory;
use std::alloc::Global;

/// The first line of some bytes, without its end, and what is behind it.
#[derive(Clone, Copy)]
pub(crate) struct Line<'a> {
    pub(crate) text: &'a [u8],
    pub(crate) behind: &'a [u8],
}

fn line_feed_at(bytes: &[u8]) -> Option<usize>
    ensures { result ≡ position is_line_feed bytes.now }
{
    bytes.iter().position(|byte| *byte == b'\n')
}

/// A line without the one carriage return at its end.
fn without_return(line: &[u8]) -> &[u8]
    ensures { result.now ≡ strip_carriage_return line.now }
{
    match line {
        [front @ .., b'\r'] => front,
        _ => line,
    }
}

/// The first line.
pub(crate) fn first_line(bytes: &[u8]) -> Line<'_>
    requires { 0 < length bytes.now }
    ensures first { lines bytes.now ≡ result.text.now ∷ lines result.behind.now }
    ensures shorter { length result.behind.now < length bytes.now }
{
    match line_feed_at(bytes) {
        Some(at) => Line {
            text: without_return(&bytes[..at]),
            behind: &bytes[at + 1..],
        },
        None => Line {
            text: bytes,
            behind: &bytes[bytes.len()..],
        },
    }
}

fn blank_at(line: &[u8]) -> Option<usize>
    ensures { result ≡ position is_blank line.now }
{
    line.iter().position(|byte| *byte == b' ' || *byte == b'\t')
}

/// Adds a word, unless it is empty.
fn add_word<'a>(words: &mut Vec<&'a [u8]>, word: &'a [u8]) -> Result<(), Memory>
    ensures { OnOk result (map (λ w. w.now) words.new.items ≡ map (λ w. w.now) words.old.items ++ filter has_bytes (word.now ∷ [])) }
{
    if word.is_empty() {
        return Ok(());
    }
    match words.push(word) {
        Ok(()) => Ok(()),
        Err(_) => Err(Memory),
    }
}

/// The words of a line.
pub(crate) fn words_in<'a>(alloc: Global, line: &'a [u8]) -> Result<Vec<&'a [u8]>, Memory>
    ensures { IfOk result (λ found. map (λ w. w.now) found.items ≡ words line.now) }
{
    let mut found = Vec::new(alloc);
    let mut rest = line;
    while let Some(at) = blank_at(rest) {
        add_word(&mut found, &rest[..at])?;
        rest = &rest[at + 1..];
    }
    add_word(&mut found, rest)?;
    Ok(found)
}
