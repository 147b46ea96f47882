//! Each command: its right words, one too few, one too many, and each of its words out of its grammar.
use crate::rows::{repeated, rows_of, told};
use script_lang::programs::Program;
use std::alloc::Global;
use std::test::Fail;

/// A line of each command, with every word that it may have.
const LONGEST: &[u8] = b"map m range int
unmap m
shard m s/a
unshard m s/a
table m t
add m 0 10 s/a
addpoint m 1 s/a
delete m 1 10000000-0000-0000-0000-000000000000
offline m 1 10000000-0000-0000-0000-000000000000
online m 1 10000000-0000-0000-0000-000000000000
move m 1 s/b 10000000-0000-0000-0000-000000000000
split m 1 10000000-0000-0000-0000-000000000000
merge m 1 10000000-0000-0000-0000-000000000000
lock m 1 10000000-0000-0000-0000-000000000000
unlock m 1 10000000-0000-0000-0000-000000000000
find m 1
list m
shards m
open 1 m 1
close 1
put 1 t 1 0x00ff
get 1 t 1
del 1 t 1
peek m 1
detach s/a
attach s/a
differences s/a m
resolve s/a m 1 shard
discard s/a
clear s/a
job m 0 10 s/a 100
step 1
run 1";

/// A line of each command, without the words that may be absent.
const SHORTEST: &[u8] = b"map m range int
unmap m
shard m s/a
unshard m s/a
table m t
add m 0 10 s/a
addpoint m 1 s/a
delete m 1
offline m 1
online m 1
move m 1 s/b
split m 1
merge m 1
lock m 1 10000000-0000-0000-0000-000000000000
unlock m 1 10000000-0000-0000-0000-000000000000
find m 1
list m
shards m
open 1 m 1
close 1
put 1 t 1 0x00ff
get 1 t 1
del 1 t 1
peek m 1
detach s/a
attach s/a
differences s/a m
resolve s/a m 1 shard
discard s/a
clear s/a
job m 0 10 s/a 100
step 1
run 1";

/// How many words a line has, which have one space between them.
fn words_in(line: &[u8]) -> u32 {
    let mut words = 1u32;
    for byte in line {
        if *byte == b' ' {
            words = words.wrapping_add(1);
        }
    }
    words
}

/// The first so many words of a line.
fn front(alloc: Global, line: &[u8], words: u32) -> Result<Vec<u8>, Fail> {
    let mut kept = Vec::new(alloc);
    let mut at = 1u32;
    for byte in line {
        if *byte == b' ' {
            at = at.wrapping_add(1);
        }
        if at <= words {
            kept.push(*byte)?;
        }
    }
    Ok(kept)
}

/// The line with another word in the place of this number, which isn't the first.
fn with_word(alloc: Global, line: &[u8], place: u32, word: &[u8]) -> Result<Vec<u8>, Fail> {
    let mut changed = Vec::new(alloc);
    let mut at = 1u32;
    for byte in line {
        if *byte == b' ' {
            at = at.wrapping_add(1);
            changed.push(b' ')?;
            if at == place {
                changed.extend_from_slice(word)?;
            }
        } else if at != place {
            changed.push(*byte)?;
        }
    }
    Ok(changed)
}

/// Whether each line of these is one command. Answers how many there are.
fn each_is_a_command(alloc: Global, lines: &[u8]) -> Result<u32, Fail> {
    let mut commands = 0u32;
    for line in &rows_of(alloc, lines, b'\n')? {
        if told(alloc, Program::Ctl, line)? != (b'=', 1) {
            return Err(Fail::from("a line with right words is refused"));
        }
        if told(alloc, Program::Mux, line)? != (b'=', 1) {
            return Err(Fail::from("a line with right words is refused in shardmux"));
        }
        commands = commands.wrapping_add(1);
    }
    Ok(commands)
}

#[test]
fn right_words(rt: HostRuntime) -> Result<(), Fail> {
    assert_eq!(rt; each_is_a_command(rt.alloc(), LONGEST)?, 33);
    assert_eq!(rt; each_is_a_command(rt.alloc(), SHORTEST)?, 33);
    Ok(())
}

#[test]
fn one_word_too_few(rt: HostRuntime) -> Result<(), Fail> {
    let alloc = rt.alloc();
    for line in &rows_of(alloc, SHORTEST, b'\n')? {
        let less = front(alloc, line, words_in(line).wrapping_sub(1))?;
        assert!(rt; told(alloc, Program::Ctl, &less)? == (b'C', 1));
    }
    Ok(())
}

#[test]
fn one_word_too_many(rt: HostRuntime) -> Result<(), Fail> {
    let alloc = rt.alloc();
    for line in &rows_of(alloc, LONGEST, b'\n')? {
        let more = repeated(alloc, line, b' ', 1, b"m")?;
        assert!(rt; told(alloc, Program::Ctl, &more)? == (b'C', 1));
    }
    Ok(())
}

/// Whether the word of each place behind the first is told, where it isn't in its grammar: it alone, and with all words behind it.
fn each_place_is_told(alloc: Global, line: &[u8], bad: &[u8]) -> Result<bool, Fail> {
    let words = words_in(line);
    let mut all = front(alloc, line, words)?;
    for before in 0..words.wrapping_sub(1) {
        let place = words.wrapping_sub(before);
        let one = with_word(alloc, line, place, bad)?;
        all = with_word(alloc, &all, place, bad)?;
        if told(alloc, Program::Ctl, &one)? != (b'W', place) {
            return Ok(false);
        }
        if told(alloc, Program::Ctl, &all)? != (b'W', place) {
            return Ok(false);
        }
    }
    Ok(true)
}

/// A word of 301 bytes is in no grammar.
#[test]
fn each_word_out_of_its_grammar(rt: HostRuntime) -> Result<(), Fail> {
    let alloc = rt.alloc();
    let bad = repeated(alloc, b"", b'x', 301, b"")?;
    for line in &rows_of(alloc, LONGEST, b'\n')? {
        assert!(rt; each_place_is_told(alloc, line, &bad)?);
    }
    Ok(())
}
