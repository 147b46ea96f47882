//! The words of the command line, and the place of the first that is bad.
use crate::rows::{repeated, row_of, rows_of};
use script_lang::command_line::{OPTIONS_BUILT, Options, WordsFault, read_with, read_words};
use script_lang::programs::Program;
use std::alloc::Global;
use std::test::Fail;

/// Both options in force.
const BOTH: Options = Options {
    store: true,
    workload: true,
};

/// No option in force.
const NEITHER: Options = Options {
    store: false,
    workload: false,
};

/// The place at which words are bad, of which one space stands between two; 0 where they are accepted.
fn place(alloc: Global, program: Program, options: Options, line: &[u8]) -> Result<u32, Fail> {
    let words = if line.is_empty() {
        Vec::new(alloc)
    } else {
        rows_of(alloc, line, b' ')?
    };
    match read_with(alloc, program, options, &words) {
        Ok(_) => Ok(0),
        Err(WordsFault::At(place)) => Ok(place),
        Err(WordsFault::Memory) => Err(Fail::from("out of memory")),
    }
}

/// Whether the words of each row are bad at its number, and accepted where that is 0.
fn all_are_told(
    alloc: Global,
    program: Program,
    options: Options,
    table: &[u8],
) -> Result<bool, Fail> {
    for text in &rows_of(alloc, table, b'\n')? {
        let row = row_of(text)?;
        if place(alloc, program, options, row.text)? != row.number {
            return Ok(false);
        }
    }
    Ok(true)
}

/// They are told so by both programs, whatever options are in force.
const WORDS_WITHOUT_OPTIONS: &[u8] = b"00 
00 s/a
00 s/a s/b S/a
02 s/a s/a
04 s/a s/b s/c s/b s/a
01 -x
01 --
02 s/a --
02 s/a -x
01 s
02 s/a  s/b
01 s/a/b
03 s/a s/b 
01 --help
01 s/\xff
01 \xff";

#[test]
fn words_without_options(rt: HostRuntime) -> Result<(), Fail> {
    let alloc = rt.alloc();
    assert!(rt; all_are_told(alloc, Program::Ctl, NEITHER, WORDS_WITHOUT_OPTIONS)?);
    assert!(rt; all_are_told(alloc, Program::Ctl, OPTIONS_BUILT, WORDS_WITHOUT_OPTIONS)?);
    assert!(rt; all_are_told(alloc, Program::Ctl, BOTH, WORDS_WITHOUT_OPTIONS)?);
    assert!(rt; all_are_told(alloc, Program::Mux, BOTH, WORDS_WITHOUT_OPTIONS)?);
    Ok(())
}

const STORE: &[u8] = b"--store f s/a";

const WORKLOAD: &[u8] = b"--workload 7 --count 1 s/a s/b";

const STORE_AND_WORKLOAD: &[u8] = b"--store f --workload 7 --count 1 s/a s/b";

/// The places of the three lists above, one after the other.
fn three_places(
    alloc: Global,
    program: Program,
    store: bool,
    workload: bool,
) -> Result<(u32, u32, u32), Fail> {
    let options = Options { store, workload };
    let by_store = place(alloc, program, options, STORE)?;
    let by_workload = place(alloc, program, options, WORKLOAD)?;
    let by_both = place(alloc, program, options, STORE_AND_WORKLOAD)?;
    Ok((by_store, by_workload, by_both))
}

/// Until an option is in force, its word is bad. In `shardmux` that of a workload always is.
#[test]
fn options_in_force(rt: HostRuntime) -> Result<(), Fail> {
    let alloc = rt.alloc();
    assert!(rt; three_places(alloc, Program::Ctl, false, false)? == (1, 1, 1));
    assert!(rt; three_places(alloc, Program::Ctl, true, false)? == (0, 1, 3));
    assert!(rt; three_places(alloc, Program::Ctl, false, true)? == (1, 0, 1));
    assert!(rt; three_places(alloc, Program::Ctl, true, true)? == (0, 0, 0));
    assert!(rt; three_places(alloc, Program::Mux, false, true)? == (1, 1, 1));
    assert!(rt; three_places(alloc, Program::Mux, true, true)? == (0, 1, 3));
    Ok(())
}

/// With both options in force, in both programs.
const WORDS_WITH_A_STORE: &[u8] = b"00 --store f
00 --store s/a
00 --store /srv/shards.d s/a s/b
02 --store
02 --store 
02 --store -f
02 --store --workload 7
01 --store=f
01 --store=f s/a
01 --Store f
01 -store f
03 --store f --store g
02 s/a --store f
04 --store f s/a s/a
04 --store f s/a -x";

#[test]
fn words_with_a_store(rt: HostRuntime) -> Result<(), Fail> {
    let alloc = rt.alloc();
    assert!(rt; all_are_told(alloc, Program::Ctl, BOTH, WORDS_WITH_A_STORE)?);
    assert!(rt; all_are_told(alloc, Program::Mux, BOTH, WORDS_WITH_A_STORE)?);
    assert!(rt; all_are_told(alloc, Program::Ctl, OPTIONS_BUILT, WORDS_WITH_A_STORE)?);
    let fits = repeated(alloc, b"--store ", b'f', 255, b" s/a")?;
    assert_eq!(rt; place(alloc, Program::Ctl, BOTH, &fits)?, 0);
    let long = repeated(alloc, b"--store ", b'f', 256, b" s/a")?;
    assert_eq!(rt; place(alloc, Program::Ctl, BOTH, &long)?, 2);
    Ok(())
}

/// With both options in force, in `shardctl`.
const WORDS_WITH_A_WORKLOAD: &[u8] = b"00 --workload 7 --count 1 s/a s/b
00 --workload 0 --count 2000 a/a a/b
00 --workload 18446744073709551615 --count 1 a/b a/a
00 --store f --workload 7 --count 1 s/a s/b
02 --workload
02 --workload x
02 --workload 18446744073709551616 --count 1 s/a s/b
02 --workload 07 --count 1 s/a s/b
02 --workload -7 --count 1 s/a s/b
03 --workload 7
03 --workload 7 s/a s/b
03 --workload 7 --counts 1
03 --workload 7 --count=1 s/a s/b
04 --workload 7 --count
04 --workload 7 --count 0 s/a s/b
04 --workload 7 --count 2001 s/a s/b
04 --workload 7 --count 01 s/a s/b
05 --workload 7 --count 1
06 --workload 7 --count 1 s/a
06 --workload 7 --count 1 a/a
06 --workload 7 --count 1 a/b
06 --workload 7 --count 1 s/a s/a
07 --workload 7 --count 1 s/a s/b s/b
05 --workload 7 --count 1 --store f s/a s/b
05 --workload 7 --count 1 --workload 7 --count 1 s/a s/b
01 --count 1 --workload 7 s/a s/b
01 --workload=7 --count 1 s/a s/b
08 --store f --workload 7 --count 1 s/a
06 --store f --workload 7 --count x s/a";

#[test]
fn words_with_a_workload(rt: HostRuntime) -> Result<(), Fail> {
    let alloc = rt.alloc();
    assert!(rt; all_are_told(alloc, Program::Ctl, BOTH, WORDS_WITH_A_WORKLOAD)?);
    Ok(())
}

/// What stands before locations, behind the place at which a list with 65 of them is bad.
const BEFORE_LOCATIONS: &[u8] = b"65 
67 --store f 
69 --workload 7 --count 1 
71 --store f --workload 7 --count 1 ";

/// So many locations, of which no two are one.
fn locations(alloc: Global, before: &[u8], count: u8) -> Result<Vec<u8>, Fail> {
    let mut line = Vec::new(alloc);
    line.extend_from_slice(before)?;
    for number in 0..count {
        if number != 0 {
            line.push(b' ')?;
        }
        line.push(b'0'.wrapping_add(number / 10))?;
        line.push(b'0'.wrapping_add(number % 10))?;
        line.extend_from_slice(b"/a")?;
    }
    Ok(line)
}

#[test]
fn how_many_locations(rt: HostRuntime) -> Result<(), Fail> {
    let alloc = rt.alloc();
    for text in &rows_of(alloc, BEFORE_LOCATIONS, b'\n')? {
        let row = row_of(text)?;
        let most = locations(alloc, row.text, 64)?;
        assert_eq!(rt; place(alloc, Program::Ctl, BOTH, &most)?, 0);
        let more = locations(alloc, row.text, 65)?;
        assert_eq!(rt; place(alloc, Program::Ctl, BOTH, &more)?, row.number);
        let many = locations(alloc, row.text, 90)?;
        assert_eq!(rt; place(alloc, Program::Ctl, BOTH, &many)?, row.number);
    }
    Ok(())
}

#[test]
fn parts_of_locations(rt: HostRuntime) -> Result<(), Fail> {
    let alloc = rt.alloc();
    let server = repeated(alloc, b"", b's', 64, b"/")?;
    let fits = repeated(alloc, &server, b'a', 64, b"")?;
    assert_eq!(rt; place(alloc, Program::Ctl, BOTH, &fits)?, 0);
    let database = repeated(alloc, &server, b'a', 65, b" s/a")?;
    assert_eq!(rt; place(alloc, Program::Ctl, BOTH, &database)?, 1);
    let long_server = repeated(alloc, b"s/a ", b's', 65, b"/a")?;
    assert_eq!(rt; place(alloc, Program::Ctl, BOTH, &long_server)?, 2);
    Ok(())
}

/// What the words say.
#[test]
fn what_words_say(rt: HostRuntime) -> Result<(), Fail> {
    let alloc = rt.alloc();
    let words = [
        b"--store".as_slice(),
        b"a folder".as_slice(),
        b"--workload".as_slice(),
        b"18446744073709551615".as_slice(),
        b"--count".as_slice(),
        b"2000".as_slice(),
        b"s/b".as_slice(),
        b"s/a".as_slice(),
    ];
    let says = read_with(alloc, Program::Ctl, BOTH, &words)
        .ok()
        .ok_or("bad words")?;
    let workload = says.workload.ok_or("no workload")?;
    assert_eq!(rt; workload.seed, u64::MAX);
    assert_eq!(rt; workload.count, 2_000);
    let folder = says.folder.ok_or("no folder")?;
    assert!(rt; folder.as_slice() == b"a folder".as_slice());
    let mut listed: Vec<u8> = Vec::new(alloc);
    for location in says.locations.as_slice() {
        listed.extend_from_slice(location.as_slice())?;
    }
    assert!(rt; listed.as_slice() == b"s/bs/a".as_slice());
    Ok(())
}

/// The words of a line, of which one space stands between two.
fn texts_of(alloc: Global, line: &str) -> Result<Vec<String>, Fail> {
    let mut words: Vec<String> = Vec::new(alloc);
    for word in line.split(' ') {
        words.push(format!(in alloc; "{word}")?)?;
    }
    Ok(words)
}

/// The place at which the public call finds words bad; 0 where it accepts them.
fn built_place(alloc: Global, program: Program, line: &str) -> Result<u32, Fail> {
    match read_words(alloc, &texts_of(alloc, line)?, program) {
        Ok(_) => Ok(0),
        Err(WordsFault::At(place)) => Ok(place),
        Err(WordsFault::Memory) => Err(Fail::from("out of memory")),
    }
}

/// The public call has the option of a store in force, and no other.
#[test]
fn the_words_of_a_program(rt: HostRuntime) -> Result<(), Fail> {
    let alloc = rt.alloc();
    for (line, wanted) in [
        ("s/a s/b", 0),
        ("--store f s/a s/b", 0),
        ("--store", 2),
        ("--store -f s/a", 2),
        ("s/a s/b --store f", 3),
        ("--store f s/a s/a", 4),
        ("--workload 7 --count 1 s/a s/b", 1),
        ("--store f --workload 7 --count 1 s/a s/b", 3),
    ] {
        assert!(rt; built_place(alloc, Program::Ctl, line)? == wanted, "{line}");
        assert!(rt; built_place(alloc, Program::Mux, line)? == wanted, "{line}");
    }
    let words = texts_of(alloc, "--store f s/a s/b")?;
    let says = read_words(alloc, &words, Program::Ctl)
        .ok()
        .ok_or("bad words")?;
    let folder = says.folder.ok_or("no folder")?;
    assert!(rt; folder.as_slice() == b"f".as_slice());
    assert_eq!(rt; says.locations.as_slice().len(), 2);
    Ok(())
}
