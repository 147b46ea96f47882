//! Lines and their ends, comments, sessions, and which reason comes first.
use crate::rows::{repeated, row_of, rows_of, told};
use plain_model::finish::Reason;
use script_lang::programs::Program;
use script_lang::scripts::{ScriptFault, read_script};
use std::alloc::Global;
use std::test::Fail;

/// Scripts without `session` lines, each between two `|`, behind what is told of it: a number, and `=` for commands, or the letter of a reason.
const SCRIPTS: &[u8] =
    b"00=|00=\n|00=\r\n|00=#\n#x\n # y\n\t#\tz\n#|00= \t \n\n\t\n|01=list m|01=list m\n|01=list m\r\n|01=\tlist\t \tm \t\r\n|02=list m\nlist m|03=list m\r\nlist m\nlist m|02=\nlist m\n\n# c\nlist m\n|01Ufrob|02Ulist m\nfrob\nfrob|04U\n# c\n\t\r\nfrob|01Clist\nfrob|02Clist m\nlist|01Blist m\r\r\n|01Blist m\rlist m\n|02Blist m\n\r|01Blist m\r|01B\r|01B\r\r|01Blist \x1f|01Blist \x7f|01Blist \x80|01Blist \x00|01Blist \xff|01B# \x1f|01B# \x7f|01B# \x80|01Bfrob \x80|02B#\n \x7f|01UList m|01Ulistm|01Ulis|01Umax|01Ufrob a b c d e f g|01Usessions 1|01Ufrob\n\x80|01=list m\n#!~ \t";

#[test]
fn scripts(rt: HostRuntime) -> Result<(), Fail> {
    let alloc = rt.alloc();
    for text in &rows_of(alloc, SCRIPTS, b'|')? {
        let row = row_of(text)?;
        let wanted = (row.letter, row.number);
        assert!(rt; told(alloc, Program::Ctl, row.text)? == wanted);
        assert!(rt; told(alloc, Program::Mux, row.text)? == wanted);
    }
    Ok(())
}

/// Scripts with `session` lines, in the program with sessions.
const SESSIONS: &[u8] =
    b"00=session 1|01=session 16\nlist m|03=list m\nsession 2\nlist m\nsession 2\nlist m|02Wsession 0|02Wsession 17|02Wsession 01|02Wsession x|02Wsession -1|01Csession|01Csession 1 1|00=\tsession\t2\r\n|01=# session 17\nlist m|01USession 1";

/// In the program without sessions such a line is a fault, whatever its words are.
const WITHOUT_SESSIONS: &[u8] =
    b"01Ssession|01Ssession 0|01Ssession 1|01Ssession 16|01Ssession 17|01Ssession 1 1|02Slist m\nsession 1|01=# session 1\nlist m|01Bsession \x80";

#[test]
fn sessions(rt: HostRuntime) -> Result<(), Fail> {
    let alloc = rt.alloc();
    for text in &rows_of(alloc, SESSIONS, b'|')? {
        let row = row_of(text)?;
        assert!(rt; told(alloc, Program::Mux, row.text)? == (row.letter, row.number));
    }
    for text in &rows_of(alloc, WITHOUT_SESSIONS, b'|')? {
        let row = row_of(text)?;
        assert!(rt; told(alloc, Program::Ctl, row.text)? == (row.letter, row.number));
    }
    Ok(())
}

/// What may stand behind a line.
const BEHIND: &[u8] = b"|\n|\r\n|\nlist m";

/// Whether lines of these bytes are long from 4,097 bytes on.
fn is_long_from_the_limit_on(alloc: Global, byte: u8, behind: &[u8]) -> Result<bool, Fail> {
    let fits = repeated(alloc, b"", byte, 4_096, behind)?;
    let long = repeated(alloc, b"", byte, 4_097, behind)?;
    let second = repeated(alloc, b"\n", byte, 4_097, behind)?;
    let is_fine = told(alloc, Program::Ctl, &fits)?.0 == b'=';
    let is_long = told(alloc, Program::Ctl, &long)? == (b'L', 1);
    Ok(is_fine && is_long && told(alloc, Program::Ctl, &second)? == (b'L', 2))
}

/// A line has at most 4,096 bytes without its end; comments too.
#[test]
fn long_lines(rt: HostRuntime) -> Result<(), Fail> {
    let alloc = rt.alloc();
    for behind in &rows_of(alloc, BEHIND, b'|')? {
        assert!(rt; is_long_from_the_limit_on(alloc, b'#', behind)?);
        assert!(rt; is_long_from_the_limit_on(alloc, b' ', behind)?);
        assert!(rt; is_long_from_the_limit_on(alloc, b'\t', behind)?);
    }
    Ok(())
}

/// The bytes of a long line aren't looked at, and a carriage return is a byte of the line where no line feed is behind it.
#[test]
fn long_commands(rt: HostRuntime) -> Result<(), Fail> {
    let alloc = rt.alloc();
    let bytes = repeated(alloc, b"", b'\x80', 4_097, b"\n")?;
    assert!(rt; told(alloc, Program::Ctl, &bytes)? == (b'L', 1));
    let fits = repeated(alloc, b"list m", b' ', 4_090, b"\r\n")?;
    assert!(rt; told(alloc, Program::Ctl, &fits)? == (b'=', 1));
    let long = repeated(alloc, b"list m", b' ', 4_091, b"\r\n")?;
    assert!(rt; told(alloc, Program::Ctl, &long)? == (b'L', 1));
    let unended = repeated(alloc, b"list m", b' ', 4_090, b"\r")?;
    assert!(rt; told(alloc, Program::Ctl, &unended)? == (b'L', 1));
    Ok(())
}

#[test]
fn the_commands_that_are_built(rt: HostRuntime) -> Result<(), Fail> {
    let alloc = rt.alloc();
    assert!(rt; read_script(alloc, Program::Ctl, b"map m range int\nunmap m\n").is_ok());
    let fault = read_script(alloc, Program::Ctl, b"map m range int\nrun 1\n").err();
    assert_eq!(rt; fault, Some(ScriptFault::Line(2, Reason::UnknownCommand)));
    Ok(())
}
