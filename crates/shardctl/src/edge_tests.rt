//! The edge of the program as tests: readers that fail, writers that fail or take little, and what is told of each end.
use cell_world::locations::Location;
use plain_model::finish::{Reason, RunStatus};
use script_lang::endings::standard_error_line;
use script_shell::std_source::SteadyRead;
use shardctl_program::program::{run, tell};
use std::alloc::Global;
use std::io;
use std::io::{ErrorKind, Read, Write};
use std::test::Fail;

/// A reader that gives at most so many bytes at once, and ends after the last one or fails there.
#[derive(Drop)]
struct Reader {
    left: &'static [u8],
    most: usize,
    fails: bool,
}

impl Read for Reader {
    fn read(&mut self, buffer: &mut [u8]) -> io::Result<usize> {
        let count = self.left.len().min(self.most).min(buffer.len());
        if count == 0 && self.fails {
            return Err(ErrorKind::Other.into());
        }
        buffer[..count].copy_from_slice(&self.left[..count]);
        self.left = &self.left[count..];
        Ok(count)
    }
}

// nothing is told of what is left
impl SteadyRead for Reader {
    ghost steady = { λ a b untold. untold };
}

/// A writer that takes at most so many bytes at once and so many in all. What is past them fails, or isn't taken.
#[derive(Drop)]
pub(crate) struct Writer {
    pub(crate) taken: Vec<u8>,
    most: usize,
    room: usize,
    fails: bool,
}

impl Write for Writer {
    fn write(&mut self, bytes: &[u8]) -> io::Result<usize> {
        let count = bytes.len().min(self.most).min(self.room);
        if count == 0 && self.fails {
            return Err(ErrorKind::Other.into());
        }
        if self.taken.extend_from_slice(&bytes[..count]).is_err() {
            return Err(ErrorKind::OutOfMemory.into());
        }
        self.room -= count;
        Ok(count)
    }

    fn flush(&mut self) -> io::Result<()> {
        Ok(())
    }
}

/// A writer that takes so many bytes, and then fails.
pub(crate) fn failing_after(alloc: Global, room: usize) -> Writer {
    Writer {
        taken: Vec::new(alloc),
        most: 1000,
        room,
        fails: true,
    }
}

/// A writer with room for all.
fn with_room(alloc: Global, most: usize) -> Writer {
    Writer {
        taken: Vec::new(alloc),
        most,
        room: 1000,
        fails: false,
    }
}

/// The program's exit status, what it wrote, and what it told.
#[derive(Drop)]
struct Ran {
    status: u8,
    output: Writer,
    errors: Writer,
}

/// Runs the program without words.
fn run_on(rt: &HostRuntime, input: Reader, output: Writer) -> Ran {
    run_with(rt, Vec::new(rt.alloc()), input, output)
}

/// Runs the program.
fn run_with(rt: &HostRuntime, words: Vec<String>, input: Reader, output: Writer) -> Ran {
    let mut output = output;
    let mut errors = with_room(rt.alloc(), 1000);
    let status = run(rt, &words, input, &mut output);
    let status = tell(rt.alloc(), &status, &mut errors);
    Ran {
        status,
        output,
        errors,
    }
}

/// Whether a run had this status, wrote this and told this.
fn is(ran: &Ran, status: u8, output: &[u8], told: &[u8]) -> bool {
    ran.status == status
        && ran.output.taken.as_slice() == output
        && ran.errors.taken.as_slice() == told
}

/// A reader of these bytes, all at once.
fn all(left: &'static [u8]) -> Reader {
    Reader {
        left,
        most: 1000,
        fails: false,
    }
}

/// A script of two commands, of which the second is refused.
const TWICE: &[u8] = b"map m range int\nmap m range int\n";

#[test]
fn each_end_has_its_status_and_its_line(rt: HostRuntime) {
    let alloc = rt.alloc();
    let done = run_on(&rt, all(b"map m range int\n"), with_room(alloc, 1000));
    assert!(rt; is(&done, 0, b"ok\n", b""));
    let empty = run_on(&rt, all(b""), with_room(alloc, 1000));
    assert!(rt; is(&empty, 0, b"", b""));
    let refused = run_on(&rt, all(TWICE), with_room(alloc, 1000));
    assert!(rt; is(&refused, 1, b"ok\nmap-exists\n", b""));
    let faulty = run_on(
        &rt,
        all(b"map m range int\nmap n\n"),
        with_room(alloc, 1000),
    );
    assert!(rt; is(&faulty, 2, b"", b"shardctl: bad script line 2: bad-count\n"));
}

#[test]
fn words_are_not_dropped(rt: HostRuntime) -> Result<(), Fail> {
    let alloc = rt.alloc();
    let mut words: Vec<String> = Vec::new(alloc);
    words.push(format!(in alloc; "x")?)?;
    let worded = run_with(&rt, words, all(TWICE), with_room(alloc, 1000));
    assert!(rt; is(&worded, 2, b"", b"shardctl: bad words at 1\n"));
    Ok(())
}

#[test]
fn a_read_error_is_not_the_end(rt: HostRuntime) {
    let alloc = rt.alloc();
    for (left, most) in [(b"".as_slice(), 1), (TWICE, 16), (TWICE, 5)] {
        let reader = Reader {
            left,
            most,
            fails: true,
        };
        let failed = run_on(&rt, reader, with_room(alloc, 1000));
        assert!(rt; is(&failed, 3, b"", b"shardctl: read fault\n"), "by {most}");
    }
}

#[test]
fn a_short_read_is_not_the_end(rt: HostRuntime) {
    let alloc = rt.alloc();
    for most in [1, 7, 16] {
        let reader = Reader {
            left: TWICE,
            most,
            fails: false,
        };
        let read = run_on(&rt, reader, with_room(alloc, 1000));
        assert!(rt; is(&read, 1, b"ok\nmap-exists\n", b""), "by {most}");
    }
}

#[test]
fn a_failed_write_is_told(rt: HostRuntime) {
    let alloc = rt.alloc();
    let front = b"ok\nma".as_slice();
    for (room, fails, taken) in [
        (0, true, b"".as_slice()),
        (0, false, b"".as_slice()),
        (5, true, front),
        (5, false, front),
    ] {
        let output = Writer {
            taken: Vec::new(alloc),
            most: 2,
            room,
            fails,
        };
        let failed = run_on(&rt, all(TWICE), output);
        assert!(rt;
            is(&failed, 4, taken, b"shardctl: write fault\n"),
            "room {room}"
        );
    }
}

#[test]
fn a_short_write_goes_on(rt: HostRuntime) {
    let alloc = rt.alloc();
    for most in [1, 2, 13] {
        let written = run_on(&rt, all(TWICE), with_room(alloc, most));
        assert!(rt; is(&written, 1, b"ok\nmap-exists\n", b""), "by {most}");
    }
}

#[test]
fn too_long_a_script_is_told(rt: HostRuntime) -> Result<(), Fail> {
    let alloc = rt.alloc();
    let script = vec![in alloc; b'x'; 1_048_577]?;
    let words: Vec<String> = Vec::new(alloc);
    let mut output = with_room(alloc, 1000);
    let status = run(&rt, &words, script.as_slice(), &mut output);
    assert!(rt; status == RunStatus::TooLong);
    assert!(rt; output.taken.is_empty());
    assert_eq!(rt; tell(alloc, &status, &mut output), 7);
    assert_eq!(rt;
        output.taken.as_slice(),
        b"shardctl: script too long\n".as_slice()
    );
    Ok(())
}

/// Whether a status is told by this line, which is empty for the statuses 0 and 1.
fn tells(alloc: Global, status: RunStatus, line: &[u8]) -> Result<bool, Fail> {
    let told = standard_error_line(alloc, b"shardctl", &status)?;
    Ok(told.as_slice() == line)
}

#[test]
fn each_status_is_told_in_one_line(rt: HostRuntime) -> Result<(), Fail> {
    let location = Location::read(b"s/a").ok_or("a location")?;
    for (status, line) in [
        (RunStatus::Done, b"".as_slice()),
        (RunStatus::Refused, b""),
        (RunStatus::BadWords(3), b"shardctl: bad words at 3\n"),
        (RunStatus::ReadFault, b"shardctl: read fault\n"),
        (RunStatus::WriteFault, b"shardctl: write fault\n"),
        (RunStatus::StoreFault, b"shardctl: store fault\n"),
        (RunStatus::Memory, b"shardctl: out of memory\n"),
        (RunStatus::TooLong, b"shardctl: script too long\n"),
        (
            RunStatus::UnknownLocation(location),
            b"shardctl: unknown location s/a\n",
        ),
    ] {
        assert!(rt; tells(rt.alloc(), status, line)?);
    }
    Ok(())
}

#[test]
fn each_reason_is_told_in_one_line(rt: HostRuntime) -> Result<(), Fail> {
    for (reason, text) in [
        (
            Reason::LongLine,
            b"shardctl: bad script line 7: long-line\n".as_slice(),
        ),
        (Reason::BadByte, b"shardctl: bad script line 7: bad-byte\n"),
        (
            Reason::UnknownCommand,
            b"shardctl: bad script line 7: unknown-command\n",
        ),
        (
            Reason::SessionLine,
            b"shardctl: bad script line 7: session-line\n",
        ),
        (
            Reason::BadCount,
            b"shardctl: bad script line 7: bad-count\n",
        ),
        (
            Reason::BadWord(2),
            b"shardctl: bad script line 7: bad-word 2\n",
        ),
    ] {
        assert!(rt; tells(rt.alloc(), RunStatus::BadScript(7, reason), text)?);
    }
    Ok(())
}
