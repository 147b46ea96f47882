//! Each kind of word at its limits and one past them.
use crate::rows::{repeated, row_of, rows_of, told};
use script_lang::programs::Program;
use std::alloc::Global;
use std::test::Fail;

/// Whether each line is told as its row says: `00=` where it has no fault, else the number of its bad word and `W`. The program is the one with sessions.
fn all_are_told(alloc: Global, table: &[u8]) -> Result<bool, Fail> {
    for text in &rows_of(alloc, table, b'\n')? {
        let row = row_of(text)?;
        let found = told(alloc, Program::Mux, row.text)?;
        if row.letter == b'=' && found.0 != b'=' {
            return Ok(false);
        }
        if row.letter != b'=' && found != (row.letter, row.number) {
            return Ok(false);
        }
    }
    Ok(true)
}

const NAMES: &[u8] = b"00=unmap a
00=unmap Z
00=unmap aB_9
00=unmap max
02Wunmap 1a
02Wunmap _a
02Wunmap a-b
02Wunmap a.b
02Wunmap @
02Wunmap [
02Wunmap `
02Wunmap {
02Wtable a/ t
03Wtable a 0t";

#[test]
fn names(rt: HostRuntime) -> Result<(), Fail> {
    let alloc = rt.alloc();
    assert!(rt; all_are_told(alloc, NAMES)?);
    let fits = repeated(alloc, b"unmap ", b'a', 32, b"")?;
    assert!(rt; told(alloc, Program::Mux, &fits)?.0 == b'=');
    let long = repeated(alloc, b"unmap ", b'a', 33, b"")?;
    assert!(rt; told(alloc, Program::Mux, &long)? == (b'W', 2));
    Ok(())
}

const LOCATIONS: &[u8] = b"00=detach s/a
00=detach 0/0
00=detach S-._9/A-._9
02Wdetach s
02Wdetach /
02Wdetach /a
02Wdetach s/
02Wdetach s/a/b
02Wdetach s//a
02Wdetach -s/a
02Wdetach s/-a
02Wdetach .s/a
02Wdetach s/_a
02Wdetach s/a:";

#[test]
fn locations(rt: HostRuntime) -> Result<(), Fail> {
    let alloc = rt.alloc();
    assert!(rt; all_are_told(alloc, LOCATIONS)?);
    let longest = repeated(alloc, b"detach ", b's', 64, b"/")?;
    let fits = repeated(alloc, &longest, b'a', 64, b"")?;
    assert!(rt; told(alloc, Program::Mux, &fits)?.0 == b'=');
    let behind = repeated(alloc, &longest, b'a', 65, b"")?;
    assert!(rt; told(alloc, Program::Mux, &behind)? == (b'W', 2));
    let before = repeated(alloc, b"detach ", b's', 65, b"/a")?;
    assert!(rt; told(alloc, Program::Mux, &before)? == (b'W', 2));
    Ok(())
}

const KEYS: &[u8] = b"00=find m !
00=find m ~
00=find m #
00=find m max
00=add m max max s/a
00=job m max 1 s/a 1";

#[test]
fn keys(rt: HostRuntime) -> Result<(), Fail> {
    let alloc = rt.alloc();
    assert!(rt; all_are_told(alloc, KEYS)?);
    let key = repeated(alloc, b"find m ", b'k', 300, b"")?;
    assert!(rt; told(alloc, Program::Mux, &key)?.0 == b'=');
    let long_key = repeated(alloc, b"find m ", b'k', 301, b"")?;
    assert!(rt; told(alloc, Program::Mux, &long_key)? == (b'W', 3));
    let high = repeated(alloc, b"add m 0 ", b'k', 300, b" s/a")?;
    assert!(rt; told(alloc, Program::Mux, &high)?.0 == b'=');
    let long_high = repeated(alloc, b"add m 0 ", b'k', 301, b" s/a")?;
    assert!(rt; told(alloc, Program::Mux, &long_high)? == (b'W', 4));
    Ok(())
}

const LISTED_WORDS: &[u8] = b"00=map m list int
00=map m range long
00=map m range guid
00=map m range bytes
00=map m range datetime
00=map m range timespan
03Wmap m Range int
03Wmap m ranges int
04Wmap m list Int
04Wmap m list ints
00=resolve s/a m 1 shard
00=resolve s/a m 1 global
05Wresolve s/a m 1 Shard
05Wresolve s/a m 1 local";

#[test]
fn listed_words(rt: HostRuntime) -> Result<(), Fail> {
    let alloc = rt.alloc();
    assert!(rt; all_are_told(alloc, LISTED_WORDS)?);
    Ok(())
}

const SMALL_NUMBERS: &[u8] = b"00=close 1
00=close 64
02Wclose 0
02Wclose 65
02Wclose 01
02Wclose 00
02Wclose +1
02Wclose -1
02Wclose 1x
02Wclose 1.0
02Wclose 4294967297
02Wclose 18446744073709551617
00=session 1
00=session 16
02Wsession 0
02Wsession 17
00=job m 0 1 s/a 1
00=job m 0 1 s/a 100000
06Wjob m 0 1 s/a 0
06Wjob m 0 1 s/a 100001
06Wjob m 0 1 s/a 0100";

#[test]
fn small_numbers(rt: HostRuntime) -> Result<(), Fail> {
    let alloc = rt.alloc();
    assert!(rt; all_are_told(alloc, SMALL_NUMBERS)?);
    Ok(())
}

const LARGE_NUMBERS: &[u8] = b"00=step 1
00=step 4294967295
02Wstep 0
02Wstep 4294967296
02Wstep 04294967295
00=resolve s/a m 4294967295 shard
04Wresolve s/a m 4294967296 shard
04Wresolve s/a m 0 shard
00=get 1 t 0
00=get 1 t 18446744073709551615
04Wget 1 t 18446744073709551616
04Wget 1 t 18446744073709551625
04Wget 1 t 184467440737095516150
04Wget 1 t 00
04Wget 1 t 01
04Wget 1 t -0
04Wget 1 t +1";

#[test]
fn large_numbers(rt: HostRuntime) -> Result<(), Fail> {
    let alloc = rt.alloc();
    assert!(rt; all_are_told(alloc, LARGE_NUMBERS)?);
    let nines = repeated(alloc, b"get 1 t ", b'9', 4_088, b"")?;
    assert!(rt; told(alloc, Program::Mux, &nines)? == (b'W', 4));
    Ok(())
}

/// Tokens below 2^64 are those of jobs.
const TOKENS: &[u8] = b"00=lock m 1 00000000-0000-0001-0000-000000000000
00=lock m 1 ffffffff-ffff-ffff-ffff-ffffffffffff
00=lock m 1 ABCDEFab-cdef-0123-4567-89aBcDeF0123
04Wlock m 1 00000000-0000-0000-ffff-ffffffffffff
04Wlock m 1 00000000-0000-0000-0000-000000000000
04Wlock m 1 10000000-0000-0000-0000-00000000000
04Wlock m 1 10000000-0000-0000-0000-0000000000000
04Wlock m 1 10000000-0000-0000-0000-00000000000g
04Wlock m 1 1000000-00000-0000-0000-000000000000
04Wlock m 1 10000000000000000000000000000000
04Wlock m 1 {10000000-0000-0000-0000-000000000000}
04Wlock m 1 1000000000000000000000000000000000aa
00=delete m 1 00000000-0000-0001-0000-000000000000
04Wdelete m 1 00000000-0000-0000-ffff-ffffffffffff
05Wmove m 1 s/a 00000000-0000-0000-ffff-ffffffffffff";

#[test]
fn tokens(rt: HostRuntime) -> Result<(), Fail> {
    let alloc = rt.alloc();
    assert!(rt; all_are_told(alloc, TOKENS)?);
    Ok(())
}

const ROW_VALUES: &[u8] = b"00=put 1 t 1 0x
00=put 1 t 1 0x00
00=put 1 t 1 0xaBcDeF09
05Wput 1 t 1 0x0
05Wput 1 t 1 0x000
05Wput 1 t 1 0X00
05Wput 1 t 1 00
05Wput 1 t 1 0
05Wput 1 t 1 x00
05Wput 1 t 1 0xg0
05Wput 1 t 1 0x0g
05Wput 1 t 1 0x-1";

#[test]
fn row_values(rt: HostRuntime) -> Result<(), Fail> {
    let alloc = rt.alloc();
    assert!(rt; all_are_told(alloc, ROW_VALUES)?);
    let fits = repeated(alloc, b"put 1 t 1 0x", b'f', 2_048, b"")?;
    assert!(rt; told(alloc, Program::Mux, &fits)?.0 == b'=');
    let odd = repeated(alloc, b"put 1 t 1 0x", b'f', 2_049, b"")?;
    assert!(rt; told(alloc, Program::Mux, &odd)? == (b'W', 5));
    let long = repeated(alloc, b"put 1 t 1 0x", b'f', 2_050, b"")?;
    assert!(rt; told(alloc, Program::Mux, &long)? == (b'W', 5));
    Ok(())
}
