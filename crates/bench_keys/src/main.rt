//! Reads and prints many keys: `bench_keys TYPE COUNT`, where TYPE is int, long, guid, datetime, timespan, bytes30 or bytes258. Writes a checksum of what it printed.
#![tactic(auto)]

use anyhow::{Context, Error, bail};
use cell_world::cells::KeyType;
use key_space::reading::read_key;
use key_space::writing::write_key;
use std::alloc::Global;
use std::env;

/// A text of a key of the type named, and how long it is. The last byte is a digit, for the loop to change.
fn text_of(name: &str) -> Option<(KeyType, [u8; 258], usize)> {
    let mut text = [b'7'; 258];
    text[0] = b'0';
    text[1] = b'x';
    match name {
        "bytes30" => Some((KeyType::Bytes, text, 30)),
        "bytes258" => Some((KeyType::Bytes, text, 258)),
        "int" => {
            text[..10].copy_from_slice(b"1234567890");
            Some((KeyType::Int, text, 10))
        }
        "long" => {
            text[..19].copy_from_slice(b"1234567890123456789");
            Some((KeyType::Long, text, 19))
        }
        "timespan" => {
            text[..19].copy_from_slice(b"1234567890123456789");
            Some((KeyType::Timespan, text, 19))
        }
        "datetime" => {
            text[..19].copy_from_slice(b"1234567890123456789");
            Some((KeyType::Datetime, text, 19))
        }
        "guid" => {
            text[..36].copy_from_slice(b"01234567-89ab-cdef-0123-456789abcdef");
            Some((KeyType::Guid, text, 36))
        }
        _ => None,
    }
}

/// The checksum with the printed text of the key that the text stands for.
fn with_key(alloc: Global, sum: u64, kind: KeyType, text: &[u8]) -> Result<u64, Error> {
    if text.len() > 258 {
        bail!("the text is too long");
    }
    let Ok(key) = read_key(kind, text) else {
        bail!("the text is no key");
    };
    let Ok(printed) = write_key(alloc, &key) else {
        bail!("out of memory");
    };
    let last = match printed.as_slice() {
        [.., last] => *last,
        [] => 0,
    };
    let long = printed.len() as u64;
    Ok(
        sum.wrapping_mul(31)
            .wrapping_add(long)
            .wrapping_add(u64::from(last)),
    )
}

/// The checksum of so many keys.
fn checksum(alloc: Global, name: &str, count: u64) -> Result<u64, Error> {
    let (kind, mut text, long) = text_of(name).context("no such type")?;
    let mut sum = 0u64;
    for i in 0..count {
        if 0 < long && long <= 258 {
            text[long - 1] = b'0' + (i % 10) as u8;
            sum = with_key(alloc, sum, kind, &text[..long])?;
        }
    }
    Ok(sum)
}

fn main(rt: HostRuntime) -> Result<(), Error> {
    let mut words = env::args(&rt)?;
    let _program = words.next();
    let name = words.next().context("TYPE COUNT")?;
    let count = words.next().context("TYPE COUNT")?;
    let count = count.parse::<u64>().context("COUNT is no number")?;
    let sum = checksum(rt.alloc(), name.as_str(), count)?;
    println!(rt; "{sum}")?;
    Ok(())
}
