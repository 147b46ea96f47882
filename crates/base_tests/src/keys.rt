//! The table of worked keys.
use cell_world::cells::KeyType;
use key_space::faults::KeyFault;
use key_space::reading::read_key;
use key_space::writing::write_key;
use std::alloc::Global;
use std::test::Fail;

/// Whether the text stands for the key with this normal form.
fn reads(kind: KeyType, text: &[u8], form: &[u8]) -> bool {
    if text.len() > 1000 {
        return false;
    }
    match read_key(kind, text) {
        Ok(key) => key.normal().as_slice() == form,
        Err(_) => false,
    }
}

/// Whether reading the text ends in this fault.
fn refuses(kind: KeyType, text: &[u8], fault: KeyFault) -> bool {
    if text.len() > 1000 {
        return false;
    }
    match read_key(kind, text) {
        Ok(_) => false,
        Err(found) => found == fault,
    }
}

/// Whether the key of the text is printed so.
fn prints(alloc: Global, kind: KeyType, text: &[u8], printed: &[u8]) -> Result<bool, Fail> {
    if text.len() > 1000 {
        return Ok(false);
    }
    let Ok(key) = read_key(kind, text) else {
        return Ok(false);
    };
    match write_key(alloc, &key) {
        Ok(found) => Ok(found.as_slice() == printed),
        Err(_) => Ok(false),
    }
}

/// The guid of the table, with one byte changed.
fn guid_but(place: usize, byte: u8) -> [u8; 36] {
    let mut text = *b"10000000-0000-0000-0000-000000000001";
    if place < 36 {
        text[place] = byte;
    }
    text
}

#[test]
fn worked_keys(rt: HostRuntime) -> Result<(), Fail> {
    let int = KeyType::Int;
    assert!(rt; reads(int, b"5", &[0x80, 0, 0, 5]));
    assert!(rt; reads(int, b"100", &[0x80, 0, 0, 0x64]));
    assert!(rt; reads(int, b"-1", &[0x7f, 0xff, 0xff, 0xff]));
    assert!(rt; reads(int, b"-2147483648", &[0, 0, 0, 0]));
    assert!(rt; refuses(int, b"2147483648", KeyFault::OutOfRange));
    assert!(rt; refuses(int, b"01", KeyFault::NotInGrammar(1)));
    assert!(rt; refuses(int, b"-0", KeyFault::NotInGrammar(1)));
    assert!(rt; refuses(int, b"x", KeyFault::NotInGrammar(0)));
    assert!(rt; refuses(int, b"", KeyFault::NotInGrammar(0)));
    assert!(rt; refuses(int, &[b'7'; 400], KeyFault::OutOfRange));
    assert!(rt; reads(KeyType::Long, b"5", &[0x80, 0, 0, 0, 0, 0, 0, 5]));
    assert!(rt; reads(KeyType::Timespan, b"-9223372036854775808", &[0; 8]));
    let datetime = KeyType::Datetime;
    let last = [0x2b, 0xca, 0x28, 0x75, 0xf4, 0x37, 0x3f, 0xff];
    assert!(rt; reads(datetime, b"3155378975999999999", &last));
    assert!(rt; refuses(datetime, b"3155378976000000000", KeyFault::OutOfRange));
    assert!(rt; refuses(datetime, b"-1", KeyFault::NotInGrammar(0)));
    let guid = KeyType::Guid;
    let form = [0, 0, 0, 0, 0, 1, 0, 0, 0, 0, 0, 0, 0, 0, 0, 0x10];
    assert!(rt; reads(guid, &guid_but(36, 0), &form));
    for place in 0..36 {
        assert!(rt;
            refuses(
                guid,
                &guid_but(place, b'x'),
                KeyFault::NotInGrammar(place as u32)
            )
        );
    }
    assert!(rt;
        refuses(
            guid,
            b"{10000000-0000-0000-0000-000000000001}",
            KeyFault::NotInGrammar(0)
        )
    );
    let bytes = KeyType::Bytes;
    assert!(rt; reads(bytes, b"0x0100", &[1]));
    assert!(rt; reads(bytes, b"0x", &[]));
    assert!(rt; refuses(bytes, b"0x0", KeyFault::NotInGrammar(3)));
    let mut long = [b'f'; 260];
    long[0] = b'0';
    long[1] = b'x';
    assert!(rt; reads(bytes, &long[..258], &[0xff; 128]));
    assert!(rt; refuses(bytes, &long, KeyFault::TooLong));
    Ok(())
}

#[test]
fn printed_keys(rt: HostRuntime) -> Result<(), Fail> {
    assert!(rt; prints(rt.alloc(), KeyType::Int, b"-2147483648", b"-2147483648")?);
    assert!(rt;
        prints(
            rt.alloc(),
            KeyType::Long,
            b"-9223372036854775808",
            b"-9223372036854775808"
        )?
    );
    assert!(rt;
        prints(
            rt.alloc(),
            KeyType::Timespan,
            b"9223372036854775807",
            b"9223372036854775807"
        )?
    );
    assert!(rt; prints(rt.alloc(), KeyType::Datetime, b"0", b"0")?);
    assert!(rt; prints(rt.alloc(), KeyType::Bytes, b"0xABcd0000", b"0xabcd")?);
    assert!(rt; prints(rt.alloc(), KeyType::Bytes, b"0x00", b"0x")?);
    assert!(rt;
        prints(
            rt.alloc(),
            KeyType::Guid,
            b"ABCDEF01-2345-6789-aBcD-0123456789Ab",
            b"abcdef01-2345-6789-abcd-0123456789ab"
        )?
    );
    Ok(())
}
