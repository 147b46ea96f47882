//! The lines of every kind of reply.
use cell_world::cells::{KeyType, Status, Token};
use cell_world::items::{Items, RowBytes};
use cell_world::locations::Location;
use cell_world::names::Name;
use cell_world::norm_keys::NormKey;
use cell_world::operations::Piece;
use cell_world::spans::{High, Span};
use plain_model::replies::{Difference, Label, Reply};
use script_lang::replies::write_reply;
use std::alloc::Global;
use std::test::Fail;

/// Whether the lines of a reply are these.
pub(crate) fn writes(alloc: Global, tag: Option<u32>, reply: &Reply, lines: &[u8]) -> bool {
    match write_reply(alloc, tag, reply) {
        Ok(written) => written.as_slice() == lines,
        Err(_) => false,
    }
}

/// The key of an int from 0 to 255.
fn int(number: u8) -> Result<NormKey, Fail> {
    Ok(NormKey::of_bytes(&[0x80, 0, 0, number]).ok_or("a key")?)
}

fn location(text: &[u8]) -> Result<Location, Fail> {
    Ok(Location::read(text).ok_or("a location")?)
}

/// A mapping at `s/a`.
fn piece(span: Span, status: Status, token: Option<Token>) -> Result<Piece, Fail> {
    Ok(Piece {
        map: Name::read(b"m").ok_or("a name")?,
        span,
        location: location(b"s/a")?,
        status,
        token,
    })
}

#[test]
fn lines_of_one_word(rt: HostRuntime) -> Result<(), Fail> {
    let alloc = rt.alloc();
    assert!(rt; writes(alloc, None, &Reply::Ok, b"ok\n"));
    assert!(rt; writes(alloc, Some(1), &Reply::Ok, b"1 ok\n"));
    assert!(rt; writes(alloc, Some(16), &Reply::Ok, b"16 ok\n"));
    assert!(rt; writes(alloc, None, &Reply::Unknown, b"unknown\n"));
    assert!(rt; writes(alloc, None, &Reply::Fault, b"fault\n"));
    assert!(rt; writes(alloc, None, &Reply::Memory, b"memory\n"));
    assert!(rt; writes(alloc, Some(3), &Reply::Memory, b"3 memory\n"));
    Ok(())
}

#[test]
fn lines_with_a_number(rt: HostRuntime) -> Result<(), Fail> {
    let alloc = rt.alloc();
    assert!(rt; writes(alloc, None, &Reply::Discarded(0), b"discarded 0\n"));
    assert!(rt; writes(alloc, None, &Reply::Discarded(256), b"discarded 256\n"));
    assert!(rt; writes(alloc, None, &Reply::Job(4_294_967_294), b"job 4294967294\n"));
    assert!(rt; writes(alloc, None, &Reply::Done(1), b"done 1\n"));
    assert!(rt;
        writes(
            alloc,
            None,
            &Reply::Pending(9_223_372_036_854_775_807),
            b"pending 9223372036854775807\n"
        )
    );
    assert!(rt; writes(alloc, Some(2), &Reply::Pending(1), b"2 pending 1\n"));
    Ok(())
}

#[test]
fn mappings(rt: HostRuntime) -> Result<(), Fail> {
    let alloc = rt.alloc();
    let range = Span::Range(int(0)?, High::At(int(10)?));
    let one = piece(range, Status::Online, None)?;
    assert!(rt;
        writes(
            alloc,
            None,
            &Reply::Mapping(KeyType::Int, one),
            b"0 10 s/a online\n"
        )
    );
    let open = Span::Range(int(10)?, High::Max);
    let token = Some(Token(0x1000_0000_0000_0000_0000_0000_0000_00ff));
    let locked = piece(open, Status::Offline, token)?;
    assert!(rt;
        writes(
            alloc,
            Some(12),
            &Reply::Mapping(KeyType::Int, locked),
            b"12 10 max s/a offline 10000000-0000-0000-0000-0000000000ff\n"
        )
    );
    let at = piece(Span::Point(int(7)?), Status::Online, None)?;
    assert!(rt;
        writes(
            alloc,
            None,
            &Reply::Mapping(KeyType::Int, at),
            b"7 s/a online\n"
        )
    );
    Ok(())
}

#[test]
fn lists_of_mappings(rt: HostRuntime) -> Result<(), Fail> {
    let alloc = rt.alloc();
    assert!(rt;
        writes(
            alloc,
            Some(1),
            &Reply::Mappings(KeyType::Int, Items::new(alloc)),
            b"1 mappings 0\n"
        )
    );
    let mut two = Items::new(alloc);
    two.push(piece(Span::Point(int(1)?), Status::Online, None)?)
        .ok()
        .ok_or("memory")?;
    two.push(piece(Span::Point(int(2)?), Status::Offline, None)?)
        .ok()
        .ok_or("memory")?;
    assert!(rt;
        writes(
            alloc,
            Some(2),
            &Reply::Mappings(KeyType::Int, two),
            b"2 mappings 2\n2 1 s/a online\n2 2 s/a offline\n"
        )
    );
    Ok(())
}

#[test]
fn shards_and_locations(rt: HostRuntime) -> Result<(), Fail> {
    let alloc = rt.alloc();
    assert!(rt;
        writes(
            alloc,
            None,
            &Reply::Shards(Items::new(alloc)),
            b"shards 0\n"
        )
    );
    let mut two = Items::new(alloc);
    two.push(location(b"s/a")?).ok().ok_or("memory")?;
    two.push(location(b"s/b")?).ok().ok_or("memory")?;
    assert!(rt;
        writes(
            alloc,
            Some(3),
            &Reply::Shards(two),
            b"3 shards 2\n3 s/a\n3 s/b\n"
        )
    );
    assert!(rt; writes(alloc, None, &Reply::At(location(b"s/a")?), b"at s/a\n"));
    Ok(())
}

#[test]
fn rows(rt: HostRuntime) -> Result<(), Fail> {
    let alloc = rt.alloc();
    let empty = RowBytes::from_vec(Vec::new(alloc)).ok_or("a row")?;
    assert!(rt; writes(alloc, None, &Reply::Row(empty), b"row 0x\n"));
    let two = RowBytes::from_vec(vec![in alloc; 0xAB; 2]?).ok_or("a row")?;
    assert!(rt; writes(alloc, Some(1), &Reply::Row(two), b"1 row 0xabab\n"));
    Ok(())
}

#[test]
fn what_a_cache_knows(rt: HostRuntime) -> Result<(), Fail> {
    let alloc = rt.alloc();
    let range = Span::Range(int(0)?, High::Max);
    let at = location(b"s/a")?;
    assert!(rt;
        writes(
            alloc,
            None,
            &Reply::Known(KeyType::Int, range, at, 3),
            b"known 0 max s/a 3\n"
        )
    );
    assert!(rt;
        writes(
            alloc,
            None,
            &Reply::Known(KeyType::Int, Span::Point(int(5)?), at, 0),
            b"known 5 s/a 0\n"
        )
    );
    Ok(())
}

#[test]
fn differences(rt: HostRuntime) -> Result<(), Fail> {
    let alloc = rt.alloc();
    assert!(rt;
        writes(
            alloc,
            None,
            &Reply::Differences(KeyType::Int, Items::new(alloc)),
            b"differences 0\n"
        )
    );
    let mut three = Items::new(alloc);
    three
        .push(Difference {
            span: Span::Range(int(0)?, High::At(int(5)?)),
            label: Label::GlobalOnly,
            global: Some(Status::Online),
            shard: None,
        })
        .ok()
        .ok_or("memory")?;
    three
        .push(Difference {
            span: Span::Range(int(5)?, High::Max),
            label: Label::ShardOnly,
            global: None,
            shard: Some(Status::Offline),
        })
        .ok()
        .ok_or("memory")?;
    three
        .push(Difference {
            span: Span::Point(int(9)?),
            label: Label::Both,
            global: Some(Status::Offline),
            shard: Some(Status::Online),
        })
        .ok()
        .ok_or("memory")?;
    assert!(rt;
        writes(
            alloc,
            Some(4),
            &Reply::Differences(KeyType::Int, three),
            b"4 differences 3\n4 0 5 global-only online -\n4 5 max shard-only - offline\n4 9 both offline online\n"
        )
    );
    Ok(())
}

/// A key of each type.
#[test]
fn cursors(rt: HostRuntime) -> Result<(), Fail> {
    let alloc = rt.alloc();
    let zeros = NormKey::of_bytes(&[0, 0, 0, 0]).ok_or("a key")?;
    assert!(rt;
        writes(
            alloc,
            None,
            &Reply::Cursor(KeyType::Int, zeros),
            b"cursor -2147483648\n"
        )
    );
    let long = NormKey::of_bytes(&[0x7f, 255, 255, 255, 255, 255, 255, 255]).ok_or("a key")?;
    assert!(rt;
        writes(
            alloc,
            None,
            &Reply::Cursor(KeyType::Long, long),
            b"cursor -1\n"
        )
    );
    assert!(rt;
        writes(
            alloc,
            None,
            &Reply::Cursor(KeyType::Timespan, long),
            b"cursor -1\n"
        )
    );
    let ticks = NormKey::of_bytes(&[0, 0, 0, 0, 0, 0, 1, 0]).ok_or("a key")?;
    assert!(rt;
        writes(
            alloc,
            None,
            &Reply::Cursor(KeyType::Datetime, ticks),
            b"cursor 256\n"
        )
    );
    let guid = NormKey::of_bytes(&[0, 0, 0, 0, 0, 1, 0, 0, 0, 0, 0, 0, 0, 0, 0, 16]).ok_or(
        "a key",
    )?;
    assert!(rt;
        writes(
            alloc,
            None,
            &Reply::Cursor(KeyType::Guid, guid),
            b"cursor 10000000-0000-0000-0000-000000000001\n"
        )
    );
    let bytes = NormKey::of_bytes(&[0xAB, 1]).ok_or("a key")?;
    assert!(rt;
        writes(
            alloc,
            Some(5),
            &Reply::Cursor(KeyType::Bytes, bytes),
            b"5 cursor 0xab01\n"
        )
    );
    Ok(())
}
