//! The limits at their numbers and one past, and the calls that take memory.
use cell_world::cells::{Cell, CellKey, KeyType, MapKind};
use cell_world::changes::{Change, Edit};
use cell_world::items::{Items, RowBytes};
use cell_world::key_texts::KeyText;
use cell_world::locations::Location;
use cell_world::names::Name;
use cell_world::norm_keys::NormKey;
use cell_world::spans::{High, Span};
use std::test::Fail;

#[test]
fn texts_at_their_limits(rt: HostRuntime) {
    let bytes = [b'a'; 301];
    assert!(rt; Name::read(&bytes[..32]).is_some());
    assert!(rt; Name::read(&bytes[..33]).is_none());
    assert!(rt; KeyText::read(&bytes[..300]).is_some());
    assert!(rt; KeyText::read(&bytes).is_none());
    assert!(rt; NormKey::of_bytes(&bytes[..128]).is_some());
    assert!(rt; NormKey::of_bytes(&bytes[..129]).is_none());
}

#[test]
fn locations_at_their_limits(rt: HostRuntime) {
    let mut bytes = [b'a'; 131];
    bytes[64] = b'/';
    assert!(rt; Location::read(&bytes[..129]).is_some());
    assert!(rt; Location::read(&bytes[..130]).is_none());
    bytes[64] = b'a';
    bytes[65] = b'/';
    assert!(rt; Location::read(&bytes[..130]).is_none());
}

#[test]
fn rows_at_their_limit(rt: HostRuntime) -> Result<(), Fail> {
    let bytes = [7u8; 1025];
    let most = Vec::from_slice(rt.alloc(), &bytes[..1024])?;
    let row = RowBytes::from_vec(most).ok_or("1,024 bytes are a row")?;
    let copy = row.copied(rt.alloc())?;
    assert!(rt; copy.as_slice() == &bytes[..1024]);
    let more = Vec::from_slice(rt.alloc(), &bytes)?;
    assert!(rt; RowBytes::from_vec(more).is_none());
    Ok(())
}

#[test]
fn items_stand_in_order(rt: HostRuntime) -> Result<(), Fail> {
    let mut items = Items::new(rt.alloc());
    items.push(3u8)?;
    items.push(5)?;
    assert!(rt; items.as_slice() == [3, 5].as_slice());
    Ok(())
}

#[test]
fn edits_stand_in_order(rt: HostRuntime) -> Result<(), Fail> {
    let name = Name::read(b"orders").ok_or("a name")?;
    let mut change = Change::empty(rt.alloc());
    change.put(Cell::Map(name, MapKind::Range, KeyType::Int))?;
    change.delete(CellKey::Map(name))?;
    match change.as_slice() {
        [
            Edit::Put(Cell::Map(put, MapKind::Range, KeyType::Int)),
            Edit::Delete(CellKey::Map(deleted)),
        ] => {
            assert!(rt; put.as_slice() == b"orders".as_slice());
            assert!(rt; deleted.as_slice() == b"orders".as_slice());
        }
        _ => assert!(rt; false, "a put and a delete"),
    }
    Ok(())
}

#[test]
fn spans_that_touch_are_apart(rt: HostRuntime) -> Result<(), Fail> {
    let one = NormKey::of_bytes(b"1").ok_or("a key")?;
    let two = NormKey::of_bytes(b"2").ok_or("a key")?;
    let three = NormKey::of_bytes(b"3").ok_or("a key")?;
    let low = Span::Range(one, High::At(two));
    let high = Span::Range(two, High::Max);
    assert!(rt; !low.overlaps(&high));
    assert!(rt; high.overlaps(&Span::Range(one, High::At(three))));
    assert!(rt; high.overlaps(&Span::Point(two)));
    assert!(rt; !low.overlaps(&Span::Point(two)));
    Ok(())
}
