//! What the operations are made of, on one span of a range map or on one key of a list map, and one of each shape.
ghost use Rattle.std.specs.Prelude.{◌≡◌, IsTrue};
ghost use Rattle.cell_world.specs.Spelled.{is_spelled};

use cell_world::cells::{Cell, MapKind, Status};
use cell_world::locations::Location;
use cell_world::names::Name;
use cell_world::norm_keys::NormKey;
use cell_world::operations::{Extra, Op, Piece, Pieces};
use cell_world::spans::{High, Span};
use std::test::Fail;

/// A map of int keys, two locations, and four keys in order.
#[derive(Clone, Copy)]
pub(crate) struct Parts {
    pub kind: MapKind,
    pub map: Name,
    pub here: Location,
    pub there: Location,
    pub low: NormKey,
    pub middle: NormKey,
    pub high: NormKey,
    pub beyond: NormKey,
}

fn key(byte: u8) -> Result<NormKey, Fail> {
    Ok(NormKey::of_bytes(&[128, 0, 0, byte]).ok_or("a key")?)
}

pub(crate) fn make_parts(kind: MapKind) -> Result<Parts, Fail> {
    Ok(Parts {
        kind,
        map: Name::read(b"m").ok_or("a name")?,
        here: Location::read(b"s/a").ok_or("a location")?,
        there: Location::read(b"s/b").ok_or("a location")?,
        low: key(0)?,
        middle: key(4)?,
        high: key(10)?,
        beyond: key(14)?,
    })
}

// ---- mappings

/// The span of the operations: of a range map the keys from the low one up to the high one, of a list map the low one.
pub(crate) fn whole(parts: &Parts) -> Span {
    match parts.kind {
        MapKind::Range => Span::Range(parts.low, High::At(parts.high)),
        MapKind::List => Span::Point(parts.low),
    }
}

pub(crate) fn lower(parts: &Parts) -> Span {
    Span::Range(parts.low, High::At(parts.middle))
}

pub(crate) fn upper(parts: &Parts) -> Span {
    Span::Range(parts.middle, High::At(parts.high))
}

/// From within the whole range to beyond it.
pub(crate) fn across(parts: &Parts) -> Span {
    Span::Range(parts.middle, High::At(parts.beyond))
}

/// Just beyond the whole range.
pub(crate) fn outer(parts: &Parts) -> Span {
    Span::Range(parts.high, High::At(parts.beyond))
}

/// A mapping of the map.
fn mapping(parts: &Parts, span: Span, location: Location, status: Status) -> Piece
    ensures { result.map ≡ parts.now.map }
{
    Piece {
        map: parts.map,
        span,
        location,
        status,
        token: None,
    }
}

/// An online mapping at the first location.
fn online(parts: &Parts, span: Span) -> Piece
    ensures { result.map ≡ parts.now.map }
{
    mapping(parts, span, parts.here, Status::Online)
}

/// The whole span, offline at the first location.
pub(crate) fn offline_here(parts: &Parts) -> Piece
    ensures { result.map ≡ parts.now.map }
{
    mapping(parts, whole(parts), parts.here, Status::Offline)
}

/// Offline at the second one.
fn offline_there(parts: &Parts) -> Piece
    ensures { result.map ≡ parts.now.map }
{
    mapping(parts, whole(parts), parts.there, Status::Offline)
}

/// Online there.
fn online_there(parts: &Parts) -> Piece
    ensures { result.map ≡ parts.now.map }
{
    mapping(parts, whole(parts), parts.there, Status::Online)
}

/// The span beyond, offline at the second location.
pub(crate) fn outer_there(parts: &Parts) -> Piece
    ensures { result.map ≡ parts.now.map }
{
    mapping(parts, outer(parts), parts.there, Status::Offline)
}

// ---- operations

/// A new mapping.
fn adding(new: Piece) -> Op
    ensures { IsTrue (is_spelled (Cell.Log result)) }
{
    Op {
        number: 0,
        map: new.map,
        hull: new.span,
        olds: Pieces {
            one: None,
            two: None,
        },
        news: Pieces {
            one: Some(new),
            two: None,
        },
        extra: Extra::None,
    }
}

/// A mapping that goes.
fn removing(old: Piece) -> Op
    ensures { IsTrue (is_spelled (Cell.Log result)) }
{
    Op {
        number: 0,
        map: old.map,
        hull: old.span,
        olds: Pieces {
            one: Some(old),
            two: None,
        },
        news: Pieces {
            one: None,
            two: None,
        },
        extra: Extra::None,
    }
}

/// A mapping in place of another over the same span.
fn replacing(old: Piece, new: Piece) -> Op
    requires { new.map ≡ old.map }
    ensures { IsTrue (is_spelled (Cell.Log result)) }
{
    Op {
        number: 0,
        map: old.map,
        hull: old.span,
        olds: Pieces {
            one: Some(old),
            two: None,
        },
        news: Pieces {
            one: Some(new),
            two: None,
        },
        extra: Extra::None,
    }
}

/// Two mappings in place of one.
fn splitting(old: Piece, low: Piece, high: Piece) -> Op
    requires low { low.map ≡ old.map }
    requires high { high.map ≡ old.map }
    ensures { IsTrue (is_spelled (Cell.Log result)) }
{
    Op {
        number: 0,
        map: old.map,
        hull: old.span,
        olds: Pieces {
            one: Some(old),
            two: None,
        },
        news: Pieces {
            one: Some(low),
            two: Some(high),
        },
        extra: Extra::None,
    }
}

/// One mapping in place of two.
fn merging(low: Piece, high: Piece, new: Piece) -> Op
    requires low { low.map ≡ new.map }
    requires high { high.map ≡ new.map }
    ensures { IsTrue (is_spelled (Cell.Log result)) }
{
    Op {
        number: 0,
        map: new.map,
        hull: new.span,
        olds: Pieces {
            one: Some(low),
            two: Some(high),
        },
        news: Pieces {
            one: Some(new),
            two: None,
        },
        extra: Extra::None,
    }
}

/// The operation of this place in the row: add, split, merge, offline, move, online, offline, delete.
pub(crate) fn operation(parts: &Parts, step: u8) -> Op
    ensures { IsTrue (is_spelled (Cell.Log result)) }
{
    match step {
        0 => adding(online(parts, whole(parts))),
        1 => splitting(
            online(parts, whole(parts)),
            online(parts, lower(parts)),
            online(parts, upper(parts)),
        ),
        2 => merging(
            online(parts, lower(parts)),
            online(parts, upper(parts)),
            online(parts, whole(parts)),
        ),
        3 => replacing(online(parts, whole(parts)), offline_here(parts)),
        4 => replacing(offline_here(parts), offline_there(parts)),
        5 => replacing(offline_there(parts), online_there(parts)),
        6 => replacing(online_there(parts), offline_there(parts)),
        _ => removing(offline_there(parts)),
    }
}
