//! A store with mappings of several kinds, and what a command is told over it.
ghost use Rattle.std.specs.Prelude.{◌≡◌, true};
ghost use Rattle.map_ops.specs.Planning.{is_asked};

use cell_world::cells::{Cell, KeyType, MapKind, Site, Status, Token};
use cell_world::changes::Change;
use cell_world::key_texts::KeyText;
use cell_world::locations::Location;
use cell_world::names::Name;
use cell_world::norm_keys::NormKey;
use cell_world::operations::Piece;
use cell_world::outside::World;
use cell_world::spans::{High, Span};
use global_tables::known::KnownTables;
use mapping_plans::plans::plan;
use plain_model::commands::Command;
use plain_model::plans::{Plan, PlanStop};
use plain_model::replies::Refusal;
use std::alloc::Global;
use std::test::Fail;
use world_memory::world::MemoryWorld;

/// A token that a script can spell.
pub(crate) const TOKEN: Token = Token(100_000_000_000_000_000_000);

/// Another one.
pub(crate) const OTHER: Token = Token(200_000_000_000_000_000_000);

pub(crate) fn name(bytes: &[u8]) -> Result<Name, Fail> {
    Ok(Name::read(bytes).ok_or("a name")?)
}

pub(crate) fn place(bytes: &[u8]) -> Result<Location, Fail> {
    Ok(Location::read(bytes).ok_or("a location")?)
}

pub(crate) fn word(bytes: &[u8]) -> Result<KeyText, Fail> {
    Ok(KeyText::read(bytes).ok_or("a key word")?)
}

/// The key of an int map that is this number.
pub(crate) fn key(number: u32) -> Result<NormKey, Fail> {
    let bytes = number.wrapping_add(1 << 31).to_be_bytes();
    Ok(NormKey::of_bytes(&bytes).ok_or("a key")?)
}

/// Whether the span is that of the keys from one number up to another.
pub(crate) fn is_range(span: &Span, low: u32, end: u32) -> Result<bool, Fail> {
    let (low, end) = (key(low)?, key(end)?);
    match span {
        Span::Range(from, High::At(to)) => Ok(from.cmp(&low).is_eq() && to.cmp(&end).is_eq()),
        _ => Ok(false),
    }
}

/// A world of two locations, without cells.
fn empty_world(alloc: Global) -> Result<MemoryWorld, Fail> {
    let here = place(b"s/a")?;
    let there = place(b"s/b")?;
    if here.cmp(&there).is_eq() {
        return Err(Fail::from("one location"));
    }
    Ok(MemoryWorld::new(alloc, &[here, there])?)
}

/// Puts a mapping of ten keys of `m` at `s/a`.
fn put_ten(
    change: &mut Change,
    low: u32,
    status: Status,
    token: Option<Token>,
) -> Result<(), Fail> {
    change.put(Cell::Piece(Piece {
        map: name(b"m")?,
        span: Span::Range(key(low)?, High::At(key(low.wrapping_add(10))?)),
        location: place(b"s/a")?,
        status,
        token,
    }))?;
    Ok(())
}

/// Puts the mappings of `m`.
fn put_tens(change: &mut Change) -> Result<(), Fail> {
    put_ten(change, 0, Status::Online, None)?;
    put_ten(change, 10, Status::Online, None)?;
    put_ten(change, 20, Status::Offline, None)?;
    put_ten(change, 30, Status::Offline, None)?;
    put_ten(change, 40, Status::Offline, Some(TOKEN))
}

/// Puts the range map `m`, with a table and both shards, and the list map `l`, with one shard.
fn put_maps(change: &mut Change) -> Result<(), Fail> {
    let (range, list) = (name(b"m")?, name(b"l")?);
    change.put(Cell::Map(range, MapKind::Range, KeyType::Int))?;
    change.put(Cell::Map(list, MapKind::List, KeyType::Int))?;
    change.put(Cell::Shard(range, place(b"s/a")?))?;
    change.put(Cell::Shard(range, place(b"s/b")?))?;
    Ok(change.put(Cell::Shard(list, place(b"s/a")?))?)
}

/// Puts a mapping of the key 5 of `l`, offline.
fn put_point(change: &mut Change) -> Result<(), Fail> {
    change.put(Cell::Piece(Piece {
        map: name(b"l")?,
        span: Span::Point(key(5)?),
        location: place(b"s/a")?,
        status: Status::Offline,
        token: None,
    }))?;
    Ok(())
}

/// A store with the range map `m`, whose mappings are at `s/a`: 0 to 10 and 10 to 20 online, from 20 and from 30 on
/// offline, from 40 up to 50 offline with a token; and with the list map `l`, whose key 5 is offline at `s/a`.
pub(crate) fn store(alloc: Global) -> Result<MemoryWorld, Fail> {
    let mut world = empty_world(alloc)?;
    let mut change = Change::empty(alloc);
    put_maps(&mut change)?;
    put_tens(&mut change)?;
    put_point(&mut change)?;
    world.commit(alloc, Site::GLOBAL, &change)?;
    Ok(world)
}

/// The plan of a command over the world, by a copy of its tables as they stand.
pub(crate) fn planned(
    alloc: Global,
    world: &mut MemoryWorld,
    command: &Command,
) -> Result<Result<Plan, PlanStop>, Fail>
    requires { is_asked command.now ≡ true }
{
    let known = KnownTables::read(alloc, world)?;
    Ok(plan(alloc, world, &known, command))
}

/// The refusal that a command gets, if it gets one.
pub(crate) fn refusal(
    alloc: Global,
    world: &mut MemoryWorld,
    command: &Command,
) -> Result<Option<Refusal>, Fail>
    requires { is_asked command.now ≡ true }
{
    let found = planned(alloc, world, command)?;
    match &found {
        Ok(_) => Ok(None),
        Err(PlanStop::Refused(refusal)) => Ok(Some(*refusal)),
        Err(_) => Err(Fail::from("neither a plan nor a refusal")),
    }
}
