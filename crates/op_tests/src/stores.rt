//! A small store, and what a command is told over it.
ghost use Rattle.std.specs.Prelude.{◌≡◌, true, IsTrue};
ghost use Rattle.cell_world.specs.Spelled.{is_spelled};
ghost use Rattle.map_ops.specs.Planning.{is_planned_here};

use cell_world::cells::{Away, Cell, KeyType, MapKind, Site, Status};
use cell_world::changes::Change;
use cell_world::locations::Location;
use cell_world::names::Name;
use cell_world::norm_keys::NormKey;
use cell_world::operations::Piece;
use cell_world::outside::World;
use cell_world::spans::{High, Span};
use global_tables::known::KnownTables;
use map_ops::planning::plan;
use plain_model::commands::Command;
use plain_model::plans::{Plan, PlanStop};
use plain_model::replies::Refusal;
use std::alloc::Global;
use std::test::Fail;
use world_memory::world::MemoryWorld;

pub(crate) fn name(bytes: &[u8]) -> Result<Name, Fail> {
    Ok(Name::read(bytes).ok_or("a name")?)
}

pub(crate) fn place(bytes: &[u8]) -> Result<Location, Fail> {
    Ok(Location::read(bytes).ok_or("a location")?)
}

/// The key of an int map that is this number.
pub(crate) fn key(number: u32) -> Result<NormKey, Fail> {
    let bytes = number.wrapping_add(1 << 31).to_be_bytes();
    Ok(NormKey::of_bytes(&bytes).ok_or("a key")?)
}

/// The one location that the worlds here know.
pub(crate) fn here() -> Result<Location, Fail> {
    place(b"s/a")
}

/// A world of one location, without cells.
pub(crate) fn empty_world(alloc: Global) -> Result<MemoryWorld, Fail> {
    let at = here()?;
    Ok(MemoryWorld::new(alloc, &[at])?)
}

/// Puts one cell.
pub(crate) fn put(alloc: Global, world: &mut MemoryWorld, cell: Cell) -> Result<(), Fail>
    requires { IsTrue (is_spelled cell) }
{
    let mut change = Change::empty(alloc);
    change.put(cell)?;
    world.commit(alloc, Site::GLOBAL, &change)?;
    Ok(())
}

/// Puts a map with the location as shard.
fn put_map(change: &mut Change, map: &[u8], kind: MapKind, key_type: KeyType) -> Result<(), Fail> {
    let map = name(map)?;
    change.put(Cell::Map(map, kind, key_type))?;
    change.put(Cell::Shard(map, here()?))?;
    Ok(())
}

/// Puts an online mapping of a range.
fn put_piece(change: &mut Change, map: &[u8], low: u32, high: High) -> Result<(), Fail> {
    change.put(Cell::Piece(Piece {
        map: name(map)?,
        span: Span::Range(key(low)?, high),
        location: here()?,
        status: Status::Online,
        token: None,
    }))?;
    Ok(())
}

/// Puts a list map of bytes without a shard, with two tables.
fn put_empty_map(change: &mut Change) -> Result<(), Fail> {
    let map = name(b"e")?;
    change.put(Cell::Map(map, MapKind::List, KeyType::Bytes))?;
    change.put(Cell::Table(map, name(b"x")?))?;
    change.put(Cell::Table(map, name(b"y")?))?;
    Ok(())
}

/// Puts `m` and `mm`, of int keys, with a mapping from 0 up to 10 and one from 10 on.
fn put_ranges(change: &mut Change) -> Result<(), Fail> {
    put_map(change, b"m", MapKind::Range, KeyType::Int)?;
    put_map(change, b"mm", MapKind::Range, KeyType::Int)?;
    put_piece(change, b"m", 0, High::At(key(10)?))?;
    put_piece(change, b"mm", 10, High::Max)
}

/// A store with `m` and `mm`, which have a mapping each; with `f`, which has a shard and nothing else; and with `e`, which
/// has two tables and nothing else.
pub(crate) fn store(alloc: Global) -> Result<MemoryWorld, Fail> {
    let mut world = empty_world(alloc)?;
    let mut change = Change::empty(alloc);
    put_ranges(&mut change)?;
    put_map(&mut change, b"f", MapKind::List, KeyType::Bytes)?;
    put_empty_map(&mut change)?;
    world.commit(alloc, Site::GLOBAL, &change)?;
    Ok(world)
}

/// The store with the site in a state.
pub(crate) fn store_away(alloc: Global, state: Away) -> Result<MemoryWorld, Fail> {
    let mut world = store(alloc)?;
    put(alloc, &mut world, Cell::SiteState(here()?, state))?;
    Ok(world)
}

/// The plan of a command over the world, by a copy of its tables as they stand.
pub(crate) fn planned(
    alloc: Global,
    world: &mut MemoryWorld,
    command: &Command,
) -> Result<Result<Plan, PlanStop>, Fail>
    requires { is_planned_here command.now ≡ true }
{
    let known = KnownTables::read(alloc, world)?;
    Ok(plan(alloc, world, &known, command))
}

/// The refusal that a command gets, if it gets one.
pub(crate) fn refusal(
    alloc: Global,
    world: &mut MemoryWorld,
    command: &Command,
) -> Result<Option<Refusal>, Fail>
    requires { is_planned_here command.now ≡ true }
{
    let found = planned(alloc, world, command)?;
    match &found {
        Ok(_) => Ok(None),
        Err(PlanStop::Refused(refusal)) => Ok(Some(*refusal)),
        Err(_) => Err(Fail::from("neither a plan nor a refusal")),
    }
}

/// Does a command: its change is committed.
pub(crate) fn done(alloc: Global, world: &mut MemoryWorld, command: &Command) -> Result<usize, Fail>
    requires { is_planned_here command.now ≡ true }
{
    let found = planned(alloc, world, command)?;
    match &found {
        Ok(Plan::Short(_, change, _)) => {
            world.commit(alloc, Site::GLOBAL, change)?;
            Ok(change.as_slice().len())
        }
        _ => Err(Fail::from("no change")),
    }
}

/// Puts the new mapping of a long plan, as if its operation had committed.
pub(crate) fn put_new(
    alloc: Global,
    world: &mut MemoryWorld,
    found: &Result<Plan, PlanStop>,
) -> Result<(), Fail> {
    match found {
        Ok(Plan::Long(op)) => match &op.news.one {
            Some(piece) => put(alloc, world, Cell::Piece(*piece)),
            None => Err(Fail::from("no new mapping")),
        },
        _ => Err(Fail::from("no operation")),
    }
}
