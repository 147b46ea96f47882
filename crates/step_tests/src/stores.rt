//! A store with a range map and a shard, and an operation that adds a mapping.
ghost use Rattle.std.specs.Prelude.{IfOk, IsTrue};
ghost use Rattle.cell_world.specs.Spelled.{is_spelled};

use cell_world::cells::{Cell, KeyType, MapKind, Site, Status};
use cell_world::changes::Change;
use cell_world::locations::Location;
use cell_world::names::Name;
use cell_world::norm_keys::NormKey;
use cell_world::operations::{Extra, Op, Piece, Pieces};
use cell_world::outside::World;
use cell_world::spans::{High, Span};
use global_tables::lists::{log_rows, pieces_of};
use std::alloc::Global;
use std::test::Fail;
use world_memory::world::MemoryWorld;

pub(crate) fn map() -> Result<Name, Fail> {
    Ok(Name::read(b"m").ok_or("a name")?)
}

/// The one location that the worlds here know.
pub(crate) fn here() -> Result<Location, Fail> {
    Ok(Location::read(b"s/a").ok_or("a location")?)
}

/// The key of an int map that is this number.
fn key(number: u32) -> Result<NormKey, Fail> {
    let bytes = number.wrapping_add(1 << 31).to_be_bytes();
    Ok(NormKey::of_bytes(&bytes).ok_or("a key")?)
}

/// A world with the map and its shard.
pub(crate) fn store(alloc: Global) -> Result<MemoryWorld, Fail> {
    let at = here()?;
    let mut world = MemoryWorld::new(alloc, &[at])?;
    let mut change = Change::empty(alloc);
    change.put(Cell::Map(map()?, MapKind::Range, KeyType::Int))?;
    change.put(Cell::Shard(map()?, at))?;
    world.commit(alloc, Site::GLOBAL, &change)?;
    Ok(world)
}

/// The operation that adds the range between these keys.
pub(crate) fn add(low: u32, high: u32) -> Result<Op, Fail>
    ensures { IfOk result (λ op. IsTrue (is_spelled (Cell.Log op))) }
{
    let name = map()?;
    let span = Span::Range(key(low)?, High::At(key(high)?));
    let piece = Piece {
        map: name,
        span,
        location: here()?,
        status: Status::Online,
        token: None,
    };
    Ok(Op {
        number: 0,
        map: name,
        hull: span,
        olds: Pieces {
            one: None,
            two: None,
        },
        news: Pieces {
            one: Some(piece),
            two: None,
        },
        extra: Extra::None,
    })
}

/// How many operations are logged.
pub(crate) fn logged(alloc: Global, world: &mut MemoryWorld) -> Result<usize, Fail> {
    Ok(log_rows(alloc, world)?.len())
}

/// How many mappings the map has.
pub(crate) fn mappings(alloc: Global, world: &mut MemoryWorld) -> Result<usize, Fail> {
    Ok(pieces_of(alloc, world, &map()?)?.len())
}
