//! The stores that stand for the tables of the plain program.
ghost use Rattle.std.specs.Prelude.{◌≡◌};
ghost use Rattle.cell_world.specs.Keys.{same};

use cell_world::cells::{Cell, LocalRow, Mark, RowName, Site};
use cell_world::changes::Change;
use cell_world::locations::Location;
use cell_world::outside::World;
use plain_tables::state::PlainTables;
use std::alloc::Global;
use std::test::Fail;
use world_memory::world::MemoryWorld;

fn place(text: &str) -> Result<Location, Fail> {
    Ok(Location::read(text.as_bytes()).ok_or("a location")?)
}

/// The locations that are known: `s/a`, `s/b` and `s/c`.
pub(crate) fn locations() -> Result<[Location; 3], Fail> {
    Ok([place("s/a")?, place("s/b")?, place("s/c")?])
}

/// Whether the two are one location.
fn is_same(one: &Location, other: &Location) -> bool
    ensures { result ≡ same one.now other.now }
{
    one.cmp(other).is_eq()
}

/// Stores without cells.
fn empty_world(alloc: Global) -> Result<MemoryWorld, Fail> {
    let [a, b, c] = locations()?;
    if is_same(&a, &b) {
        return Err(Fail::from("one location twice"));
    }
    if is_same(&a, &c) {
        return Err(Fail::from("one location twice"));
    }
    if is_same(&b, &c) {
        return Err(Fail::from("one location twice"));
    }
    Ok(MemoryWorld::new(alloc, &[a, b, c])?)
}

/// Puts the maps, and what they have but their mappings.
fn put_maps(change: &mut Change, plain: &PlainTables) -> Result<(), Fail> {
    for (name, map) in plain.maps.iter() {
        change.put(Cell::Map(*name, map.0, map.1))?;
    }
    for shard in plain.all_shards() {
        change.put(Cell::Shard(shard.0, shard.1))?;
    }
    for table in plain.all_tables() {
        change.put(Cell::Table(table.0, table.1))?;
    }
    Ok(())
}

/// Puts the mappings, and the states of sites.
fn put_pieces(change: &mut Change, plain: &PlainTables) -> Result<(), Fail> {
    for piece in plain.pieces() {
        change.put(Cell::Piece(*piece))?;
    }
    for (at, away) in plain.away.iter() {
        change.put(Cell::SiteState(*at, *away))?;
    }
    Ok(())
}

/// Puts the local rows of a site: one for each mapping there.
fn put_locals(change: &mut Change, plain: &PlainTables, at: &Location) -> Result<(), Fail> {
    for piece in plain.pieces() {
        if piece.location.cmp(at).is_eq() {
            change.put(Cell::Local(LocalRow {
                map: piece.map,
                span: piece.span,
                number: 0,
                status: piece.status,
                mark: Mark::Plain,
            }))?;
        }
    }
    Ok(())
}

/// Whether the row's key is of a mapping at the location.
fn is_row_at(plain: &PlainTables, row: &RowName, at: &Location) -> bool {
    plain.pieces().any(|piece| {
        piece.map.cmp(&row.map).is_eq()
            && piece.span.contains(&row.key)
            && piece.location.cmp(at).is_eq()
    })
}

/// Puts the rows of a site: those whose owner is there.
fn put_rows(
    alloc: Global,
    change: &mut Change,
    plain: &PlainTables,
    at: &Location,
) -> Result<(), Fail> {
    for (row, bytes) in plain.rows.iter() {
        if is_row_at(plain, row, at) {
            change.put(Cell::Row(*row, bytes.copied(alloc)?))?;
        }
    }
    Ok(())
}

/// Puts what a site holds. One that is away has lost its local rows, so that each of its mappings is a difference.
fn put_site(
    alloc: Global,
    world: &mut MemoryWorld,
    plain: &PlainTables,
    at: &Location,
) -> Result<(), Fail> {
    let mut change = Change::empty(alloc);
    if plain.away_at(at).is_none() {
        put_locals(&mut change, plain, at)?;
    }
    put_rows(alloc, &mut change, plain, at)?;
    match world.locate(at) {
        None => Err(Fail::from("no such site")),
        Some(site) => Ok(world.commit(alloc, site, &change)?),
    }
}

/// Sound stores that stand for the tables.
pub(crate) fn stores_of(alloc: Global, plain: &PlainTables) -> Result<MemoryWorld, Fail> {
    let mut world = empty_world(alloc)?;
    let mut change = Change::empty(alloc);
    put_maps(&mut change, plain)?;
    put_pieces(&mut change, plain)?;
    world.commit(alloc, Site::GLOBAL, &change)?;
    for at in &locations()? {
        put_site(alloc, &mut world, plain, at)?;
    }
    Ok(world)
}
