//! A store that may not be there: where it couldn't be opened again, each call at it is refused.
ghost use Rattle.std.specs.Prelude.{◌≡◌, IfOk, OnOk, OnErr};
ghost use Rattle.cell_world.specs.Finding.{IsFloor, IsScan, IsNextKey};
ghost use Rattle.cell_world.specs.Orders.{kind_number};
ghost use Rattle.cell_world.specs.Stores.{cell_at};
ghost use Rattle.record_form.specs.OrderBytes.{ordered};
ghost use Rattle.sqlite_site.specs.Entries.{IsReadOf, IsFloorOf, ArePageOf, IsNextOf};
ghost use Rattle.sqlite_site.specs.Held.{OfRows, OfStores, Leaves, Idles, Makes, Changes};

use crate::refused::Refused;
use crate::stored;
use cell_world::cells::{Cell, CellKey};
use cell_world::changes::Change;
use cell_world::names::Name;
use cell_world::norm_keys::NormKey;
use sqlite::{Alter, Connection};
use std::alloc::Global;

/// The cell of a key.
pub(crate) fn read<S: Alter>(
    conn: &mut Option<Connection<S>>,
    alloc: Global,
    key: &CellKey,
) -> Result<Option<Cell>, Refused>
    ensures found { IfOk result (λ found. OfRows S.Store conn.old conn.new (λ all. IsReadOf all key.now found)) }
    ensures cells { IfOk result (λ found. OfStores S.Store conn.old conn.new (λ s. found ≡ cell_at s key.now)) }
    ensures same { Leaves S.Store conn.old conn.new }
    ensures idle { Idles S.Store conn.old conn.new }
{
    let Some(conn) = conn else {
        return Err(Refused::Store);
    };
    stored::read(conn, alloc, key)
}

/// The greatest cell of the kind and the map at or below a key.
pub(crate) fn floor<S: Alter>(
    conn: &mut Option<Connection<S>>,
    alloc: Global,
    key: &CellKey,
) -> Result<Option<Cell>, Refused>
    ensures found { IfOk result (λ found. OfRows S.Store conn.old conn.new (λ all. IsFloorOf all key.now found)) }
    ensures cells { IfOk result (λ found. OfStores S.Store conn.old conn.new (λ s. IsFloor s key.now found)) }
    ensures same { Leaves S.Store conn.old conn.new }
    ensures idle { Idles S.Store conn.old conn.new }
{
    let Some(conn) = conn else {
        return Err(Refused::Store);
    };
    stored::floor(conn, alloc, key)
}

/// The first cells of the kind at or above a key.
pub(crate) fn scan<S: Alter>(
    conn: &mut Option<Connection<S>>,
    alloc: Global,
    from: &CellKey,
    limit: u32,
) -> Result<Vec<Cell>, Refused>
    ensures found { IfOk result (λ found. OfRows S.Store conn.old conn.new (λ all. ArePageOf all (kind_number from.now) (ordered from.now) limit found.items)) }
    ensures cells { IfOk result (λ found. OfStores S.Store conn.old conn.new (λ s. IsScan s from.now limit found.items)) }
    ensures same { Leaves S.Store conn.old conn.new }
    ensures idle { Idles S.Store conn.old conn.new }
{
    let Some(conn) = conn else {
        return Err(Refused::Store);
    };
    stored::scan(conn, alloc, from, limit)
}

/// The least key of a row of the map at or above this one; with `past`, above it.
pub(crate) fn next_key<S: Alter>(
    conn: &mut Option<Connection<S>>,
    alloc: Global,
    map: &Name,
    from: &NormKey,
    past: bool,
) -> Result<Option<NormKey>, Refused>
    ensures found { IfOk result (λ found. OfRows S.Store conn.old conn.new (λ all. IsNextOf all map.now from.now past found)) }
    ensures cells { IfOk result (λ found. OfStores S.Store conn.old conn.new (λ s. IsNextKey s.rows map.now from.now past found)) }
    ensures same { Leaves S.Store conn.old conn.new }
    ensures idle { Idles S.Store conn.old conn.new }
{
    let Some(conn) = conn else {
        return Err(Refused::Store);
    };
    stored::next_key(conn, alloc, map, from, past)
}

/// Makes a change, in one transaction.
pub(crate) fn commit<S: Alter>(
    conn: &mut Option<Connection<S>>,
    alloc: Global,
    change: &Change,
) -> Result<(), Refused>
    ensures made { OnOk result (Makes S.Store conn.old conn.new change.now) }
    ensures changed { OnOk result (Changes S.Store conn.old conn.new change.now) }
    ensures unmade { OnErr result (Leaves S.Store conn.old conn.new) }
    ensures idle { Idles S.Store conn.old conn.new }
{
    let Some(conn) = conn else {
        return Err(Refused::Store);
    };
    stored::commit(conn, alloc, change)
}
