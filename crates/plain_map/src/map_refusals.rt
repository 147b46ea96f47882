//! The refusals of maps, shards and tables, in order.
ghost use Rattle.std.specs.Prelude.{◌≡◌, ℕ};
ghost use Rattle.cell_world.specs.declared.cells.KeyType.{KeyType as AType};
ghost use Rattle.cell_world.specs.declared.cells.MapKind.{MapKind as AKind};
ghost use Rattle.plain_model.specs.Refusing.{checks, first_refusal};
ghost use Rattle.plain_tables.specs.State.{state_of};

use crate::checks::{
    detached, first, full_of_maps, full_of_tables, map_exists, map_in_use, no_location, no_map,
    not_a_shard, shard_exists, shard_in_use, table_exists, unresolved,
};
use cell_world::locations::Location;
use cell_world::names::Name;
use plain_model::commands::Command;
use plain_model::replies::Refusal;
use plain_tables::state::PlainTables;

pub fn map_refusal(plain: &PlainTables, name: &Name) -> Option<Refusal>
    ensures { (i : ℕ) (kind : AKind) (type : AType) → result ≡ first_refusal (checks (state_of plain.now) i (Command.Map name.now kind type)) }
{
    first(&[map_exists(plain, name), full_of_maps(plain)])
}

pub fn unmap_refusal(plain: &PlainTables, name: &Name) -> Option<Refusal>
    ensures { (i : ℕ) → result ≡ first_refusal (checks (state_of plain.now) i (Command.Unmap name.now)) }
{
    first(&[no_map(plain, name), map_in_use(plain, name)])
}

pub fn shard_refusal(plain: &PlainTables, name: &Name, location: &Location) -> Option<Refusal>
    ensures { (i : ℕ) → result ≡ first_refusal (checks (state_of plain.now) i (Command.Shard name.now location.now)) }
{
    let at = Some(*location);
    first(&[
        no_map(plain, name),
        no_location(plain, location),
        detached(plain, &at),
        unresolved(plain, &at),
        shard_exists(plain, name, location),
    ])
}

pub fn unshard_refusal(plain: &PlainTables, name: &Name, location: &Location) -> Option<Refusal>
    ensures { (i : ℕ) → result ≡ first_refusal (checks (state_of plain.now) i (Command.Unshard name.now location.now)) }
{
    let at = Some(*location);
    first(&[
        no_map(plain, name),
        no_location(plain, location),
        not_a_shard(plain, name, location),
        detached(plain, &at),
        unresolved(plain, &at),
        shard_in_use(plain, name, location),
    ])
}

pub fn table_refusal(plain: &PlainTables, name: &Name, table: &Name) -> Option<Refusal>
    ensures { (i : ℕ) → result ≡ first_refusal (checks (state_of plain.now) i (Command.Table name.now table.now)) }
{
    first(&[
        no_map(plain, name),
        table_exists(plain, name, table),
        full_of_tables(plain, name),
    ])
}
