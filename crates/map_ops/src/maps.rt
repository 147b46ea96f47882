//! The plans of `map` and `unmap`.
ghost use Rattle.std.specs.Prelude.{◌≡◌, ◌++◌, IfOk, OnOk};
ghost use Rattle.plain_model.specs.declared.commands.Command.TheVariants as command;
ghost use Rattle.image_laws.specs.Catalogs.{table_deletes, unmap_edits};
ghost use Rattle.map_ops.specs.Changes.{tables_named};
ghost use Rattle.map_ops.specs.Planning.{PlansOf, IsShortPlan, IsCalm};

use crate::changes::put_cell;
use crate::refusals::{map_refusal, unmap_refusal};
use cell_world::cells::{Cell, CellKey, KeyType, MapKind};
use cell_world::changes::Change;
use cell_world::memory::Memory;
use cell_world::names::Name;
use cell_world::operations::Reach;
use global_tables::known::KnownTables;
use global_tables::rows::TableRow;
use plain_model::plans::{Plan, PlanStop};
use plain_model::replies::Reply;
use std::alloc::Global;

/// `map NAME KIND TYPE`: the cell of a new map is put, where no map has the name and fewer stand than may.
pub fn plan_map(
    alloc: Global,
    known: &KnownTables,
    name: Name,
    kind: MapKind,
    key_type: KeyType,
) -> Result<Plan, PlanStop>
    ensures plans { PlansOf known.now (command.Map name kind key_type) result }
    ensures short { IsShortPlan result }
    ensures calm { IsCalm result }
{
    match map_refusal(known, &name) {
        Some(refusal) => Err(PlanStop::Refused(refusal)),
        None => put_cell(alloc, Cell::Map(name, kind, key_type)),
    }
}

/// Deletes the tables of a map.
fn delete_tables(change: &mut Change, name: &Name, tables: &[TableRow]) -> Result<(), Memory>
    ensures { OnOk result (change.new ≡ change.old ++ table_deletes name.now (tables_named name.now tables.now)) }
{
    for row in tables {
        if name.cmp(&row.map).is_eq() {
            change.delete(CellKey::Table(*name, row.table))?;
        }
    }
    Ok(())
}

/// The deletes of a map and of its tables.
fn unmap_change(alloc: Global, known: &KnownTables, name: Name) -> Result<Change, Memory>
    ensures { IfOk result (λ change. change ≡ unmap_edits name (tables_named name known.now.tables)) }
{
    let mut change = Change::empty(alloc);
    change.delete(CellKey::Map(name))?;
    delete_tables(&mut change, &name, known.tables())?;
    Ok(change)
}

/// `unmap NAME`: the cells of the map and of its tables are deleted, where it stands and has no shard.
pub fn plan_unmap(alloc: Global, known: &KnownTables, name: Name) -> Result<Plan, PlanStop>
    ensures plans { PlansOf known.now (command.Unmap name) result }
    ensures short { IsShortPlan result }
    ensures calm { IsCalm result }
{
    match unmap_refusal(known, &name) {
        Some(refusal) => Err(PlanStop::Refused(refusal)),
        None => {
            let change = unmap_change(alloc, known, name)?;
            Ok(Plan::Short(Reach::Nothing, change, Reply::Ok))
        }
    }
}
