//! The plan of `table`.
ghost use Rattle.plain_model.specs.declared.commands.Command.TheVariants as command;
ghost use Rattle.map_ops.specs.Planning.{PlansOf, IsShortPlan, IsCalm};

use crate::changes::put_cell;
use crate::refusals::table_refusal;
use cell_world::cells::Cell;
use cell_world::names::Name;
use global_tables::known::KnownTables;
use plain_model::plans::{Plan, PlanStop};
use std::alloc::Global;

/// `table NAME TABLE`: the cell of a new table is put, where the map stands, has no such table, and fewer than it may.
pub fn plan_table(
    alloc: Global,
    known: &KnownTables,
    name: Name,
    table: Name,
) -> Result<Plan, PlanStop>
    ensures plans { PlansOf known.now (command.Table name table) result }
    ensures short { IsShortPlan result }
    ensures calm { IsCalm result }
{
    match table_refusal(known, &name, &table) {
        Some(refusal) => Err(PlanStop::Refused(refusal)),
        None => put_cell(alloc, Cell::Table(name, table)),
    }
}
