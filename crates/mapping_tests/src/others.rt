//! Short commands but `lock` and `unlock`.
use crate::stores::{is_range, name, planned, store, word};
use cell_world::cells::Cell;
use cell_world::changes::Edit;
use cell_world::names::Name;
use plain_model::commands::Command;
use plain_model::plans::{Plan, PlanStop};
use plain_model::replies::Reply;
use std::test::Fail;

/// Whether the plan is to put this table and nothing else, and to answer `ok`.
fn is_table_plan(found: &Result<Plan, PlanStop>, map: &Name, table: &Name) -> bool {
    match found {
        Ok(Plan::Short(_, change, Reply::Ok)) => match change.as_slice() {
            [Edit::Put(Cell::Table(of, new))] => of == map && new == table,
            _ => false,
        },
        _ => false,
    }
}

/// Whether the plan is to answer with a mapping from one number up to another.
fn is_mapping_answer(found: &Result<Plan, PlanStop>, low: u32, end: u32) -> Result<bool, Fail> {
    match found {
        Ok(Plan::Answer(Reply::Mapping(_, piece))) => is_range(&piece.span, low, end),
        _ => Ok(false),
    }
}

#[test]
fn a_table_comes(rt: HostRuntime) -> Result<(), Fail> {
    let mut world = store(rt.alloc())?;
    let (map, table) = (name(b"m")?, name(b"t")?);
    let found = planned(rt.alloc(), &mut world, &Command::Table(map, table))?;
    assert!(rt; is_table_plan(&found, &map, &table));
    Ok(())
}

#[test]
fn a_mapping_is_found(rt: HostRuntime) -> Result<(), Fail> {
    let mut world = store(rt.alloc())?;
    let find = Command::Find(name(b"m")?, word(b"25")?);
    let found = planned(rt.alloc(), &mut world, &find)?;
    assert!(rt; is_mapping_answer(&found, 20, 30)?);
    Ok(())
}
