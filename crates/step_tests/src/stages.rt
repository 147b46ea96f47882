//! Each shape of an operation stage by stage: the log and the local rows, as a table for each.
use crate::parts::{Parts, make_parts, operation};
use crate::shapes::is_of;
use crate::worlds::{shown, world_of};
use cell_world::cells::MapKind;
use cell_world::operations::{Op, StageName};
use op_steps::advancing::advance;
use op_steps::beginning::{Begun, begin};
use op_steps::live::LiveList;
use op_steps::stages::Stage;
use std::alloc::Global;
use std::test::Fail;
use world_memory::world::MemoryWorld;

// ---- the log and the rows after each stage, as `shown` says them

fn add(stage: StageName) -> &'static [u8] {
    match stage {
        StageName::Logged => b"L a b",
        StageName::SourceDone => b"L a b",
        StageName::TargetDone => b"L a w+n b",
        StageName::Committed => b"- a w+n b",
        StageName::Settled => b"- a w+. b",
    }
}

fn split(stage: StageName) -> &'static [u8] {
    match stage {
        StageName::Logged => b"L a w+. b",
        StageName::SourceDone => b"L a w+o l+n u+n b",
        StageName::TargetDone => b"L a w+o l+n u+n b",
        StageName::Committed => b"- a w+o l+n u+n b",
        StageName::Settled => b"- a l+. u+. b",
    }
}

fn merge(stage: StageName) -> &'static [u8] {
    match stage {
        StageName::Logged => b"L a l+. u+. b",
        StageName::SourceDone => b"L a l+o w+n u+o b",
        StageName::TargetDone => b"L a l+o w+n u+o b",
        StageName::Committed => b"- a l+o w+n u+o b",
        StageName::Settled => b"- a w+. b",
    }
}

fn offline(stage: StageName) -> &'static [u8] {
    match stage {
        StageName::Logged => b"L a w+. b",
        StageName::SourceDone => b"L a w+o w-n b",
        StageName::TargetDone => b"L a w+o w-n b",
        StageName::Committed => b"- a w+o w-n b",
        StageName::Settled => b"- a w-. b",
    }
}

fn moving(stage: StageName) -> &'static [u8] {
    match stage {
        StageName::Logged => b"L a w-. b",
        StageName::SourceDone => b"L a w-o b",
        StageName::TargetDone => b"L a w-o b w-n",
        StageName::Committed => b"- a w-o b w-n",
        StageName::Settled => b"- a b w-.",
    }
}

fn online(stage: StageName) -> &'static [u8] {
    match stage {
        StageName::Logged => b"L a b w-.",
        StageName::SourceDone => b"L a b w-o w+n",
        StageName::TargetDone => b"L a b w-o w+n",
        StageName::Committed => b"- a b w-o w+n",
        StageName::Settled => b"- a b w+.",
    }
}

fn offline_there(stage: StageName) -> &'static [u8] {
    match stage {
        StageName::Logged => b"L a b w+.",
        StageName::SourceDone => b"L a b w+o w-n",
        StageName::TargetDone => b"L a b w+o w-n",
        StageName::Committed => b"- a b w+o w-n",
        StageName::Settled => b"- a b w-.",
    }
}

fn delete(stage: StageName) -> &'static [u8] {
    match stage {
        StageName::Logged => b"L a b w-.",
        StageName::SourceDone => b"L a b w-o",
        StageName::TargetDone => b"L a b w-o",
        StageName::Committed => b"- a b w-o",
        StageName::Settled => b"- a b",
    }
}

/// Rows stand that operations left which are gone: those in the hull go, those beyond it stay.
fn moving_among_leftovers(stage: StageName) -> &'static [u8] {
    match stage {
        StageName::Logged => b"L a w-N b l-O x-O y-O y-N",
        StageName::SourceDone => b"L a w-o b l-O x-O y-O y-N",
        StageName::TargetDone => b"L a w-o b w-n y-O y-N",
        StageName::Committed => b"- a w-o b w-n y-O y-N",
        StageName::Settled => b"- a b w-. y-O y-N",
    }
}

/// The table of the operation of this place; of place 8, that of the move among leftovers.
fn wanted(step: u8, stage: StageName) -> &'static [u8] {
    match step {
        0 => add(stage),
        1 => split(stage),
        2 => merge(stage),
        3 => offline(stage),
        4 => moving(stage),
        5 => online(stage),
        6 => offline_there(stage),
        7 => delete(stage),
        _ => moving_among_leftovers(stage),
    }
}

// ---- what is done

/// Leads an operation that begun on to Settled. Whether its table says what stands after each stage.
pub(crate) fn goes_on(
    alloc: Global,
    world: &mut MemoryWorld,
    parts: &Parts,
    op: &Op,
    first: Stage,
    step: u8,
) -> Result<bool, Fail> {
    let mut stage = first;
    for _ in 0..4u8 {
        if shown(alloc, world, parts, op.number)?.as_slice() != wanted(step, stage.name()) {
            return Ok(false);
        }
        stage = advance(alloc, world, op, stage)?;
    }
    Ok(shown(alloc, world, parts, op.number)?.as_slice() == wanted(step, StageName::Settled))
}

/// Makes the operation of this place, if it is one for this map. Whether its table says what stands after each stage.
fn goes_by_its_table(
    alloc: Global,
    world: &mut MemoryWorld,
    parts: &Parts,
    step: u8,
) -> Result<bool, Fail> {
    if !is_of(parts.kind, step) {
        return Ok(true);
    }
    match begin(alloc, world, &operation(parts, step), &LiveList::new()) {
        Ok(Begun::Going(op, stage)) => goes_on(alloc, world, parts, &op, stage, step),
        Ok(Begun::Pending(_)) => Err(Fail::from("pending")),
        Err(_) => Err(Fail::from("a fault")),
    }
}

#[test]
fn each_shape_goes_by_its_table(rt: HostRuntime) -> Result<(), Fail> {
    for kind in [MapKind::Range, MapKind::List] {
        let parts = make_parts(kind)?;
        let mut world = world_of(rt.alloc(), &parts)?;
        for step in 0..8u8 {
            assert!(rt;
                goes_by_its_table(rt.alloc(), &mut world, &parts, step)?,
                "operation {step}"
            );
        }
    }
    Ok(())
}
