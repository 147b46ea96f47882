//! A core opens over stores on which an operation was left.
ghost use Rattle.std.specs.Prelude.{IfOk, IsTrue};
ghost use Rattle.cell_world.specs.Spelled.{is_spelled};

use cell_world::cells::{Cell, Status};
use cell_world::operations::{Extra, Op, Piece, Pieces};
use cell_world::spans::{High, Span};
use event_runs::listing::{listed, logged};
use event_runs::stores::store;
use event_runs::words::{here, key, map};
use op_steps::advancing::advance;
use op_steps::beginning::{Begun, begin};
use op_steps::live::LiveList;
use op_steps::stages::Stage;
use std::alloc::Global;
use std::test::Fail;
use world_memory::world::MemoryWorld;

/// The operation that adds the range from 0 to 10.
fn add() -> Result<Op, Fail>
    ensures { IfOk result (λ op. IsTrue (is_spelled (Cell.Log op))) }
{
    let name = map()?;
    let span = Span::Range(key(0)?, High::At(key(10)?));
    let piece = Piece {
        map: name,
        span,
        location: here()?,
        status: Status::Online,
        token: None,
    };
    Ok(Op {
        number: 0,
        map: name,
        hull: span,
        olds: Pieces {
            one: None,
            two: None,
        },
        news: Pieces {
            one: Some(piece),
            two: None,
        },
        extra: Extra::None,
    })
}

/// Leads the operation on by so many stages.
fn lead_on(
    alloc: Global,
    world: &mut MemoryWorld,
    op: &Op,
    stage: Stage,
    stages: u32,
) -> Result<(), Fail> {
    let mut stage = stage;
    for _ in 0..stages {
        stage = advance(alloc, world, op, stage)?;
    }
    Ok(())
}

/// A world on which the add began, went on by so many stages, and was left.
fn left_after(alloc: Global, stages: u32) -> Result<MemoryWorld, Fail> {
    let mut world = store(alloc)?;
    match add() {
        Ok(op) => match begin(alloc, &mut world, &op, &LiveList::new()) {
            Ok(Begun::Going(op, stage)) => {
                lead_on(alloc, &mut world, &op, stage, stages)?;
                Ok(world)
            }
            Ok(Begun::Pending(_)) => Err(Fail::from("pending")),
            Err(_) => Err(Fail::from("a fault")),
        },
        Err(fail) => Err(fail),
    }
}

/// How many operations are logged before the opening and after it, and what `list m` then writes.
fn opened_after(alloc: Global, stages: u32) -> Result<(usize, usize, Vec<u8>), Fail> {
    let mut world = left_after(alloc, stages)?;
    let before = logged(alloc, &mut world)?;
    let (written, after) = listed(alloc, world)?;
    Ok((before, after, written))
}

#[test]
fn an_operation_that_was_left_before_its_commit_is_undone(rt: HostRuntime) -> Result<(), Fail> {
    for stages in [0, 1, 2] {
        let (before, after, written) = opened_after(rt.alloc(), stages)?;
        assert_eq!(rt; before, 1);
        assert_eq!(rt; after, 0);
        assert_eq!(rt; written.as_slice(), b"mappings 0\n".as_slice());
    }
    Ok(())
}

#[test]
fn one_that_was_committed_stays(rt: HostRuntime) -> Result<(), Fail> {
    for stages in [3, 4] {
        let (before, after, written) = opened_after(rt.alloc(), stages)?;
        assert_eq!(rt; before, 0);
        assert_eq!(rt; after, 0);
        assert_eq!(rt;
            written.as_slice(),
            b"mappings 1\n0 10 s/a online\n".as_slice()
        );
    }
    Ok(())
}
