//! What the operations of accepted commands exchange.
ghost use Rattle.std.specs.Prelude.{◌≡◌, true};
ghost use Rattle.map_ops.specs.Planning.{is_asked};

use crate::stores::{TOKEN, is_range, name, place, planned, store, word};
use cell_world::cells::Status;
use cell_world::operations::{Piece, Pieces};
use plain_model::commands::{Command, HighText};
use plain_model::plans::Plan;
use std::alloc::Global;
use std::test::Fail;
use world_memory::world::MemoryWorld;

/// A mapping of `m` from one number up to another: whether it is at `s/b`, online, and has the token.
#[derive(Clone, Copy)]
struct Wanted {
    low: u32,
    end: u32,
    there: bool,
    online: bool,
    locked: bool,
}

/// An online mapping at `s/a` without a token.
fn online(low: u32, end: u32) -> Wanted {
    Wanted {
        low,
        end,
        there: false,
        online: true,
        locked: false,
    }
}

/// An offline one.
fn offline(low: u32, end: u32) -> Wanted {
    Wanted {
        low,
        end,
        there: false,
        online: false,
        locked: false,
    }
}

/// An offline one with the token, at `s/b` or at `s/a`.
fn locked(low: u32, end: u32, there: bool) -> Wanted {
    Wanted {
        low,
        end,
        there,
        online: false,
        locked: true,
    }
}

fn is_wanted(piece: &Piece, wanted: &Wanted) -> Result<bool, Fail> {
    let at = if wanted.there {
        place(b"s/b")?
    } else {
        place(b"s/a")?
    };
    let is_online = piece.status == Status::Online;
    Ok(
        is_range(&piece.span, wanted.low, wanted.end)?
            && piece.map == name(b"m")?
            && piece.location == at
            && is_online == wanted.online
            && (piece.token == Some(TOKEN)) == wanted.locked,
    )
}

/// Whether the mapping is the wanted one, or neither is there.
fn is_one(piece: &Option<Piece>, wanted: Option<&Wanted>) -> Result<bool, Fail> {
    match (piece, wanted) {
        (None, None) => Ok(true),
        (Some(piece), Some(wanted)) => is_wanted(piece, wanted),
        (Some(_), None) => Ok(false),
        (None, Some(_)) => Ok(false),
    }
}

fn are_wanted(pieces: &Pieces, wanted: &[Wanted]) -> Result<bool, Fail> {
    Ok(is_one(&pieces.one, wanted.get(0))? && is_one(&pieces.two, wanted.get(1))?)
}

/// Whether an operation is planned that exchanges these mappings, with a hull from one number up to another.
fn exchanges(
    alloc: Global,
    world: &mut MemoryWorld,
    command: &Command,
    hull: (u32, u32),
    olds: &[Wanted],
    news: &[Wanted],
) -> Result<bool, Fail>
    requires { is_asked command.now ≡ true }
{
    let found = planned(alloc, world, command)?;
    match &found {
        Ok(Plan::Long(op)) => Ok(
            is_range(&op.hull, hull.0, hull.1)?
                && are_wanted(&op.olds, olds)?
                && are_wanted(&op.news, news)?,
        ),
        _ => Ok(false),
    }
}

#[test]
fn a_split_keeps_the_token(rt: HostRuntime) -> Result<(), Fail> {
    let mut world = store(rt.alloc())?;
    let split = Command::Split(name(b"m")?, word(b"44")?, Some(TOKEN));
    let old = [locked(40, 50, false)];
    let parts = [locked(40, 44, false), locked(44, 50, false)];
    assert!(rt; exchanges(rt.alloc(), &mut world, &split, (40, 50), &old, &parts)?);
    Ok(())
}

#[test]
fn a_merge_reaches_both(rt: HostRuntime) -> Result<(), Fail> {
    let mut world = store(rt.alloc())?;
    let merge = Command::Merge(name(b"m")?, word(b"3")?, None);
    let olds = [online(0, 10), online(10, 20)];
    let whole = [online(0, 20)];
    assert!(rt; exchanges(rt.alloc(), &mut world, &merge, (0, 20), &olds, &whole)?);
    Ok(())
}

#[test]
fn a_mapping_goes_offline(rt: HostRuntime) -> Result<(), Fail> {
    let mut world = store(rt.alloc())?;
    let command = Command::Offline(name(b"m")?, word(b"9")?, None);
    let (old, new) = ([online(0, 10)], [offline(0, 10)]);
    assert!(rt; exchanges(rt.alloc(), &mut world, &command, (0, 10), &old, &new)?);
    Ok(())
}

#[test]
fn a_mapping_moves(rt: HostRuntime) -> Result<(), Fail> {
    let mut world = store(rt.alloc())?;
    let command = Command::Move(name(b"m")?, word(b"45")?, place(b"s/b")?, Some(TOKEN));
    let (old, new) = ([locked(40, 50, false)], [locked(40, 50, true)]);
    assert!(rt; exchanges(rt.alloc(), &mut world, &command, (40, 50), &old, &new)?);
    Ok(())
}

#[test]
fn a_mapping_comes(rt: HostRuntime) -> Result<(), Fail> {
    let mut world = store(rt.alloc())?;
    let high = HighText::At(word(b"60")?);
    let add = Command::Add(name(b"m")?, word(b"50")?, high, place(b"s/a")?);
    let new = [online(50, 60)];
    assert!(rt; exchanges(rt.alloc(), &mut world, &add, (50, 60), &[], &new)?);
    Ok(())
}

#[test]
fn a_mapping_goes(rt: HostRuntime) -> Result<(), Fail> {
    let mut world = store(rt.alloc())?;
    let delete = Command::Delete(name(b"m")?, word(b"31")?, None);
    let old = [offline(30, 40)];
    assert!(rt; exchanges(rt.alloc(), &mut world, &delete, (30, 40), &old, &[])?);
    Ok(())
}
