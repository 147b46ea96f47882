//! Three sessions take turns in many orders; each image on the way, and each that a crash leaves, is judged.

use cell_world::outside::World;
use event_runs::judge::are_sound;
use event_runs::runs::{REFUSED, Run};
use event_runs::stores::{crashed, store};
use event_runs::words::{here, there};
use manager_core::manager::Outcome;
use std::alloc::Global;
use std::test::Fail;
use world_memory::world::MemoryWorld;

/// Session 1 asks for the keys from 0 to 4 here, session 2 for those from 4 to 8 at the other site, and session 3 for
/// those from 2 to 6 there, which are in the way of both.
fn asks(alloc: Global, run: &mut Run, session: u32) -> Result<Outcome, Fail> {
    match session {
        1 => run.add(alloc, 1, b"0", b"4", here()?),
        2 => run.add(alloc, 2, b"4", b"8", there()?),
        _ => run.add(alloc, session, b"2", b"6", there()?),
    }
}

/// A session goes on, or asks if nothing is going.
fn turn(alloc: Global, run: &mut Run, session: u32) -> Result<Outcome, Fail> {
    if run.standing(session)?.going {
        run.go(alloc, session)
    } else {
        asks(alloc, run, session)
    }
}

/// What is left and what was written once the sessions had their turns in this order.
fn take_turns(alloc: Global, order: &[u32]) -> Result<MemoryWorld, Fail> {
    let mut run = Run::start(alloc, store(alloc)?, 3, true)?;
    for session in order {
        let _outcome = turn(alloc, &mut run, *session)?;
    }
    let over = run.end(alloc)?;
    Ok(over.world)
}

/// A new run over the world adds the keys from 0 to 8 at the other site, if nobody has one of them.
fn reopened(alloc: Global, world: MemoryWorld) -> Result<MemoryWorld, Fail> {
    let mut run = Run::start(alloc, world, 1, false)?;
    let outcome = run.add(alloc, 1, b"0", b"8", there()?)?;
    if outcome != REFUSED {
        let _ended = run.go_on(alloc, 1)?;
    }
    let over = run.end(alloc)?;
    Ok(over.world)
}

/// Whether a new run over what a crash left goes through sound images only, whenever the crash was.
fn are_sound_after_crashes(alloc: Global, world: &MemoryWorld) -> Result<bool, Fail> {
    for moment in 0..=world.moment() {
        let image = crashed(alloc, world, moment)?;
        let again = reopened(alloc, image)?;
        if !are_sound(alloc, &again)? {
            return Ok(false);
        }
    }
    Ok(true)
}

#[test]
fn one_after_the_other(rt: HostRuntime) -> Result<(), Fail> {
    let alloc = rt.alloc();
    let world = take_turns(alloc, &[1, 1, 1, 2, 2, 2, 3])?;
    assert_eq!(rt;
        world.output(alloc)?.as_slice(),
        b"1 ok\n2 ok\n3 overlap\n".as_slice()
    );
    assert!(rt; are_sound_after_crashes(alloc, &world)?);
    Ok(())
}

#[test]
fn by_turns(rt: HostRuntime) -> Result<(), Fail> {
    let alloc = rt.alloc();
    let world = take_turns(alloc, &[1, 2, 3, 1, 2, 3, 1, 2, 3])?;
    assert_eq!(rt;
        world.output(alloc)?.as_slice(),
        b"3 pending 1\n3 pending 1\n1 ok\n2 ok\n3 overlap\n".as_slice()
    );
    assert!(rt; are_sound_after_crashes(alloc, &world)?);
    Ok(())
}

#[test]
fn the_one_in_the_way_first(rt: HostRuntime) -> Result<(), Fail> {
    let alloc = rt.alloc();
    let world = take_turns(alloc, &[3, 2, 3, 1, 3, 2, 1])?;
    assert_eq!(rt;
        world.output(alloc)?.as_slice(),
        b"2 pending 1\n1 pending 1\n3 ok\n2 overlap\n1 overlap\n".as_slice()
    );
    assert!(rt; are_sound_after_crashes(alloc, &world)?);
    Ok(())
}

/// The operation of session 2 is still going when the core ends.
#[test]
fn one_that_never_ends(rt: HostRuntime) -> Result<(), Fail> {
    let alloc = rt.alloc();
    let world = take_turns(alloc, &[1, 3, 1, 2, 1, 3, 1, 2])?;
    assert_eq!(rt;
        world.output(alloc)?.as_slice(),
        b"3 pending 1\n1 ok\n3 overlap\n1 overlap\n".as_slice()
    );
    assert!(rt; are_sound_after_crashes(alloc, &world)?);
    Ok(())
}

/// The order of five turns that the digits of the number say, to base 3.
fn order_of(number: u32) -> [u32; 5] {
    [
        number % 3 + 1,
        number / 3 % 3 + 1,
        number / 9 % 3 + 1,
        number / 27 % 3 + 1,
        number / 81 % 3 + 1,
    ]
}

#[test]
fn whatever_the_order(rt: HostRuntime) -> Result<(), Fail> {
    let alloc = rt.alloc();
    for number in 0..243 {
        let world = take_turns(alloc, &order_of(number))?;
        assert!(rt; are_sound_after_crashes(alloc, &world)?, "{number}");
    }
    Ok(())
}
