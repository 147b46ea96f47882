//! Calls that are to fail: each fails where it is named and nowhere else, and leaves what the plan says.
use crate::kinds::crashed_now;
use crate::memory::{empty_world, tables};
use cell_world::cells::{CellKey, Site};
use cell_world::changes::Change;
use cell_world::items::Items;
use cell_world::names::Name;
use cell_world::norm_keys::NormKey;
use cell_world::outside::{Source, SourceError, World, WorldError};
use std::alloc::Global;
use std::test::Fail;
use world_memory::faults::{CallName, FaultPlan, PlannedFault};
use world_memory::source::MemorySource;
use world_memory::world::MemoryWorld;

/// The names of all calls that can fail.
const NAMES: [CallName; 7] = [
    CallName::Read,
    CallName::Floor,
    CallName::Scan,
    CallName::NextKey,
    CallName::Commit,
    CallName::Write,
    CallName::Reopen,
];

/// A plan of one fault.
fn plan_of(alloc: Global, fault: PlannedFault) -> Result<FaultPlan, Fail> {
    let mut calls = Items::new(alloc);
    calls.push(fault)?;
    Ok(FaultPlan { calls })
}

/// A world of one location, in which the second call of a name fails.
fn second_fails(alloc: Global, call: CallName) -> Result<MemoryWorld, Fail> {
    let fault = PlannedFault {
        call,
        number: 2,
        made: false,
        prefix: 0,
    };
    let world = empty_world(alloc)?;
    Ok(world.with_faults(plan_of(alloc, fault)?))
}

/// What a call at the global store looks for.
#[derive(Clone, Copy)]
struct Sought {
    map: Name,
    key: NormKey,
}

fn what_is_sought() -> Result<Sought, Fail> {
    let map = Name::read(b"orders").ok_or("a name")?;
    let key = NormKey::of_bytes(&[1]).ok_or("a key")?;
    Ok(Sought { map, key })
}

/// Makes the call of a name: one that changes nothing but what is written.
fn made(
    alloc: Global,
    world: &mut MemoryWorld,
    sought: &Sought,
    call: CallName,
) -> Result<(), WorldError> {
    match call {
        CallName::Read => look_up(alloc, world),
        CallName::Floor => look_below(alloc, world),
        CallName::Scan => look_over(alloc, world),
        CallName::NextKey => look_on(alloc, world, sought),
        CallName::Commit => world.commit(alloc, Site::GLOBAL, &Change::empty(alloc)),
        CallName::Write => world.write(alloc, b"ab"),
        CallName::Reopen => world.reopen(alloc, Site::GLOBAL),
    }
}

fn look_up(alloc: Global, world: &mut MemoryWorld) -> Result<(), WorldError> {
    let _found = world.read(alloc, Site::GLOBAL, &CellKey::Counter)?;
    Ok(())
}

fn look_below(alloc: Global, world: &mut MemoryWorld) -> Result<(), WorldError> {
    let _found = world.floor(alloc, Site::GLOBAL, &CellKey::Counter)?;
    Ok(())
}

fn look_over(alloc: Global, world: &mut MemoryWorld) -> Result<(), WorldError> {
    let _found = world.scan(alloc, Site::GLOBAL, &CellKey::Counter, 1)?;
    Ok(())
}

fn look_on(alloc: Global, world: &mut MemoryWorld, sought: &Sought) -> Result<(), WorldError> {
    let _found = world.next_key(alloc, Site::GLOBAL, &sought.map, &sought.key, false)?;
    Ok(())
}

/// Whether the outside refused a call.
fn has_failed(answer: &Result<(), WorldError>) -> bool {
    match answer {
        Err(WorldError::Failed) => true,
        _ => false,
    }
}

#[test]
fn a_call_fails_where_its_name_and_its_number_are_planned(rt: HostRuntime) -> Result<(), Fail> {
    let sought = what_is_sought()?;
    for (place, planned) in NAMES.iter().enumerate() {
        let mut world = second_fails(rt.alloc(), *planned)?;
        for round in 1..4 {
            for call in &NAMES {
                let answer = made(rt.alloc(), &mut world, &sought, *call);
                let fails = *call == *planned && round == 2;
                assert!(rt;
                    has_failed(&answer) == fails,
                    "fault {place}, round {round}"
                );
                assert!(rt; fails || answer.is_ok(), "fault {place}, round {round}");
            }
        }
        for call in &NAMES {
            assert!(rt; world.calls_made(*call) == 3, "fault {place}");
        }
    }
    Ok(())
}

/// How many tables stand.
fn tables_in(alloc: Global, world: &mut MemoryWorld) -> Result<usize, Fail> {
    let map = Name::read(b"a").ok_or("a name")?;
    let from = CellKey::Table(map, map);
    let found = world.scan(alloc, Site::GLOBAL, &from, 9)?;
    Ok(found.len())
}

/// How many tables stand after a first commit that fails, before and after a crash.
fn after_failed_commit(alloc: Global, made: bool) -> Result<(usize, usize), Fail> {
    let fault = PlannedFault {
        call: CallName::Commit,
        number: 1,
        made,
        prefix: 0,
    };
    let mut world = empty_world(alloc)?.with_faults(plan_of(alloc, fault)?);
    let answer = world.commit(alloc, Site::GLOBAL, &tables(alloc)?);
    if !has_failed(&answer) || world.moment() != 1 {
        return Err(Fail::from("a commit that fails is on the trail"));
    }
    let now = tables_in(alloc, &mut world)?;
    let later = tables_in(alloc, &mut crashed_now(alloc, &world)?)?;
    Ok((now, later))
}

#[test]
fn a_commit_that_fails_is_made_or_not_as_planned(rt: HostRuntime) -> Result<(), Fail> {
    assert!(rt; after_failed_commit(rt.alloc(), true)? == (2, 2));
    assert!(rt; after_failed_commit(rt.alloc(), false)? == (0, 0));
    Ok(())
}

#[test]
fn a_write_that_fails_writes_a_front(rt: HostRuntime) -> Result<(), Fail> {
    for (prefix, length) in [(0u32, 0usize), (1, 1), (3, 3), (4, 3), (u32::MAX, 3)] {
        let fault = PlannedFault {
            call: CallName::Write,
            number: 2,
            made: true,
            prefix,
        };
        let mut world = empty_world(rt.alloc())?.with_faults(plan_of(rt.alloc(), fault)?);
        world.write(rt.alloc(), b"ab")?;
        let answer = world.write(rt.alloc(), b"cde");
        assert!(rt; has_failed(&answer), "prefix {prefix}");
        world.write(rt.alloc(), b"f")?;
        let output = world.output(rt.alloc())?;
        assert!(rt; output.len() == length + 3, "prefix {prefix}");
        assert!(rt;
            output.as_slice().starts_with(&b"abcde"[..2 + length]),
            "prefix {prefix}"
        );
        assert!(rt; output.as_slice().ends_with(b"f"), "prefix {prefix}");
    }
    Ok(())
}

#[test]
fn calls_are_counted_from_the_plan_on(rt: HostRuntime) -> Result<(), Fail> {
    let alloc = rt.alloc();
    let mut world = second_fails(alloc, CallName::Write)?;
    world.write(alloc, b"a")?;
    let fault = PlannedFault {
        call: CallName::Write,
        number: 2,
        made: false,
        prefix: 0,
    };
    let mut world = world.with_faults(plan_of(alloc, fault)?);
    world.write(alloc, b"b")?;
    let answer = world.write(alloc, b"c");
    assert!(rt; has_failed(&answer));
    Ok(())
}

#[test]
fn a_crashed_world_has_no_plan(rt: HostRuntime) -> Result<(), Fail> {
    let alloc = rt.alloc();
    let mut world = crashed_now(alloc, &second_fails(alloc, CallName::Write)?)?;
    world.write(alloc, b"a")?;
    world.write(alloc, b"b")?;
    assert!(rt; world.moment() == 2);
    Ok(())
}

/// Takes up to two bytes, and says whether that failed.
fn fails_to_take(alloc: Global, source: &mut MemorySource, buffer: &mut [u8; 2]) -> bool {
    match source.take(alloc, buffer) {
        Err(SourceError::Failed) => true,
        _ => false,
    }
}

#[test]
fn a_taking_fails_where_it_is_listed(rt: HostRuntime) -> Result<(), Fail> {
    let bytes = Vec::from_slice(rt.alloc(), b"abc")?;
    let takes = Vec::from_slice(rt.alloc(), &[1u32, 3])?;
    let mut source = MemorySource::new(bytes).failing(takes);
    let mut buffer = [0u8; 2];
    assert!(rt; fails_to_take(rt.alloc(), &mut source, &mut buffer));
    assert!(rt; buffer == *b"\0\0");
    assert!(rt; !fails_to_take(rt.alloc(), &mut source, &mut buffer));
    assert!(rt; buffer == *b"ab");
    assert!(rt; fails_to_take(rt.alloc(), &mut source, &mut buffer));
    assert!(rt; source.take(rt.alloc(), &mut buffer)? == 1);
    assert!(rt; buffer[0] == b'c');
    Ok(())
}
