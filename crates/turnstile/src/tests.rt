//! Threads that leave numbers in one list, one number a turn.
ghost use Rattle.std.specs.Prelude.{◌≡◌, ℕ, ◌+◌, ◌*◌, ◌<◌, ◌≤◌, [], false, length, IfOk, vec_len};
ghost use Rattle.turnstile.specs.States.{EachAt, IsIdle};

use crate::{Historied, Pass, Turnstile};
use std::alloc::{AllocError, Global};
use std::process::Abort;
use std::sync::Wait;
use std::test::Fail;
use std::thread;
use std::thread::Threads;

#[derive(Drop)]
struct Numbers {
    items: Vec<u64>,
}

impl Historied for Numbers {
    type Entry = u64;

    ghost list = { λ n. n.items.items };

    fn length(&self) -> u64 {
        self.items.len() as u64
    }
}

/// Leaves one number, or none where memory runs out.
fn leave_one(
    rt: &impl Wait,
    turnstile: &Turnstile<Numbers>,
    pass: &mut Pass<Numbers, u64>,
    number: u64,
)
    requires table { pass.old.table ≡ turnstile.now.table }
    requires idle { pass.old.holds ≡ false }
    ensures same { (pass.new.table ≡ pass.old.table) × (pass.new.number ≡ pass.old.number) }
    ensures idle { pass.new.holds ≡ false }
{
    let mut numbers = turnstile.enter(rt, pass);
    let _ = numbers.items.push(number);
    turnstile.leave(pass, numbers);
}

/// Leaves so many numbers from `from` on, one a turn.
fn leave_all(
    rt: &impl Wait,
    turnstile: &Turnstile<Numbers>,
    pass: &mut Pass<Numbers, u64>,
    from: u64,
    count: u64,
)
    requires table { pass.old.table ≡ turnstile.now.table }
    requires idle { pass.old.holds ≡ false }
    ensures same { (pass.new.table ≡ pass.old.table) × (pass.new.number ≡ pass.old.number) }
    ensures idle { pass.new.holds ≡ false }
{
    for i in 0..count {
        leave_one(rt, turnstile, pass, from.wrapping_add(i));
    }
}

/// What the thread with this number does: it leaves numbers from 1, 1001, 2001 or so on, if it is one of those that work. Else it never enters.
fn one_thread(
    rt: &impl Wait,
    turnstile: &Turnstile<Numbers>,
    pass: &mut Pass<Numbers, u64>,
    number: usize,
    working: usize,
    count: u64,
)
    requires { IsIdle turnstile.now.table number pass.old }
    ensures { IsIdle turnstile.now.table number pass.new }
{
    if number < working {
        let from = (number as u64).wrapping_mul(1000).wrapping_add(1);
        leave_all(rt, turnstile, pass, from, count);
    }
}

/// A thread for each pass.
fn all_threads<R: Threads + Wait + Sync>(
    rt: &R,
    turnstile: &Turnstile<Numbers>,
    passes: &mut [Pass<Numbers, u64>],
    working: usize,
    count: u64,
)
    requires some { 0 < length passes.old }
    requires each { EachAt (IsIdle turnstile.now.table) 0 passes.old }
    ensures each { EachAt (IsIdle turnstile.now.table) 0 passes.new }
{
    let threads = passes.len();
    thread::for_each_mut(
        rt,
        passes,
        threads,
        &|i: usize, pass: &mut Pass<Numbers, u64>|
            requires { IsIdle turnstile.now.table i pass.now }
            ensures { IsIdle turnstile.entry.now.table i pass.exit.now }
        { one_thread(rt, turnstile, pass, i, working, count) },
    );
}

/// The numbers that so many working threads left, so many each, on a turnstile with so many seats.
fn left_by<R: Threads + Wait + Sync>(
    rt: &R,
    alloc: Global,
    seats: u32,
    working: usize,
    count: u64,
) -> Result<Numbers, AllocError>
    requires { 0 < seats }
{
    let start = Numbers {
        items: Vec::new(alloc),
    };
    match Turnstile::new(alloc, start, seats) {
        Ok((turnstile, mut passes)) => {
            all_threads(rt, &turnstile, passes.as_mut_slice(), working, count);
            Ok(turnstile.close(passes))
        }
        Err((_, error)) => Err(error),
    }
}

/// The list has all numbers of each working thread, and each thread's are in their order.
fn are_whole(rt: &impl Abort, numbers: &[u64], working: usize, count: u64) {
    assert_eq!(rt; numbers.len() as u64, (working as u64).wrapping_mul(count));
    let mut next = [0u64; 16];
    for number in numbers {
        let at = number.wrapping_sub(1);
        let thread = (at / 1000) as usize;
        assert!(rt;
            thread < working && thread < 16,
            "a number of no thread: {number}"
        );
        assert_eq!(rt; at % 1000, next[thread], "thread {thread}");
        next[thread] = next[thread].wrapping_add(1);
    }
}

#[test]
fn two_threads_leave_a_hundred_each(rt: HostRuntime) -> Result<(), Fail> {
    let numbers = left_by(&rt, rt.alloc(), 2, 2, 100)?;
    are_whole(&rt, numbers.items.as_slice(), 2, 100);
    Ok(())
}

#[test]
fn sixteen_threads_take_five_hundred_turns_each(rt: HostRuntime) -> Result<(), Fail> {
    let numbers = left_by(&rt, rt.alloc(), 16, 16, 500)?;
    are_whole(&rt, numbers.items.as_slice(), 16, 500);
    Ok(())
}

#[test]
fn a_pass_may_never_enter(rt: HostRuntime) -> Result<(), Fail> {
    let numbers = left_by(&rt, rt.alloc(), 3, 2, 100)?;
    are_whole(&rt, numbers.items.as_slice(), 2, 100);
    Ok(())
}

#[test]
fn one_seat_is_enough(rt: HostRuntime) -> Result<(), Fail> {
    let numbers = left_by(&rt, rt.alloc(), 1, 1, 100)?;
    are_whole(&rt, numbers.items.as_slice(), 1, 100);
    Ok(())
}

/// Want of memory, which `rt try --test --fail-alloc` brings about, hands the value back.
#[test]
fn want_of_memory_hands_the_value_back(rt: HostRuntime) -> Result<(), Fail> {
    let alloc = rt.alloc();
    let mut items = Vec::with_capacity(alloc, 1)?;
    items.push(7u64)?;
    match Turnstile::new(alloc, Numbers { items }, 4) {
        Ok((turnstile, passes)) => {
            let numbers = turnstile.close(passes);
            assert_eq!(rt; numbers.items.len(), 1);
        }
        Err((numbers, _)) => {
            assert_eq!(rt; numbers.items.len(), 1);
            assert!(rt; numbers.items.iter().all(|number| *number == 7));
        }
    }
    Ok(())
}
