//! Threads that take turns.
ghost use Rattle.std.specs.Prelude.{◌≡◌, ℕ, ◌<◌, false, length};
ghost use Rattle.turnstile.specs.States.{EachAt, IsIdle};

use crate::work::Work;
use std::alloc::{AllocError, Global};
use std::sync::Wait;
use std::thread;
use std::thread::Threads;
use turnstile::{Pass, Turnstile};

/// How long a run is.
#[derive(Clone, Copy, Drop)]
pub struct Length {
    /// Turns of each thread.
    pub turns: u64,
    /// Rounds of work in a turn.
    pub rounds: u64,
}

/// The turns of one thread.
fn one_thread(
    rt: &impl Wait,
    turnstile: &Turnstile<Work>,
    pass: &mut Pass<Work, u64>,
    number: usize,
    long: Length,
)
    requires { IsIdle turnstile.now.table number pass.old }
    ensures { IsIdle turnstile.now.table number pass.new }
{
    for _ in 0..long.turns {
        let mut work = turnstile.enter(rt, pass);
        work.turn(number as u64, long.rounds);
        turnstile.leave(pass, work);
    }
}

/// A thread for each pass.
fn all_threads<R: Threads + Wait + Sync>(
    rt: &R,
    turnstile: &Turnstile<Work>,
    passes: &mut [Pass<Work, u64>],
    long: Length,
)
    requires some { 0 < length passes.old }
    requires each { EachAt (IsIdle turnstile.now.table) 0 passes.old }
    ensures each { EachAt (IsIdle turnstile.now.table) 0 passes.new }
{
    let threads = passes.len();
    thread::for_each_mut(
        rt,
        passes,
        threads,
        &|i: usize, pass: &mut Pass<Work, u64>|
            requires { IsIdle turnstile.now.table i pass.now }
            ensures { IsIdle turnstile.entry.now.table i pass.exit.now }
        { one_thread(rt, turnstile, pass, i, long) },
    );
}

/// The work after all turns of so many threads.
pub fn run<R: Threads + Wait + Sync>(
    rt: &R,
    alloc: Global,
    threads: u32,
    long: Length,
) -> Result<Work, AllocError>
    requires { 0 < threads }
{
    let start = Work {
        turns: Vec::new(alloc),
        state: 88172645463325252,
    };
    match Turnstile::new(alloc, start, threads) {
        Ok((turnstile, mut passes)) => {
            all_threads(rt, &turnstile, passes.as_mut_slice(), long);
            Ok(turnstile.close(passes))
        }
        Err((_, error)) => Err(error),
    }
}
