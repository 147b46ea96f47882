//! Takes many turns: `bench_turns THREADS TURNS ROUNDS`, with 1 to 16 threads, so many turns of each, and so many rounds of work in a turn. Writes how many turns were counted, and the
//! state that the work came to, which is the same for each order of the turns.
#![tactic(auto)]

mod threads;
mod work;

use anyhow::{Context, Error, bail};
use std::env;
use threads::{Length, run};

fn main(rt: HostRuntime) -> Result<(), Error> {
    let mut words = env::args(&rt)?;
    let _program = words.next();
    let mut numbers = [0u64; 3];
    for number in &mut numbers {
        let word = words.next().context("THREADS TURNS ROUNDS")?;
        *number = word.parse::<u64>().context("no number")?;
    }
    let [threads, turns, rounds] = numbers;
    if threads == 0 || threads > 16 {
        bail!("1 to 16 threads");
    }
    let work = run(&rt, rt.alloc(), threads as u32, Length { turns, rounds })?;
    println!(rt; "{} {}", work.turns.len(), work.state)?;
    Ok(())
}
