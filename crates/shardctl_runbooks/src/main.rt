//! `shardctl`, run on the runbooks of docs/OPERATING.md, of which nothing is refused: its exit status is 0.
#![tactic(auto)]

#[cfg(test)]
mod crash_tests;

use shardctl_program::starting::start;
use std::process::ExitCode;

fn main(rt: HostRuntime) -> ExitCode {
    start(&rt)
}
