//! The program `shardctl`: runs a script from standard input over stores in the files of a folder, or in memory.
#![tactic(auto)]

#[cfg(test)]
mod edge_tests;
#[cfg(test)]
mod store_tests;

use shardctl_program::starting::start;
use std::process::ExitCode;

fn main(rt: HostRuntime) -> ExitCode {
    start(&rt)
}
