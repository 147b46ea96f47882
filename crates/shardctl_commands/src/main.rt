//! `shardctl`, run on the examples of docs/COMMANDS.md, some of which are refused: its exit status is 1.
#![tactic(auto)]

use shardctl_program::starting::start;
use std::process::ExitCode;

fn main(rt: HostRuntime) -> ExitCode {
    start(&rt)
}
