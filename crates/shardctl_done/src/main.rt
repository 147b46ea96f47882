//! `shardctl`, run over files on a script of which nothing is refused: its exit status is 0.
#![tactic(auto)]

use shardctl_program::starting::start;
use std::process::ExitCode;

fn main(rt: HostRuntime) -> ExitCode {
    start(&rt)
}
