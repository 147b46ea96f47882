//! `shardctl`, run with `--store` and no folder: its exit status is 2, and nothing is done.
#![tactic(auto)]

use shardctl_program::starting::start;
use std::process::ExitCode;

fn main(rt: HostRuntime) -> ExitCode {
    start(&rt)
}
