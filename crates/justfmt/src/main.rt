//! Formats the justfile on standard input.
#![tactic(auto)]

use justfile_format::system::run_on_system;
use std::process::ExitCode;

fn main(rt: HostRuntime) -> ExitCode {
    run_on_system(&rt)
}
