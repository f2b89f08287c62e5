//! Lists the recipes of the justfile on standard input, as `just --list --unsorted` does, but
//! without its first line, its indentation, its columns, aliases and modules.
#![tactic(auto)]

mod listing;
mod run;

use crate::run::run;
use std::process::ExitCode;

fn main(rt: HostRuntime) -> ExitCode {
    let status = run(
        rt.alloc(),
        &mut rt.stdin(),
        &mut rt.stdout(),
        &mut rt.stderr(),
    );
    ExitCode::from(status)
}
