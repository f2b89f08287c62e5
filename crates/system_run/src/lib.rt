//! Runs a program on the arguments and the standard streams of the system, and writes bytes until a
//! write fails.
#![tactic(auto)]

mod output;

pub use crate::output::write_up_to;
use std::alloc::Global;
use std::env;
use std::io::{self, ErrorKind, Read, Write};
use std::process::ExitCode;

/// What a program does with its arguments and its standard streams.
pub trait Program {
    /// Does what the arguments ask for, and returns the exit status. If one of the system's
    /// arguments isn't UTF-8, `?` is the only one.
    fn run<R: Read, W: Write, E: Write>(
        alloc: Global,
        arguments: &[String],
        reader: &mut R,
        writer: &mut W,
        errors: &mut E,
    ) -> u8;

    /// Reports that there is no memory for the arguments, and returns the exit status.
    fn report_memory<E: Write>(errors: &mut E) -> u8;
}

/// Returns the arguments after the program's name. If one of them isn't UTF-8, returns `?` alone.
fn arguments(rt: &HostRuntime) -> io::Result<Vec<String>> {
    let alloc = rt.alloc();
    let mut arguments = Vec::new(alloc);
    match env::args(rt) {
        Ok(all) => {
            for argument in all.skip(1) {
                arguments.push(argument)?;
            }
        }
        Err(error) if error.kind() == ErrorKind::InvalidData => {
            arguments.push("?".to_string(alloc)?)?;
        }
        Err(error) => return Err(error),
    }
    Ok(arguments)
}

/// Runs a program with these arguments on the standard streams, and returns the exit status.
fn run_on_streams<P: Program>(rt: &HostRuntime, arguments: &[String]) -> u8 {
    let mut reader = rt.stdin();
    let mut writer = rt.stdout();
    let mut errors = rt.stderr();
    P::run(rt.alloc(), arguments, &mut reader, &mut writer, &mut errors)
}

/// Runs a program with the system's arguments on the standard streams, and returns the exit status.
pub fn run_on_system<P: Program>(rt: &HostRuntime) -> ExitCode {
    match arguments(rt) {
        Ok(arguments) => ExitCode::from(run_on_streams::<P>(rt, &arguments)),
        Err(_) => ExitCode::from(P::report_memory(&mut rt.stderr())),
    }
}
