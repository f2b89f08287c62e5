//! The formatter as a program, on the arguments and the standard streams of the system.

use crate::failure::{Failure, report};
use crate::run::run;
use std::alloc::Global;
use std::io::{Read, Write};
use std::process::ExitCode;
use system_run::Program;

/// The program `justfmt`.
pub struct Justfmt;

impl Program for Justfmt {
    fn run<R: Read, W: Write, E: Write>(
        alloc: Global,
        arguments: &[String],
        reader: &mut R,
        writer: &mut W,
        errors: &mut E,
    ) -> u8 {
        run(alloc, arguments, reader, writer, errors)
    }

    fn report_memory<E: Write>(errors: &mut E) -> u8 {
        report(&Failure::Memory, errors)
    }
}

/// Does what the program's arguments ask for on the standard streams, as `run` does, and returns
/// the exit status.
pub fn run_on_system(rt: &HostRuntime) -> ExitCode {
    system_run::run_on_system::<Justfmt>(rt)
}
