//! Shows that `system_run` passes on the arguments, the standard streams and the exit status: the
//! program writes its arguments and its input, and ends with a status of its own if it could also
//! write to standard error.
#![tactic(auto)]

use std::alloc::Global;
use std::io::{self, Read, Write};
use std::process::ExitCode;
use system_run::{Program, run_on_system};

/// The exit status if all was written.
const WRITTEN: u8 = 4;

/// The exit status if reading or writing failed.
const FAILED: u8 = 5;

/// The program.
struct Echo;

impl Program for Echo {
    fn run<R: Read, W: Write, E: Write>(
        alloc: Global,
        arguments: &[String],
        reader: &mut R,
        writer: &mut W,
        errors: &mut E,
    ) -> u8 {
        match write_back(alloc, arguments, reader, writer, errors) {
            Ok(()) => WRITTEN,
            Err(_) => FAILED,
        }
    }

    fn report_memory<E: Write>(_errors: &mut E) -> u8 {
        FAILED
    }
}

/// Writes each argument as a line, then the input, and a line to standard error.
fn write_back<R: Read, W: Write, E: Write>(
    alloc: Global,
    arguments: &[String],
    reader: &mut R,
    writer: &mut W,
    errors: &mut E,
) -> io::Result<()> {
    for argument in arguments {
        writer.write_all(argument.as_bytes())?;
        writer.write_all(b"\n")?;
    }
    let mut input = Vec::new(alloc);
    reader.read_to_end(&mut input)?;
    writer.write_all(&input)?;
    writer.flush()?;
    errors.write_all(b"written to standard error\n")
}

fn main(rt: HostRuntime) -> ExitCode {
    run_on_system::<Echo>(&rt)
}
