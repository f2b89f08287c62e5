//! Runs rows of data about justfiles and about what is built on the library: the program `justfmt`,
//! callers, surveys, problems with names, and attributes and interpreters that are made. Compares
//! what they find with what they expect.
//!
//! The arguments are the names of files of rows. A row has a word, which says what it does, then
//! its input, and then what it expects:
//!
//!     prints «a:=b» «a := b\n»
//!
//! The program prints the rows that fail or can't be read, and at the end how many hold, fail and
//! can't be read. The exit status is 1 if a row of another file than `wrong.rows` fails or can't be
//! read. `docs/ROWS.md` has the notation and the words.
//!
//! Without arguments the program makes calls of the library between lines that it writes, for
//! `bench/faults.sh`.
#![tactic(auto)]

mod beginnings;
mod callers;
mod calls;
mod expansion;
mod fields;
mod files;
mod lints;
mod printing;
mod program;
mod question;
mod scarce;
mod surveys;
mod symbols;
mod word;

use crate::scarce::run_calls;
use crate::word::Word;
use row_notation::run_rows;
use std::process::ExitCode;
use std::{env, io};

fn main(rt: HostRuntime) -> io::Result<ExitCode> {
    if env::args(&rt)?.count() > 1 {
        return run_rows::<Word>(&rt);
    }
    run_calls(&rt)?;
    Ok(ExitCode::SUCCESS)
}
