//! Runs rows of data about texts that aren't parsed: their tokens, their literals, and the words of
//! justfiles; and about values and messages of errors that no text leads to.
//!
//! The arguments are the names of files of rows. The program prints the rows that fail or can't be
//! read, and at the end how many hold, fail and can't be read. The exit status is 1 if a row of
//! another file than `wrong.rows` fails or can't be read. `docs/ROWS.md` has the notation and the
//! words. Without arguments it prints the number of the tokens of standard input, or the offset at
//! which it is rejected.
#![tactic(auto)]

mod displayed;
mod format_parts;
mod lexing;
mod messages;
mod names;
mod paths;
mod texts;
mod token_count;
mod word;

use crate::token_count::token_count;
use crate::word::Word;
use row_notation::run_rows;
use std::process::ExitCode;
use std::{env, io};

fn main(rt: HostRuntime) -> io::Result<ExitCode> {
    if env::args(&rt)?.count() > 1 {
        return run_rows::<Word>(&rt);
    }
    print_count(&rt)?;
    Ok(ExitCode::SUCCESS)
}

/// Lexes standard input, and prints the number of its tokens.
fn print_count(rt: &HostRuntime) -> io::Result<()> {
    let text = io::read_to_string(rt.alloc(), rt.reader())?;
    let count = token_count(rt.alloc(), text.as_str())?;
    println!(rt; "{count}")
}
