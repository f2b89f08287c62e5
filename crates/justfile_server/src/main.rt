//! A server for editors of justfiles: it speaks the Language Server Protocol over standard input and
//! output.
#![tactic(auto)]

mod blanks;
mod choices;
mod chunk;
mod colors;
mod comments;
mod commit;
mod findings;
mod fixes;
mod headers;
mod justfiles;
mod links;
mod ranges;
mod runs;
mod signs;

use commit::COMMIT;
use editor_server::serve;
use justfiles::Justfiles;
use std::env;
use std::io::{self, BufReader};
use std::process::ExitCode;

/// What `--help` writes.
const HELP: &str = "\
A server of the Language Server Protocol for justfiles, over standard input and output. An editor
starts it.

usage: justfile_server

-h, --help     writes this text
-V, --version  writes the version

Other arguments mean nothing.
";

/// Writes the text that the first argument asks for, if it asks for one. Returns whether it did.
fn answer(rt: &HostRuntime) -> io::Result<bool> {
    let Ok(mut arguments) = env::args(rt) else {
        return Ok(false);
    };
    let Some(word) = arguments.nth(1) else {
        return Ok(false);
    };
    match word.as_str() {
        "-h" | "--help" => print!(rt; "{HELP}")?,
        "-V" | "--version" => {
            println!(rt; "justfile_server, commit {COMMIT}, for the language of just 1.58.0")?;
        }
        _ => return Ok(false),
    }
    Ok(true)
}

/// Serves an editor over the standard streams, unless an argument asks for a text, and returns the
/// exit status.
fn run(rt: &HostRuntime) -> io::Result<u8> {
    if answer(rt)? {
        return Ok(0);
    }
    let mut reader = BufReader::new(rt.alloc(), rt.stdin())?;
    let mut writer = rt.stdout();
    let language = Justfiles { folders: rt };
    serve(rt.alloc(), &language, &mut reader, &mut writer)
}

fn main(rt: HostRuntime) -> ExitCode {
    match run(&rt) {
        Ok(status) => ExitCode::from(status),
        Err(_) => ExitCode::from(3),
    }
}
