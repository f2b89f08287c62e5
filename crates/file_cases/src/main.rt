//! Runs what `justfiles` does over a folder in memory, with each of the first three reads, of the
//! first three replacements and of the first three writes of a report failing in turn. Writes a
//! line for each run: the arguments, what fails, the status, the texts of the files, and what was
//! written to the output and as errors; or what other arguments ask for, or what is wrong with them.
//! Then it writes a diff of two changes that are far apart.
#![tactic(auto)]

mod far;
mod folder;
mod formatter;
mod writer;

use far::far_diff;
use folder::MemoryFolder;
use formatter::Constant;
use justfile_files::lint::lint;
use justfile_files::request::{Request, Subject, Task, misuse_lines, request_in};
use justfile_files::run::run;
use std::alloc::{AllocError, Global};
use std::io;
use writer::MemoryWriter;

/// The arguments of each run.
static CASES: &[&str] = &[
    "",
    "--check",
    "--diff --",
    "--check --diff a",
    "a --check",
    "-",
    "a b c",
    "--check a b c",
    "--diff a b c",
    "bad a missing b",
    "--check bad a b",
    "--check -- -n a",
    "-- -n",
    "bytes a",
    "a a",
    "--list",
    "--list a b c",
    "--list bad a missing a",
    "--list -- -n bytes b",
    "--check --list a b",
    "--list --check b a",
    "--list no\x1b bytes",
    "d",
    "--check a d c",
    "--list d/ missing d",
    "-h",
    "--help a",
    "-V",
    "--version",
    "--diff -",
    "--check --list --name n -",
    "--list -",
    "--name",
    "--name n",
    "--name n a",
    "- a",
    "--chek a",
    "--diff a\x1b --check",
    "--in-place",
    "--list --in-place",
    "--in-place --list --",
    "--in-place --check a",
    "--check --in-place a",
    "--in-place -",
    "--list --in-place --name n -",
    "--lint",
    "--lint a b c",
    "--lint bad b missing",
    "--lint b",
    "--lint d",
    "--lint bytes no\x1b",
    "--lint -- -n",
    "--lint see/a",
    "--lint see/c",
    "--lint --name n -",
    "--lint --check a",
    "--check --lint a",
];

/// How many calls of each kind fail in turn.
const MOST_CALLS: usize = 3;

/// Which read, which replacement and which write of a report fails, each counted from 0.
#[derive(Clone, Copy, Debug)]
pub struct Faults {
    pub read: usize,
    pub replacement: usize,
    pub write: usize,
}

/// No call fails.
const NONE: Faults = Faults {
    read: usize::MAX,
    replacement: usize::MAX,
    write: usize::MAX,
};

/// Returns the words of a text.
fn words(alloc: Global, text: &str) -> Result<Vec<String>, AllocError> {
    let mut words = Vec::new(alloc);
    for word in text.split_whitespace() {
        words.push(word.to_string(alloc)?)?;
    }
    Ok(words)
}

/// What is run.
#[derive(Clone, Copy)]
enum Work {
    /// A task.
    Task(Task),
    /// What tells what is wrong.
    Lint,
}

/// Runs the work over a folder, and returns the status.
fn status_of(
    alloc: Global,
    work: Work,
    names: &[String],
    folder: &mut MemoryFolder,
    output: &mut MemoryWriter,
    errors: &mut MemoryWriter,
) -> u8 {
    match work {
        Work::Task(task) => run(alloc, task, names, &Constant, folder, output, errors),
        Work::Lint => lint(alloc, names, &Constant, folder, output, errors),
    }
}

/// Runs the work, and writes its line.
fn run_work(
    rt: &HostRuntime,
    case: &str,
    work: Work,
    names: &[String],
    what: &str,
    faults: Faults,
) -> io::Result<()> {
    let alloc = rt.alloc();
    let mut folder = MemoryFolder::new(alloc, faults)?;
    let mut output = MemoryWriter::new(alloc, faults.write);
    let mut errors = MemoryWriter::new(alloc, usize::MAX);
    let status = status_of(alloc, work, names, &mut folder, &mut output, &mut errors);
    let files = folder.text(alloc)?;
    println!(rt;
        "{case:?} {what} {status} {files} {:?} {:?}",
        output.text(),
        errors.text()
    )
}

/// Runs the work without faults, and then with each fault.
fn run_with_faults(rt: &HostRuntime, case: &str, work: Work, names: &[String]) -> io::Result<()> {
    run_work(rt, case, work, names, "nothing", NONE)?;
    for call in 0..MOST_CALLS {
        let read = Faults { read: call, ..NONE };
        run_work(rt, case, work, names, "read", read)?;
        let replacement = Faults {
            replacement: call,
            ..NONE
        };
        run_work(rt, case, work, names, "replacement", replacement)?;
        let write = Faults {
            write: call,
            ..NONE
        };
        run_work(rt, case, work, names, "write", write)?;
    }
    Ok(())
}

/// Does what the arguments of a case ask for, or writes what that is.
fn run_case(rt: &HostRuntime, case: &str) -> io::Result<()> {
    let arguments = words(rt.alloc(), case)?;
    match request_in(&arguments) {
        Ok(Request::Files(options, names)) => {
            run_with_faults(rt, case, Work::Task(options.task), names)
        }
        Ok(Request::Lint(Subject::Files(names))) => run_with_faults(rt, case, Work::Lint, names),
        Ok(request) => println!(rt; "{case:?} {request:?}"),
        Err(misuse) => {
            let lines = misuse_lines(rt.alloc(), misuse)?;
            println!(rt; "{case:?} {:?}", lines.as_str())
        }
    }
}

fn main(rt: HostRuntime) -> io::Result<()> {
    for case in CASES {
        run_case(&rt, case)?;
    }
    let diff = far_diff(rt.alloc())?;
    print!(rt; "{diff}")
}
