//! Formats justfiles, or tells which ones aren't formatted, how they would change, or what is wrong
//! with them.
#![tactic(auto)]

mod commit;
mod justfile;
mod linted;
mod located;
mod refusal;
mod returned;

use commit::COMMIT;
use justfile::{Justfile, Lints};
use justfile_files::folder::Folder;
use justfile_files::help::HELP;
use justfile_files::lint::lint;
use justfile_files::request::{Options, Request, Subject, Task, Writing, misuse_lines, request_in};
use justfile_files::run::run;
use justfile_files::visible::visible_name;
use std::io;
use std::process::ExitCode;
use system_folder::arguments::{Arguments, read_arguments};
use system_folder::file_system::FileSystem;
use system_folder::stream::Stream;
use system_folder::{SearchError, find_justfile};

/// What is done with texts.
#[derive(Clone, Copy)]
enum Work {
    /// A task.
    Task(Options),
    /// To tell what is wrong with them.
    Lint,
}

/// Does the work with the files that names lead to in a folder, and returns the status.
fn run_on<D: Folder>(rt: &HostRuntime, work: Work, names: &[String], folder: &mut D) -> u8 {
    let alloc = rt.alloc();
    let mut output = rt.stdout();
    let mut errors = rt.stderr();
    match work {
        Work::Task(options) => run(
            alloc,
            options.task,
            names,
            &Justfile,
            folder,
            &mut output,
            &mut errors,
        ),
        Work::Lint => lint(
            alloc,
            names,
            &Lints { folders: rt },
            folder,
            &mut output,
            &mut errors,
        ),
    }
}

/// Does the work with the files that names lead to, and returns the status. Files that it made and
/// that are left are an error.
fn run_on_files(
    rt: &HostRuntime,
    work: Work,
    names: &[String],
    garbled: &[String],
) -> io::Result<u8> {
    let writing = match work {
        Work::Task(options) => options.writing,
        Work::Lint => Writing::Replace,
    };
    let mut folder = FileSystem::new(rt, garbled, writing);
    let status = run_on(rt, work, names, &mut folder);
    for path in folder.leftovers() {
        let path = visible_name(rt.alloc(), path.as_str())?;
        eprintln!(rt; "error: {path}: can't be removed")?;
    }
    Ok(if folder.leftovers().is_empty() {
        status
    } else {
        3
    })
}

/// Does the work with the justfile that `just` would find, and returns the status.
fn run_on_nearest(rt: &HostRuntime, work: Work) -> io::Result<u8> {
    let error = match find_justfile(rt) {
        Ok(path) => return run_on_files(rt, work, &[path], &[]),
        Err(error) => error,
    };
    match error {
        SearchError::System(error) => return Err(error),
        SearchError::Missing => eprintln!(rt; "error: no justfile found")?,
        SearchError::Two(one, other) => eprintln!(rt;
            "error: {one} and {other} are both justfiles"
        )?,
    }
    Ok(3)
}

/// Does the work with standard input, and returns the status.
fn run_on_stream(rt: &HostRuntime, work: Work, name: &str) -> io::Result<u8> {
    let mut stream = Stream::new(rt);
    let status = run_on(rt, work, &[name.to_string(rt.alloc())?], &mut stream);
    let formats = match work {
        Work::Task(options) => options.task == Task::Format,
        Work::Lint => false,
    };
    if !formats || status != 0 {
        return Ok(status);
    }
    let Err(error) = stream.write_unchanged() else {
        return Ok(0);
    };
    let name = visible_name(rt.alloc(), name)?;
    eprintln!(rt; "error: {name}: can't be written: {error}")?;
    Ok(3)
}

/// Does a task with standard input, and returns the status.
fn do_with_stream(rt: &HostRuntime, task: Task, name: &str) -> io::Result<u8> {
    let options = Options {
        task,
        writing: Writing::Replace,
    };
    run_on_stream(rt, Work::Task(options), name)
}

/// Tells what is wrong with texts, and returns the status.
fn lint_subject(rt: &HostRuntime, subject: Subject<'_>, garbled: &[String]) -> io::Result<u8> {
    match subject {
        Subject::Files(names) => run_on_files(rt, Work::Lint, names, garbled),
        Subject::Nearest => run_on_nearest(rt, Work::Lint),
        Subject::Stream(name) => run_on_stream(rt, Work::Lint, name),
    }
}

/// Does what is asked for, and returns the status.
fn answer(rt: &HostRuntime, request: Request<'_>, garbled: &[String]) -> io::Result<u8> {
    match request {
        Request::Help => print!(rt; "{HELP}")?,
        Request::Version => {
            println!(rt; "justfiles, commit {COMMIT}, for the language of just 1.58.0")?;
        }
        Request::Files(options, names) => {
            return run_on_files(rt, Work::Task(options), names, garbled);
        }
        Request::Nearest(options) => return run_on_nearest(rt, Work::Task(options)),
        Request::Stream(task, name) => return do_with_stream(rt, task, name),
        Request::Lint(subject) => return lint_subject(rt, subject, garbled),
    }
    Ok(0)
}

/// Does what the arguments ask for, and returns the status.
fn run_all(rt: &HostRuntime) -> io::Result<u8> {
    let Arguments { words, garbled } = read_arguments(rt)?;
    match request_in(&words) {
        Ok(request) => answer(rt, request, &garbled),
        Err(misuse) => {
            let lines = misuse_lines(rt.alloc(), misuse)?;
            eprint!(rt; "{lines}")?;
            Ok(3)
        }
    }
}

fn main(rt: HostRuntime) -> ExitCode {
    match run_all(&rt) {
        Ok(status) => ExitCode::from(status),
        Err(error) => {
            let _ = eprintln!(rt; "error: {error}");
            ExitCode::from(3)
        }
    }
}
