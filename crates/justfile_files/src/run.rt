//! A run over several files.
ghost use Rattle.std.specs.Prelude.{◌≡◌, ◌≤◌};
ghost use Rattle.justfile_files.specs.Outcome.{ChangesFiles, HasOutcomes};
ghost use Rattle.justfile_files.specs.Request.{texts};
ghost use Rattle.justfile_files.specs.Run.{HasRun};

use crate::file::handle_file;
use crate::folder::Folder;
use crate::formatter::Formatter;
use crate::found::find_files;
use crate::messages::Messages;
use crate::output::Output;
use crate::request::Task;
use std::alloc::Global;

/// Does a task with the files that names lead to, which are those of the justfiles of a folder and
/// below if the name is one of a folder: formats the files, and writes the name of each that it
/// changes (`--list`) or nothing; or writes the name of each that isn't formatted (`--check`), or a
/// diff to its formatted text (`--diff`). If it fails for a file, it tells why and goes on with the
/// next one. If a report can't be written, it stops.
///
/// Returns the greatest status of a file: 0 if it is formatted, or is now; 1 if it isn't; 2 if its
/// text can't be formatted; 3 for any other failure, or if there is no memory to find the files.
pub fn run<F: Formatter, D: Folder, O: Output, E: Messages>(
    alloc: Global,
    task: Task,
    names: &[String],
    formatter: &F,
    folder: &mut D,
    output: &mut O,
    errors: &mut E,
) -> u8
    ensures done { HasRun F.formats F.rejects task D.contents D.lists O.writes O.loses E.tells
        (texts names.now) folder.old folder.new output.old output.new
        errors.old errors.new result }
    ensures silent { result ≤ 1 → errors.new ≡ errors.old }
{
    let Ok(found) = find_files(alloc, folder, names) else {
        errors.tell("error: out of memory\n");
        return 3;
    };
    handle_files(alloc, task, formatter, folder, &found, output, errors)
}

/// Does the task with each of the files, up to the first one whose report can't be written, and
/// returns the greatest status.
fn handle_files<F: Formatter, D: Folder, O: Output, E: Messages>(
    alloc: Global,
    task: Task,
    formatter: &F,
    folder: &mut D,
    names: &[String],
    output: &mut O,
    errors: &mut E,
) -> u8
    ensures files { ChangesFiles F.formats task (texts names.now)
        (D.contents folder.old) (D.contents folder.new) }
    ensures outcomes { HasOutcomes F.formats F.rejects task O.writes O.loses E.tells
        (texts names.now) (D.contents folder.old) (D.contents folder.new)
        output.old output.new errors.old errors.new result }
    ensures silent { result ≤ 1 → errors.new ≡ errors.old }
{
    let mut status: u8 = 0;
    for name in names {
        let name = name.as_str();
        let Some(next) = handle_file(alloc, task, formatter, folder, name, output, errors) else {
            return 3;
        };
        status = status.max(next);
    }
    status
}
