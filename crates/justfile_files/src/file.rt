//! What is done with one file.
ghost use Rattle.std.specs.Prelude.{◌≡◌, ◌≤◌, IfErr, IfOk, IfSome, string_bytes};
ghost use Rattle.justfile_files.specs.FileResult.{AppliesResult, HasResult, HasStatus, IsRefused, ReplaceResult};
ghost use Rattle.justfile_files.specs.Visible.{visible_name};

use crate::failure::{Failure, report};
use crate::folder::Folder;
use crate::formatter::Formatter;
use crate::messages::Messages;
use crate::output::Output;
use crate::place::place_after;
use crate::report::{report_text, write_report};
use crate::request::Task;
use crate::visible::visible_name;
use std::alloc::Global;
use std::str;

/// Does the task with the file of this name, and returns its status: 0 if it is formatted, 1 if it
/// isn't, 2 if it can't be formatted, none if its report can't be written, 3 for any other failure.
pub(crate) fn handle_file<F: Formatter, D: Folder, O: Output, E: Messages>(
    alloc: Global,
    task: Task,
    formatter: &F,
    folder: &mut D,
    name: &str,
    output: &mut O,
    errors: &mut E,
) -> Option<u8>
    ensures status { HasStatus F.formats F.rejects task O.writes O.loses E.tells name.now
        (D.contents folder.old) (D.contents folder.new) output.old output.new
        errors.old errors.new result }
    ensures silent { IfSome result (λ status. status ≤ 1 → errors.new ≡ errors.old) }
{
    match format_file(alloc, task, formatter, folder, name, output) {
        Ok(true) => Some(0),
        Ok(false) => Some(1),
        Err(failure) => report(alloc, name, &failure, errors),
    }
}

/// Does the task with the file of this name. Returns whether it is formatted then.
fn format_file<F: Formatter, D: Folder, O: Output>(
    alloc: Global,
    task: Task,
    formatter: &F,
    folder: &mut D,
    name: &str,
    output: &mut O,
) -> Result<bool, Failure>
    ensures { HasResult F.formats F.rejects task O.writes O.loses name.now
        (D.contents folder.old) (D.contents folder.new) output.old output.new result }
{
    let bytes = match folder.read(alloc, name) {
        Ok(bytes) => bytes,
        Err(error) => return Err(Failure::Reading(error)),
    };
    let source = match str::from_utf8(&bytes) {
        Ok(source) => source,
        Err(error) => return Err(Failure::NotUtf8(place_after(&bytes, error.valid_up_to()))),
    };
    let text = match formatted_text(alloc, formatter, name, source) {
        Ok(text) => text,
        Err(failure) => return Err(failure),
    };
    if text.as_str() == source {
        return Ok(true);
    }
    apply(alloc, task, folder, name, source, text.as_str(), output)
}

/// Returns the formatted text of the text of the file with this name.
#[tactic(auto, using(crate::proofs::FormatLemmas::refused))]
fn formatted_text<F: Formatter>(
    alloc: Global,
    formatter: &F,
    name: &str,
    source: &str,
) -> Result<String, Failure>
    ensures ok { IfOk result (λ text. F.formats source.now (string_bytes text)) }
    ensures err { IfErr result (IsRefused (F.rejects (visible_name name.now) source.now)) }
{
    let Ok(visible) = visible_name(alloc, name) else {
        return Err(Failure::Exhausted("out of memory"));
    };
    match formatter.format(alloc, visible.as_str(), source) {
        Ok(text) => Ok(text),
        Err(refusal) => Err(Failure::from(refusal)),
    }
}

/// Replaces a file with this name and text by its formatted text, which is another, if the task
/// does that, and writes the report. Returns whether the file is formatted then.
fn apply<D: Folder, O: Output>(
    alloc: Global,
    task: Task,
    folder: &mut D,
    name: &str,
    source: &str,
    text: &str,
    output: &mut O,
) -> Result<bool, Failure>
    ensures { AppliesResult O.writes O.loses task name.now source.now text.now
        (D.contents folder.old) (D.contents folder.new) output.old output.new result }
{
    // made first, so that nothing is changed if there is no memory for it
    let Ok(report) = report_text(alloc, task, name, source, text) else {
        return Err(Failure::Exhausted("out of memory"));
    };
    replace(alloc, task, folder, name, source, text)?;
    match write_report(&report, output) {
        Ok(()) => Ok(task.changes_files()),
        Err(error) => Err(Failure::Writing(error)),
    }
}

/// Replaces a file with this name and text by its formatted text, if the task does that.
fn replace<D: Folder>(
    alloc: Global,
    task: Task,
    folder: &mut D,
    name: &str,
    source: &str,
    text: &str,
) -> Result<(), Failure>
    ensures { ReplaceResult task name.now source.now text.now
        (D.contents folder.old) (D.contents folder.new) result }
{
    if !task.changes_files() {
        return Ok(());
    }
    match folder.replace(alloc, name, source, text) {
        Ok(()) => Ok(()),
        Err(error) => Err(Failure::Replacing(error)),
    }
}
