//! What is written about a file that isn't formatted, or wasn't.
ghost use Rattle.std.specs.Prelude.{◌≡◌, ◌++◌, IfOk, OnErr, OnOk, codes, string_bytes};
ghost use Rattle.std.specs.Option.{option_map};
ghost use Rattle.justfile_files.specs.FileResult.{LosesText, report_in};
ghost use Rattle.justfile_files.specs.Outcome.{HasReport, Takes};
ghost use Rattle.justfile_files.specs.Visible.{visible_name};

use crate::output::Output;
use crate::request::Task;
use crate::visible::visible_name;
use line_diff::unified_diff;
use std::alloc::{AllocError, Global};
use std::io;

/// Returns the report of a file with this name and text, whose formatted text is another: its name
/// on a line, or the diff from the text to the formatted text. There is none if the task is to
/// format without names.
pub(crate) fn report_text(
    alloc: Global,
    task: Task,
    name: &str,
    source: &str,
    text: &str,
) -> Result<Option<String>, AllocError>
    ensures { IfOk result (λ report. HasReport task name.now source.now text.now
        (report_in (option_map string_bytes report))) }
{
    match task {
        Task::Format => Ok(None),
        Task::Diff => Ok(Some(unified_diff(alloc, name, source, text)?)),
        Task::FormatAndName => Ok(Some(name_line(alloc, name)?)),
        Task::Check => Ok(Some(name_line(alloc, name)?)),
    }
}

/// Returns a name on a line.
fn name_line(alloc: Global, name: &str) -> Result<String, AllocError>
    ensures { IfOk result (λ line. string_bytes line ≡ visible_name name.now ++ codes "\n") }
{
    let mut line = visible_name(alloc, name)?;
    line.push_str("\n")?;
    Ok(line)
}

/// Writes a report, if there is one.
pub(crate) fn write_report<O: Output>(report: &Option<String>, output: &mut O) -> io::Result<()>
    ensures ok { OnOk result (Takes O.writes O.loses output.old
        (report_in (option_map string_bytes report.now)) output.new) }
    ensures err { OnErr result (LosesText O.loses output.old
        (option_map string_bytes report.now) output.new) }
{
    match report {
        Some(text) => output.take(text.as_str()),
        None => Ok(()),
    }
}
