//! A run that tells what is wrong with files.
ghost use Rattle.std.specs.Prelude.{◌≡◌, ◌≤◌, IfErr, IfOk, string_bytes};
ghost use Rattle.justfile_files.specs.FileResult.{IsRefused};
ghost use Rattle.justfile_files.specs.Folder.{KeepsFiles};
ghost use Rattle.justfile_files.specs.Lint.{AreJudged, Finds, IsJudged, IsWritten, LintsFiles, Rejects, lines_status};
ghost use Rattle.justfile_files.specs.Request.{texts};
ghost use Rattle.justfile_files.specs.Sources.{sources};

use crate::failure::{Failure, report};
use crate::folder::Folder;
use crate::found::find_files;
use crate::linter::Linter;
use crate::messages::Messages;
use crate::output::Output;
use crate::sources::{SourceFile, read_sources};
use std::alloc::Global;

/// Writes what is wrong with each of the files that names lead to, which are those of the justfiles
/// of a folder and below if the name is one of a folder. If it fails for a file, it tells why and
/// goes on with the next one. It changes no file.
///
/// Returns the greatest status of a file: 0 if nothing is wrong with it; 1 if anything is; 2 if its
/// text can't be judged; 3 for any other failure, or if there is no memory to find the files.
pub fn lint<L: Linter, D: Folder, O: Output, E: Messages>(
    alloc: Global,
    names: &[String],
    linter: &L,
    folder: &mut D,
    output: &mut O,
    errors: &mut E,
) -> u8
    ensures done { LintsFiles (Finds L.leads L.finds) (Rejects L.leads L.rejects)
        D.contents D.lists O.writes O.loses E.tells (texts names.now)
        folder.old folder.new output.old output.new errors.old errors.new result }
    ensures silent { result ≤ 1 → errors.new ≡ errors.old }
{
    let Ok(found) = find_files(alloc, folder, names) else {
        errors.tell("error: out of memory\n");
        return 3;
    };
    lint_files(alloc, linter, folder, &found, output, errors)
}

/// Writes what is wrong with each of the files, and returns the greatest status.
fn lint_files<L: Linter, D: Folder, O: Output, E: Messages>(
    alloc: Global,
    linter: &L,
    folder: &mut D,
    names: &[String],
    output: &mut O,
    errors: &mut E,
) -> u8
    ensures kept { KeepsFiles (D.contents folder.old) (D.contents folder.new) }
    ensures judged { AreJudged (Finds L.leads L.finds) (Rejects L.leads L.rejects)
        (D.contents folder.old) O.writes O.loses E.tells
        (texts names.now) output.old output.new errors.old errors.new result }
    ensures silent { result ≤ 1 → errors.new ≡ errors.old }
{
    let mut status: u8 = 0;
    for name in names {
        let name = name.as_str();
        let next = lint_file(alloc, linter, folder, name, output, errors);
        status = status.max(next);
    }
    status
}

/// Writes what is wrong with the file of this name, or tells why that isn't known, and returns its
/// status.
fn lint_file<L: Linter, D: Folder, O: Output, E: Messages>(
    alloc: Global,
    linter: &L,
    folder: &mut D,
    name: &str,
    output: &mut O,
    errors: &mut E,
) -> u8
    ensures kept { KeepsFiles (D.contents folder.old) (D.contents folder.new) }
    ensures judged { IsJudged (Finds L.leads L.finds) (Rejects L.leads L.rejects)
        (D.contents folder.old) O.writes O.loses E.tells
        name.now output.old output.new errors.old errors.new result }
    ensures silent { result ≤ 1 → errors.new ≡ errors.old }
{
    match lines_of_file(alloc, linter, folder, name) {
        Ok(lines) => write_lines(alloc, name, lines.as_str(), output, errors),
        Err(failure) => report(alloc, name, &failure, errors).unwrap_or(3),
    }
}

/// Returns the lines that tell what is wrong with the file of this name and those that it leads to.
fn lines_of_file<L: Linter, D: Folder>(
    alloc: Global,
    linter: &L,
    folder: &mut D,
    name: &str,
) -> Result<String, Failure>
    ensures kept { KeepsFiles (D.contents folder.old) (D.contents folder.new) }
    ensures ok { IfOk result (λ lines. Finds L.leads L.finds (D.contents folder.old) name.now
        (string_bytes lines)) }
    ensures err { IfErr result
        (IsRefused (Rejects L.leads L.rejects (D.contents folder.old) name.now)) }
{
    let read = read_sources(alloc, linter, folder, name)?;
    lines_of_sources(alloc, linter, &read.files, &read.missing)
}

/// Returns the lines that tell what is wrong with the first of the files and those that it leads to.
#[tactic(auto, using(crate::proofs::FormatLemmas::refused))]
fn lines_of_sources<L: Linter>(
    alloc: Global,
    linter: &L,
    files: &[SourceFile],
    missing: &[String],
) -> Result<String, Failure>
    ensures ok { IfOk result
        (λ lines. L.finds (sources files.now) (texts missing.now) (string_bytes lines)) }
    ensures err { IfErr result (IsRefused (L.rejects (sources files.now))) }
{
    match linter.lint(alloc, files, missing) {
        Ok(lines) => Ok(lines),
        Err(refusal) => Err(Failure::from(refusal)),
    }
}

/// Writes the lines that tell what is wrong with the file of this name, and returns its status.
fn write_lines<O: Output, E: Messages>(
    alloc: Global,
    name: &str,
    lines: &str,
    output: &mut O,
    errors: &mut E,
) -> u8
    ensures written { IsWritten O.writes O.loses E.tells name.now lines.now
        output.old output.new errors.old errors.new result }
    ensures silent { result ≤ 1 → errors.new ≡ errors.old }
{
    match output.take(lines) {
        Ok(()) => lines_status(lines),
        Err(error) => {
            report(alloc, name, &Failure::Writing(error), errors);
            3
        }
    }
}

/// Returns the status of a file whose lines were written.
fn lines_status(lines: &str) -> u8
    ensures { result ≡ lines_status lines.now }
{
    match lines.as_bytes() {
        [] => 0,
        [_, ..] => 1,
    }
}
