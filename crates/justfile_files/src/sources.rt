//! The files that a file leads to.
ghost use Rattle.std.specs.Prelude.{◌≡◌, ◌<◌, ◌++◌, ◌∷◌, [], ℕ, IfErr, IfOk, List, OnOk, Option, Some, length, string_bytes};
ghost use Rattle.std.specs.List.{list_any};
ghost use Rattle.justfile_files.specs.Failure.{failure_status};
ghost use Rattle.justfile_files.specs.Folder.{KeepsFiles};
ghost use Rattle.justfile_files.specs.Sources.{AreRead, Extends, HasText, IsNamed, IsRootOf, is_at, is_text, source_of, sources};
ghost use Rattle.justfile_files.specs.Path.{plain_path};
ghost use Rattle.justfile_files.specs.Request.{texts};
ghost use Rattle.justfile_files.specs.Visible.{visible_name};

use crate::failure::Failure;
use crate::folder::Folder;
use crate::linter::Linter;
use crate::path::plain_path;
use crate::place::place_after;
use crate::visible::visible_name;
use std::alloc::{AllocError, Global};
use std::io::ErrorKind;
use std::str;

/// How many files are looked at for those that they name: more than anyone writes.
const MOST_FILES: usize = 1_000;

/// A file that was read.
#[derive(Drop)]
pub struct SourceFile {
    /// Its name in messages.
    pub name: String,
    /// Its path, by which others name it.
    pub path: String,
    /// Its text.
    pub text: String,
}

/// A file, and those that it leads to.
#[derive(Drop)]
pub(crate) struct Sources {
    /// The files, each after one that names it.
    pub(crate) files: Vec<SourceFile>,
    /// Paths that they name and at which there is no file.
    pub(crate) missing: Vec<String>,
}

/// What is at a path.
#[derive(Drop)]
enum Found {
    /// A file with this text.
    Text(String),
    /// No file.
    Nothing,
    /// Something that can't be read, or isn't UTF-8.
    Unknown,
}

/// Returns the file with this name, and those that it leads to, each once.
///
/// # Errors
///
/// That file can't be read or isn't UTF-8, or memory ran out.
pub(crate) fn read_sources<L: Linter, D: Folder>(
    alloc: Global,
    linter: &L,
    folder: &mut D,
    name: &str,
) -> Result<Sources, Failure>
    ensures kept { KeepsFiles (D.contents folder.old) (D.contents folder.new) }
    ensures ok { IfOk result (λ read.
        AreRead L.leads (D.contents folder.old) name.now (sources read.files.items)) }
    ensures err { IfErr result (λ failure. failure_status failure ≡ Some 3) }
{
    let root = read_root(alloc, folder, name)?;
    match read_from(alloc, linter, folder, root) {
        Ok(read) => Ok(read),
        Err(_) => Err(Failure::Exhausted("out of memory")),
    }
}

/// Returns the file with this name.
fn read_root<D: Folder>(alloc: Global, folder: &mut D, name: &str) -> Result<SourceFile, Failure>
    ensures kept { KeepsFiles (D.contents folder.old) (D.contents folder.new) }
    ensures ok { IfOk result (λ file.
        IsRootOf (D.contents folder.old) name.now (source_of file)) }
    ensures err { IfErr result (λ failure. failure_status failure ≡ Some 3) }
{
    let bytes = match folder.read(alloc, name) {
        Ok(bytes) => bytes,
        Err(error) => return Err(Failure::Reading(error)),
    };
    let text = match str::from_utf8(&bytes) {
        Ok(text) => text,
        Err(error) => return Err(Failure::NotUtf8(place_after(&bytes, error.valid_up_to()))),
    };
    match root_of(alloc, name, text) {
        Ok(file) => Ok(file),
        Err(_) => Err(Failure::Exhausted("out of memory")),
    }
}

/// Returns the file with this name and text.
fn root_of(alloc: Global, name: &str, text: &str) -> Result<SourceFile, AllocError>
    ensures name { IfOk result (λ file. (source_of file).name ≡ visible_name name.now) }
    ensures path { IfOk result (λ file. (source_of file).path ≡ plain_path name.now) }
    ensures text { IfOk result (λ file. (source_of file).text ≡ text.now) }
{
    Ok(SourceFile {
        name: visible_name(alloc, name)?,
        path: plain_path(alloc, name)?,
        text: text.to_string(alloc)?,
    })
}

/// Returns this file, and those that it leads to.
fn read_from<L: Linter, D: Folder>(
    alloc: Global,
    linter: &L,
    folder: &mut D,
    root: SourceFile,
) -> Result<Sources, AllocError>
    ensures kept { KeepsFiles (D.contents folder.old) (D.contents folder.new) }
    ensures read { IfOk result (λ read. Extends L.leads (D.contents folder.old)
        (source_of root ∷ []) (sources read.files.items)) }
{
    let mut files = Vec::new(alloc);
    files.push(root)?;
    let mut missing = Vec::new(alloc);
    read_all(alloc, linter, folder, &mut files, &mut missing)?;
    Ok(Sources { files, missing })
}

/// Appends the files that files lead to, each once, and the paths at which there is none.
fn read_all<L: Linter, D: Folder>(
    alloc: Global,
    linter: &L,
    folder: &mut D,
    files: &mut Vec<SourceFile>,
    missing: &mut Vec<String>,
) -> Result<(), AllocError>
    ensures kept { KeepsFiles (D.contents folder.old) (D.contents folder.new) }
    ensures read { OnOk result (Extends L.leads (D.contents folder.old)
        (sources files.old.items) (sources files.new.items)) }
{
    for index in 0..MOST_FILES {
        read_at(alloc, linter, folder, index, files, missing)?;
    }
    Ok(())
}

/// Appends the files that the one with this index names, if there is one.
#[tactic(auto, using(crate::proofs::SourceLemmas::extends_none))]
fn read_at<L: Linter, D: Folder>(
    alloc: Global,
    linter: &L,
    folder: &mut D,
    index: usize,
    files: &mut Vec<SourceFile>,
    missing: &mut Vec<String>,
) -> Result<(), AllocError>
    ensures kept { KeepsFiles (D.contents folder.old) (D.contents folder.new) }
    ensures read { OnOk result (Extends L.leads (D.contents folder.old)
        (sources files.old.items) (sources files.new.items)) }
{
    if index < files.len() {
        read_named_by(alloc, linter, folder, index, files, missing)
    } else {
        Ok(())
    }
}

/// Appends the files that the one with this index names.
fn read_named_by<L: Linter, D: Folder>(
    alloc: Global,
    linter: &L,
    folder: &mut D,
    index: usize,
    files: &mut Vec<SourceFile>,
    missing: &mut Vec<String>,
) -> Result<(), AllocError>
    requires { index < length files.old.items }
    ensures kept { KeepsFiles (D.contents folder.old) (D.contents folder.new) }
    ensures read { OnOk result (Extends L.leads (D.contents folder.old)
        (sources files.old.items) (sources files.new.items)) }
{
    let paths = paths_of(alloc, linter, &files[index])?;
    for path in &paths {
        read_path(alloc, linter, folder, path.as_str(), files, missing)?;
    }
    Ok(())
}

/// Returns the paths that a file names.
fn paths_of<L: Linter>(
    alloc: Global,
    linter: &L,
    file: &SourceFile,
) -> Result<Vec<String>, AllocError>
    ensures { IfOk result (λ paths. L.leads (source_of file.now).path (source_of file.now).text
        (texts paths.items)) }
{
    linter.paths(alloc, file.path.as_str(), file.text.as_str())
}

/// Appends the file at a path that one of the files names, unless it is one of them.
#[tactic(auto, using(crate::proofs::SourceLemmas::extends_none))]
fn read_path<L: Linter, D: Folder>(
    alloc: Global,
    _linter: &L,
    folder: &mut D,
    path: &str,
    files: &mut Vec<SourceFile>,
    missing: &mut Vec<String>,
) -> Result<(), AllocError>
    requires { IsNamed L.leads (sources files.old.items) path.now }
    ensures kept { KeepsFiles (D.contents folder.old) (D.contents folder.new) }
    ensures read { OnOk result (Extends L.leads (D.contents folder.old)
        (sources files.old.items) (sources files.new.items)) }
{
    if has_path(files, path) || has_text(missing, path) {
        return Ok(());
    }
    match find(alloc, folder, path)? {
        Found::Text(text) => push_file(alloc, path, text, files),
        Found::Nothing => push_copy(alloc, path, missing),
        Found::Unknown => Ok(()),
    }
}

/// Whether one of the files has a path.
fn has_path(files: &[SourceFile], path: &str) -> bool
    ensures { result ≡ list_any (is_at path.now) files.now }
{
    files.iter().any(|file| file.path.as_str() == path)
}

/// Whether a text is one of some texts.
fn has_text(texts: &[String], text: &str) -> bool
    ensures { result ≡ list_any (is_text text.now) texts.now }
{
    texts.iter().any(|other| other.as_str() == text)
}

/// Appends a copy of a text.
fn push_copy(alloc: Global, text: &str, copies: &mut Vec<String>) -> Result<(), AllocError>
    ensures { OnOk result (texts copies.new.items ≡ texts copies.old.items ++ text.now ∷ []) }
{
    copies.push(text.to_string(alloc)?)?;
    Ok(())
}

/// Appends the file at a path with this text.
fn push_file(
    alloc: Global,
    path: &str,
    text: String,
    files: &mut Vec<SourceFile>,
) -> Result<(), AllocError>
    ensures { OnOk result (sources files.new.items ≡ sources files.old.items
        ++ record { name = visible_name path.now; path = path.now; text = string_bytes text } ∷ []) }
{
    files.push(SourceFile {
        name: visible_name(alloc, path)?,
        path: path.to_string(alloc)?,
        text,
    })?;
    Ok(())
}

/// Returns what is at a path.
fn find<D: Folder>(alloc: Global, folder: &mut D, path: &str) -> Result<Found, AllocError>
    ensures kept { KeepsFiles (D.contents folder.old) (D.contents folder.new) }
    ensures text { IfOk result (HasText (D.contents folder.old path.now)) }
{
    match folder.read_named(alloc, path) {
        Ok(bytes) => found_in(alloc, &bytes),
        Err(error) => Ok(without_file(error.kind())),
    }
}

/// Returns the file with these bytes.
fn found_in(alloc: Global, bytes: &[u8]) -> Result<Found, AllocError>
    ensures { IfOk result (HasText (Some bytes.now)) }
{
    match str::from_utf8(bytes) {
        Ok(text) => Ok(Found::Text(text.to_string(alloc)?)),
        Err(_) => Ok(Found::Unknown),
    }
}

/// Returns what is where reading fails with an error of this kind.
fn without_file(kind: ErrorKind) -> Found
    ensures { (known : Option (List ℕ)) → HasText known result }
{
    match kind {
        ErrorKind::NotFound | ErrorKind::NotADirectory | ErrorKind::IsADirectory => Found::Nothing,
        _ => Found::Unknown,
    }
}
