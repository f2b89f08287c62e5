//! The justfile that `just` finds.

use crate::held_folder::is_same_file;
use std::alloc::AllocError;
use std::{fs, io};

/// Why no justfile was found.
#[derive(Debug, Drop)]
pub enum SearchError {
    /// A folder can't be read, or memory ran out.
    System(io::Error),
    /// There is none in the current folder or above.
    Missing,
    /// A folder has two, with these paths.
    Two(String, String),
}

impl From<io::Error> for SearchError {
    fn from(error: io::Error) -> Self {
        SearchError::System(error)
    }
}

impl From<AllocError> for SearchError {
    fn from(error: AllocError) -> Self {
        SearchError::System(io::Error::from(error))
    }
}

/// Returns the path of the justfile of the current folder, or else of the nearest folder above that
/// has one: a file named `justfile` or `.justfile`, in any case.
///
/// # Errors
///
/// There is none, a folder has two, or can't be read.
pub fn find_justfile(rt: &HostRuntime) -> Result<String, SearchError> {
    let mut folder = String::new(rt.alloc());
    for _ in 0..usize::MAX {
        if let Some(path) = justfile_in(rt, folder.as_str())? {
            return Ok(path);
        }
        let above = format!(in rt.alloc(); "{}../", folder.as_str())?;
        if is_top(rt, folder.as_str(), above.as_str())? {
            break;
        }
        folder = above;
    }
    Err(SearchError::Missing)
}

/// Whether a folder is the one that is above all others: the one above it is itself.
fn is_top(rt: &HostRuntime, folder: &str, above: &str) -> io::Result<bool> {
    let here = if folder.is_empty() { "." } else { folder };
    Ok(is_same_file(&fs::metadata(rt, here)?, &fs::metadata(rt, above)?))
}

/// Returns the path of the justfile in a folder, whose path ends in a slash or is empty.
fn justfile_in(rt: &HostRuntime, folder: &str) -> Result<Option<String>, SearchError> {
    let path = if folder.is_empty() { "." } else { folder };
    let mut found: Option<String> = None;
    for entry in fs::read_dir(rt, path)? {
        // a name that isn't UTF-8 is another one
        let Ok(entry) = entry else { continue };
        if !is_justfile(entry.file_name()) {
            continue;
        }
        let path = format!(in rt.alloc(); "{folder}{}", entry.file_name())?;
        match found {
            Some(other) => return Err(SearchError::Two(other, path)),
            None => found = Some(path),
        }
    }
    Ok(found)
}

/// Whether a file with this name is a justfile that `just` finds.
fn is_justfile(name: &str) -> bool {
    name.eq_ignore_ascii_case("justfile") || name.eq_ignore_ascii_case(".justfile")
}

/// Whether a file with this name can be meant as a justfile.
pub(crate) fn may_be_justfile(name: &str) -> bool {
    if is_justfile(name) {
        return true;
    }
    match name.rsplit_once('.') {
        Some((_, ending)) => ending.eq_ignore_ascii_case("just"),
        None => false,
    }
}
