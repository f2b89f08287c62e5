//! The file system as a folder.
ghost use Rattle.std.specs.Prelude.{None};

use crate::below::{contains, files_below};
use crate::in_place::{COPY_ENDING, UNFINISHED};
use crate::replace::replace_file;
use justfile_files::folder::{Folder, ReplaceError};
use justfile_files::request::Writing;
use std::alloc::{AllocError, Global};
use std::fs;
use std::io::{self, Error, ErrorKind};

/// What is told of a file that was being written in place. An error has at most 80 bytes.
const HALF_WRITTEN: &str =
    "it is half written: its text is in the copy beside it that ends in .0.old";

/// The files of the system, by their paths.
#[derive(Drop)]
pub struct FileSystem<'a> {
    rt: &'a HostRuntime,
    /// Names that stand for others, which aren't UTF-8.
    garbled: &'a [String],
    /// How files get other texts.
    writing: Writing,
    /// Files that were made beside others and couldn't be removed.
    leftovers: Vec<String>,
}

impl<'a> FileSystem<'a> {
    /// Returns the file system that the runtime gives access to. Files with garbled names can't be
    /// read.
    pub fn new(rt: &'a HostRuntime, garbled: &'a [String], writing: Writing) -> Self {
        FileSystem {
            rt,
            garbled,
            writing,
            leftovers: Vec::new(rt.alloc()),
        }
    }

    /// Returns the paths of what was made beside files and couldn't be removed.
    pub fn leftovers(&self) -> &[String] {
        &self.leftovers
    }
}

/// Returns an error of reading a file in words that tell more, where that is known.
fn told_better(error: Error, name: &str) -> Error {
    match error.kind() {
        ErrorKind::IsADirectory => Error::new(
            ErrorKind::IsADirectory,
            "no justfile was found in it",
        ),
        ErrorKind::NotFound if name.contains('\u{fffd}') => {
            Error::new(ErrorKind::InvalidInput, "its name isn't UTF-8")
        }
        _ => error,
    }
}

/// Whether a text is that of a file that was being written in place, with a copy beside it.
fn is_unfinished(rt: &HostRuntime, name: &str, bytes: &[u8]) -> io::Result<bool> {
    if bytes.first() != Some(&UNFINISHED) {
        return Ok(false);
    }
    let copy = format!(in rt.alloc(); "{name}.0.{COPY_ENDING}")?;
    Ok(fs::exists(rt, copy.as_str()).unwrap_or(false))
}

impl Folder for FileSystem<'_> {
    // nothing is known of the system's files
    ghost contents = { λ _ _. None };

    ghost lists = { λ _ _ _. Unit {0} };

    /// Returns the names of the justfiles in a folder and below, within the folder, and of the
    /// folders there that can't be searched, which end in a slash, in the order of names. What git
    /// keeps in `.git`, links and mounts are left out.
    fn files_in(&self, _alloc: Global, name: &str) -> Result<Option<Vec<String>>, AllocError> {
        if contains(self.garbled, name) {
            return Ok(None);
        }
        match files_below(self.rt, name) {
            Ok(names) => Ok(names),
            Err(error) if error.kind() == ErrorKind::OutOfMemory => Err(AllocError),
            // reading it fails, too, and tells why
            Err(_) => Ok(None),
        }
    }

    fn read(&mut self, _alloc: Global, name: &str) -> io::Result<Vec<u8>> {
        if contains(self.garbled, name) {
            return Err(Error::new(ErrorKind::InvalidInput, "its name isn't UTF-8"));
        }
        let bytes = match fs::read(self.rt, name) {
            Ok(bytes) => bytes,
            Err(error) => return Err(told_better(error, name)),
        };
        if is_unfinished(self.rt, name, &bytes)? {
            return Err(Error::new(ErrorKind::InvalidData, HALF_WRITTEN));
        }
        Ok(bytes)
    }

    /// Returns the bytes of a file, if it is a regular one: what another one names may be a device or
    /// a pipe, which has no end.
    fn read_named(&mut self, alloc: Global, name: &str) -> io::Result<Vec<u8>> {
        let seen = match fs::metadata(self.rt, name) {
            Ok(seen) => seen,
            Err(error) => return Err(told_better(error, name)),
        };
        if seen.is_file() {
            return self.read(alloc, name);
        }
        Err(Error::from(if seen.is_dir() {
            ErrorKind::IsADirectory
        } else {
            ErrorKind::Unsupported
        }))
    }

    /// Replaces the file that a path leads to: a link stays, and its target is replaced. If writing
    /// it in place and putting it back fail, the error names the copy of its text.
    fn replace(
        &mut self,
        _alloc: Global,
        name: &str,
        source: &str,
        text: &str,
    ) -> Result<(), ReplaceError> {
        replace_file(
            self.rt,
            self.writing,
            name,
            source,
            text,
            &mut self.leftovers,
        )
    }
}
