//! Files that are open, and whether they are still as they were first seen.

use crate::held_folder::{HeldFolder, Place, is_same_file};
use justfile_files::folder::ReplaceError;
use std::fs::{self, Metadata, OpenFile};
use std::io;
use std::os::unix::fs::{FileExt, MetadataExt};

/// How many bytes are compared at a time.
const CHUNK: usize = 8192;

/// A file that is open, with the text that was read from it.
#[derive(Clone, Copy)]
pub(crate) struct Opened<'a> {
    pub(crate) folder: &'a HeldFolder,
    /// Its name in the folder.
    pub(crate) name: &'a str,
    /// That name as a path.
    pub(crate) place: &'a Place,
    pub(crate) file: &'a fs::File,
    pub(crate) source: &'a str,
    /// What the system told of the file when it was opened.
    pub(crate) seen: &'a Metadata,
}

impl Opened<'_> {
    /// Checks that its name still leads to the file, which still holds the text, and that its owner,
    /// its permissions and its links are as they were seen.
    ///
    /// # Errors
    ///
    /// It isn't so, or can't be found out.
    pub(crate) fn check_unchanged(&self, rt: &HostRuntime) -> Result<(), ReplaceError> {
        if !holds_text(self.file, self.source)? {
            return Err(ReplaceError::Changed);
        }
        let there = fs::metadata(rt, self.place.path.as_str())?;
        let open = self.file.metadata()?;
        if is_same_file(&there, &open) && is_as_seen(&open, self.seen) {
            return Ok(());
        }
        Err(ReplaceError::Changed)
    }
}

/// Whether nothing was changed at a file since it was seen. The time of the last change isn't
/// enough: in some systems it has steps of milliseconds.
fn is_as_seen(now: &Metadata, seen: &Metadata) -> bool {
    let is_same_time = now.ctime() == seen.ctime() && now.ctime_nsec() == seen.ctime_nsec();
    let is_same_owner = now.uid() == seen.uid() && now.gid() == seen.gid();
    is_same_time && is_same_owner && now.mode() == seen.mode() && now.nlink() == seen.nlink()
}

/// Whether an open file holds exactly a text.
fn holds_text(file: &fs::File, text: &str) -> io::Result<bool> {
    let mut chunk = [0u8; CHUNK];
    let mut rest = text.as_bytes();
    let mut offset = 0u64;
    // each round takes a byte of the text, or is the last one
    for _ in 0..=text.len() {
        let count = file.read_at(&mut chunk, offset)?;
        let (found, _) = chunk.split_at(count.min(CHUNK));
        if count == 0 {
            return Ok(rest.is_empty());
        }
        let (front, after) = rest.split_at(count.min(rest.len()));
        if front != found {
            return Ok(false);
        }
        rest = after;
        offset = offset.saturating_add(count as u64);
    }
    Ok(false)
}
