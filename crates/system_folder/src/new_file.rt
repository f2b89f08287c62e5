//! New files beside others.

use crate::held_folder::{HeldFolder, Place};
use justfile_files::folder::ReplaceError;
use std::fs::{self, OpenOptions};
use std::io::ErrorKind;
use std::os::unix::fs::OpenOptionsExt;

/// How many names for a new file are tried at most.
const MOST_NAMES: u32 = 100;

/// Creates a file in a folder, which only its owner may read. Returns it with its place: this name
/// with a number and an ending. Nothing that has such a name already is opened.
pub(crate) fn create_beside(
    rt: &HostRuntime,
    folder: &HeldFolder,
    name: &str,
    ending: &str,
) -> Result<(fs::File, Place), ReplaceError> {
    for number in 0..MOST_NAMES {
        let beside = format!(in rt.alloc(); "{name}.{number}.{ending}")?;
        let place = folder.place(rt.alloc(), beside.as_str())?;
        let mut options = OpenOptions::new();
        options.write(true).create_new(true).mode(0o600);
        match options.open(rt, place.path.as_str()) {
            Ok(file) => return Ok((file, place)),
            Err(error) if error.kind() == ErrorKind::AlreadyExists => {}
            Err(error) => return Err(ReplaceError::System(error)),
        }
    }
    let last = MOST_NAMES - 1;
    let shown = folder.place(rt.alloc(), name)?.shown;
    Err(ReplaceError::Other(format!(in rt.alloc();
        "can't be replaced: {shown}.0.{ending} to {shown}.{last}.{ending} are in the way"
    )?))
}

/// Removes a file that was made here. If it can't be removed, its path is noted.
pub(crate) fn remove_made(rt: &HostRuntime, made: Place, leftovers: &mut Vec<String>) {
    match fs::remove_file(rt, made.path.as_str()) {
        Ok(()) => {}
        Err(error) if error.kind() == ErrorKind::NotFound => {}
        Err(_) => {
            let _ = leftovers.push(made.shown);
        }
    }
}
