//! Replacing a file by a new one, where that is wanted and nothing is lost by it, and otherwise
//! writing it in place.

use crate::held_folder::{HeldFolder, Place, name_of};
use crate::in_place::write_in_place;
use crate::new_file::{create_beside, remove_made};
use crate::opened::Opened;
use justfile_files::folder::ReplaceError;
use justfile_files::request::Writing;
use std::fs::{self, Files, Metadata, OpenFile, OpenOptions};
use std::io::{self, Error, ErrorKind, Write};
use std::os::unix::fs::MetadataExt;

/// Replaces the text of the file that a name leads to. What was made beside it and can't be removed
/// is noted.
pub(crate) fn replace_file(
    rt: &HostRuntime,
    writing: Writing,
    name: &str,
    source: &str,
    text: &str,
    leftovers: &mut Vec<String>,
) -> Result<(), ReplaceError> {
    let target = target_of(rt, name)?;
    let folder = HeldFolder::of(rt, target.as_str())?;
    let name = name_of(target.as_str());
    let place = folder.place(rt.alloc(), name)?;
    let file = open_plain(rt, place.path.as_str())?;
    let seen = file.metadata()?;
    let opened = Opened {
        folder: &folder,
        name,
        place: &place,
        file: &file,
        source,
        seen: &seen,
    };
    opened.check_unchanged(rt)?;
    if writing == Writing::Replace && replace_whole(rt, opened, text, leftovers)? {
        return Ok(());
    }
    write_in_place(rt, opened, text, leftovers)
}

/// Returns the path that a link leads to, or the name itself if it is none.
fn target_of(rt: &HostRuntime, name: &str) -> io::Result<String> {
    if fs::symlink_metadata(rt, name)?.is_symlink() {
        // a file whose path can't be told is written in place
        if let Ok(path) = fs::canonicalize(rt, name) {
            return Ok(path.into_string());
        }
    }
    Ok(name.to_string(rt.alloc())?)
}

/// Opens a plain file to read and to write it.
fn open_plain(rt: &HostRuntime, path: &str) -> io::Result<fs::File> {
    // opening a pipe would wait for its reader
    check_plain(&fs::metadata(rt, path)?)?;
    let file = OpenOptions::new().read(true).write(true).open(rt, path)?;
    check_plain(&file.metadata()?)?;
    Ok(file)
}

/// Checks that a file is a plain one.
fn check_plain(metadata: &Metadata) -> io::Result<()> {
    if metadata.is_file() {
        return Ok(());
    }
    Err(Error::new(ErrorKind::InvalidInput, "not a plain file"))
}

/// Replaces a file by a new one with the same mode. Returns whether it did: not where something
/// would be lost by it, or where only the file itself may be written.
fn replace_whole(
    rt: &HostRuntime,
    opened: Opened<'_>,
    text: &str,
    leftovers: &mut Vec<String>,
) -> Result<bool, ReplaceError> {
    if !may_be_replaced(rt, opened)? {
        return Ok(false);
    }
    let (mut new, beside) = match create_beside(rt, opened.folder, opened.name, "new") {
        Ok(made) => made,
        Err(error) => return unless_barred(error),
    };
    let replaced = put_in_place(rt, &mut new, &beside, opened, text);
    if !matches!(&replaced, Ok(true)) {
        remove_made(rt, beside, leftovers);
    }
    match replaced {
        Err(error) => unless_barred(error),
        ended => ended,
    }
}

/// Whether nothing that is seen would be lost by replacing a file: it has one link, its path isn't
/// a link, and its group may do what all others may. Otherwise there can be an access list, whose
/// mask is in the place of the group's permissions.
fn may_be_replaced(rt: &HostRuntime, opened: Opened<'_>) -> io::Result<bool> {
    let path = opened.place.path.as_str();
    if fs::symlink_metadata(rt, path)?.is_symlink() || opened.seen.nlink() != 1 {
        return Ok(false);
    }
    let mode = opened.seen.mode();
    Ok((mode >> 3) & 0o7 == mode & 0o7)
}

/// Writes a new file and renames it to the path of the old one. Returns whether it did: not where
/// the old one has another owner or group.
fn put_in_place(
    rt: &HostRuntime,
    new: &mut fs::File,
    beside: &Place,
    opened: Opened<'_>,
    text: &str,
) -> Result<bool, ReplaceError> {
    let made = new.metadata()?;
    if made.uid() != opened.seen.uid() || made.gid() != opened.seen.gid() {
        return Ok(false);
    }
    write_new(new, opened.seen, text)?;
    opened.check_unchanged(rt)?;
    fs::rename(rt, beside.path.as_str(), opened.place.path.as_str())?;
    Ok(true)
}

/// Writes a new file with the mode of the old one, as far as the disk.
fn write_new(new: &mut fs::File, seen: &Metadata, text: &str) -> io::Result<()> {
    new.set_permissions(seen.permissions())?;
    new.write_all(text.as_bytes())?;
    new.sync_all()
}

/// Returns that a file wasn't replaced, if the error keeps from replacing it and not from writing
/// it: the folder may not be written, a name or a path is too long, or the file is mounted.
fn unless_barred(error: ReplaceError) -> Result<bool, ReplaceError> {
    match error {
        ReplaceError::System(error) if bars_replacing(error.kind()) => Ok(false),
        other => Err(other),
    }
}

/// Whether an error of this kind keeps from making or renaming files in a folder.
pub(crate) fn bars_replacing(kind: ErrorKind) -> bool {
    matches!(
        kind,
        ErrorKind::PermissionDenied
            | ErrorKind::ReadOnlyFilesystem
            | ErrorKind::InvalidFilename
            | ErrorKind::ResourceBusy
            | ErrorKind::CrossesDevices
    )
}
