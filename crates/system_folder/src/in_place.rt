//! Writing a file in place.

use crate::held_folder::{HeldFolder, Place};
use crate::new_file::{create_beside, remove_made};
use crate::opened::Opened;
use crate::replace::bars_replacing;
use justfile_files::folder::ReplaceError;
use std::alloc::{AllocError, Global};
use std::env;
use std::fs::{self, OpenFile};
use std::io::{self, Write};
use std::os::unix::fs::FileExt;

/// What a file begins with while it is written in place. No justfile does.
pub(crate) const UNFINISHED: u8 = 0;

/// The ending of the name of a copy, after its number.
pub(crate) const COPY_ENDING: &str = "old";

/// How many characters of a file's name are in that of a copy elsewhere.
const MOST_NAMED: usize = 32;

/// Writes a text over that of an open file, of which a copy is kept meanwhile. If writing fails,
/// the old text is put back, and if that fails too, the error names the copy.
pub(crate) fn write_in_place(
    rt: &HostRuntime,
    opened: Opened<'_>,
    text: &str,
    leftovers: &mut Vec<String>,
) -> Result<(), ReplaceError> {
    let copy = keep_copy(rt, opened, leftovers)?;
    let written = write_over(rt, opened, text, copy.shown.as_str());
    if !matches!(&written, Err(ReplaceError::Other(_))) {
        remove_made(rt, copy, leftovers);
    }
    written
}

/// Writes a text over that of an open file, or puts it back.
fn write_over(
    rt: &HostRuntime,
    opened: Opened<'_>,
    text: &str,
    copy: &str,
) -> Result<(), ReplaceError> {
    // made first, since there may be no memory for it later
    let lost = format!(in rt.alloc(); "can't be put back: its text is in {copy}")?;
    opened.check_unchanged(rt)?;
    let old = opened.source.as_bytes();
    let Err(error) = overwrite(opened.file, old.len(), text.as_bytes()) else {
        return Ok(());
    };
    match overwrite(opened.file, old.len(), old) {
        Ok(()) => Err(ReplaceError::System(error)),
        Err(_) => Err(ReplaceError::Other(lost)),
    }
}

/// Writes bytes over those of a file, of which there are so many. Until all are written, the file
/// begins with what no justfile begins with. What is longer than the old text comes first, so that
/// a full disk shows before more of it is gone.
fn overwrite(file: &fs::File, old_length: usize, bytes: &[u8]) -> io::Result<()> {
    let (first, rest) = bytes.split_at(bytes.len().min(1));
    let (front, back) = rest.split_at(rest.len().min(old_length));
    file.write_all_at(&[UNFINISHED], 0)?;
    file.sync_data()?;
    file.write_all_at(back, (first.len() + front.len()) as u64)?;
    file.write_all_at(front, first.len() as u64)?;
    file.set_len(bytes.len() as u64)?;
    file.sync_data()?;
    file.write_all_at(first, 0)?;
    file.sync_all()
}

/// Writes the text of a file into a new one beside it, as far as the disk, or into one in the folder
/// of temporary files if none can be made there. Returns its place.
fn keep_copy(
    rt: &HostRuntime,
    opened: Opened<'_>,
    leftovers: &mut Vec<String>,
) -> Result<Place, ReplaceError> {
    let (mut file, copy) = create_copy(rt, opened)?;
    match write_copy(&mut file, opened.source) {
        Ok(()) => Ok(copy),
        Err(error) => {
            remove_made(rt, copy, leftovers);
            Err(ReplaceError::System(error))
        }
    }
}

/// Creates the file for a copy, and returns it with its place.
fn create_copy(rt: &HostRuntime, opened: Opened<'_>) -> Result<(fs::File, Place), ReplaceError> {
    match create_beside(rt, opened.folder, opened.name, COPY_ENDING) {
        Err(ReplaceError::System(error)) if bars_replacing(error.kind()) => {
            create_elsewhere(rt, opened.name)
        }
        made => made,
    }
}

/// Creates the file for a copy in the folder of temporary files. Its name begins with `justfiles`,
/// and then comes the beginning of the file's name.
fn create_elsewhere(rt: &HostRuntime, name: &str) -> Result<(fs::File, Place), ReplaceError> {
    let path = env::temp_dir(rt)?;
    let folder = HeldFolder::unheld(format!(in rt.alloc(); "{}/", path.as_str())?)?;
    let name = temporary_name(rt.alloc(), name)?;
    create_beside(rt, &folder, name.as_str(), COPY_ENDING)
}

/// Returns the name of a copy elsewhere, up to its number.
fn temporary_name(alloc: Global, name: &str) -> Result<String, AllocError> {
    let mut made = "justfiles.".to_string(alloc)?;
    for character in name.chars().take(MOST_NAMED) {
        made.push(character)?;
    }
    Ok(made)
}

/// Writes a copy, as far as the disk.
fn write_copy(file: &mut fs::File, source: &str) -> io::Result<()> {
    file.write_all(source.as_bytes())?;
    file.sync_all()
}
