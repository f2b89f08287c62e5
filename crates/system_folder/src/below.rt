//! The files in a folder and below.

use crate::held_folder::HeldFolder;
use crate::mounts::mounts_below;
use crate::search::may_be_justfile;
use std::fs::{self, Metadata};
use std::io::{self, ErrorKind};
use std::os::unix::fs::MetadataExt;
use std::str;

/// A search for the justfiles in a folder and below.
#[derive(Drop)]
struct Search<'a> {
    rt: &'a HostRuntime,
    /// The folder that is searched.
    top: HeldFolder,
    /// What the system tells of it.
    device: u64,
    /// The paths of mounts within the folder.
    mounts: Vec<String>,
    /// Folders that are still to be searched.
    pending: Vec<Inner>,
    /// The names that were found, within the folder.
    found: Vec<String>,
}

/// A folder below the one that is searched.
#[derive(Drop)]
struct Inner {
    /// Its path within that folder. It ends in a slash, or is empty.
    path: String,
    /// What the system told of it.
    seen: Metadata,
}

/// Returns the names, within a folder, of the files in it and below that may be justfiles, and of
/// the folders there that can't be searched, which end in a slash, in the order of names. What git
/// keeps in `.git`, links and mounts are left out. Returns nothing of what is no folder.
///
/// # Errors
///
/// Memory ran out, or the folder can't be searched.
pub(crate) fn files_below(rt: &HostRuntime, folder: &str) -> io::Result<Option<Vec<String>>> {
    let seen = fs::metadata(rt, folder)?;
    if !seen.is_dir() {
        return Ok(None);
    }
    let path = format!(in rt.alloc(); "{folder}/")?;
    let mut search = Search {
        rt,
        top: HeldFolder::of(rt, path.as_str())?,
        device: seen.dev(),
        mounts: mounts_below(rt, folder)?,
        pending: Vec::new(rt.alloc()),
        found: Vec::new(rt.alloc()),
    };
    let path = String::new(rt.alloc());
    search.look_in(&Inner { path, seen })?;
    search.look_below()?;
    search.found.sort()?;
    Ok(Some(search.found))
}

impl Search<'_> {
    /// Looks in each folder that is to be searched, and notes those that can't be.
    fn look_below(&mut self) -> io::Result<()> {
        for _ in 0..usize::MAX {
            let Some(inner) = self.pending.pop() else {
                break;
            };
            match self.look_in(&inner) {
                Ok(()) => {}
                Err(error) if error.kind() == ErrorKind::OutOfMemory => return Err(error),
                Err(_) => self.found.push(inner.path)?,
            }
        }
        Ok(())
    }

    /// Looks at each name in a folder.
    fn look_in(&mut self, inner: &Inner) -> io::Result<()> {
        let path = self.top.place(self.rt.alloc(), inner.path.as_str())?.path;
        let folder = HeldFolder::of(self.rt, path.as_str())?;
        folder.check_same(self.rt, &inner.seen)?;
        let names = folder.names(self.rt)?;
        for name in names.split(|byte| *byte == 0) {
            self.look_at(inner, &folder, name)?;
        }
        Ok(())
    }

    /// Notes a name in a folder, if it is that of a folder or may be that of a justfile.
    fn look_at(&mut self, inner: &Inner, folder: &HeldFolder, name: &[u8]) -> io::Result<()> {
        if matches!(name, b"" | b"." | b".." | b".git") {
            return Ok(());
        }
        let lossy = String::from_utf8_lossy(self.rt.alloc(), name)?;
        let mut path = inner.path.clone()?;
        path.push_str(lossy.as_str())?;
        if str::from_utf8(name).is_err() {
            // no path leads to it, so reading it fails
            return self.note(path, lossy.as_str());
        }
        let place = folder.place(self.rt.alloc(), lossy.as_str())?;
        match fs::symlink_metadata(self.rt, place.path.as_str()) {
            Ok(seen) => self.look_at_file(path, lossy.as_str(), seen),
            Err(error) if error.kind() == ErrorKind::NotFound => Ok(()),
            Err(error) => Err(error),
        }
    }

    /// Notes a path, if it is that of a folder or may be that of a justfile, and of no mount.
    fn look_at_file(&mut self, mut path: String, name: &str, seen: Metadata) -> io::Result<()> {
        if seen.dev() != self.device || contains(&self.mounts, path.as_str()) {
            return Ok(());
        }
        if seen.is_dir() {
            path.push_str("/")?;
            self.pending.push(Inner { path, seen })?;
            return Ok(());
        }
        if seen.is_file() {
            return self.note(path, name);
        }
        Ok(())
    }

    /// Notes the path of a file, if its name may be that of a justfile.
    fn note(&mut self, path: String, name: &str) -> io::Result<()> {
        if may_be_justfile(name) {
            self.found.push(path)?;
        }
        Ok(())
    }
}

/// Whether a text is one of these.
pub(crate) fn contains(texts: &[String], text: &str) -> bool {
    for other in texts {
        if other.as_str() == text {
            return true;
        }
    }
    false
}
