//! Folders that are held open, so that it doesn't matter what becomes of their paths.

use std::alloc::{AllocError, Global};
use std::fs::{self, Files, Metadata, OpenFile, OpenOptions};
use std::io::{self, Error, ErrorKind, Read};
use std::os::fd::AsRawFd;
use std::os::unix::fs::MetadataExt;

/// How many bytes of names are read at a time. One name has to fit.
const CHUNK: usize = 8192;

/// A folder that stays open: a name in it leads to the same folder, whatever is renamed on the way.
#[derive(Drop)]
pub(crate) struct HeldFolder {
    /// The folder, unless it can't be read or reached through `/proc`.
    open: Option<fs::File>,
    /// What a path of the system to a name in it begins with.
    through: String,
    /// What the path that was given begins with.
    shown: String,
}

/// A name in a folder.
#[derive(Drop)]
pub(crate) struct Place {
    /// The path for the system.
    pub(crate) path: String,
    /// The path for messages.
    pub(crate) shown: String,
}

impl HeldFolder {
    /// Opens the folder of a path. One that can't be held is reached by its path each time.
    pub(crate) fn of(rt: &HostRuntime, path: &str) -> io::Result<Self> {
        let shown = match path.rsplit_once('/') {
            Some((folder, _)) => format!(in rt.alloc(); "{folder}/")?,
            None => String::new(rt.alloc()),
        };
        Ok(match open_folder(rt, shown.as_str()) {
            Ok(open) => HeldFolder {
                through: path_through(rt.alloc(), &open)?,
                open: Some(open),
                shown,
            },
            Err(_) => HeldFolder::unheld(shown)?,
        })
    }

    /// Returns the folder of this path, which ends in a slash or is empty, without holding it.
    pub(crate) fn unheld(path: String) -> Result<Self, AllocError> {
        Ok(HeldFolder {
            open: None,
            through: path.clone()?,
            shown: path,
        })
    }

    /// Checks that it is the folder of which the system told this.
    ///
    /// # Errors
    ///
    /// It isn't, or can't be found out.
    pub(crate) fn check_same(&self, rt: &HostRuntime, seen: &Metadata) -> io::Result<()> {
        if is_same_file(&fs::metadata(rt, self.through.as_str())?, seen) {
            return Ok(());
        }
        Err(Error::from(ErrorKind::NotFound))
    }

    /// Returns the names in it, each ended by a zero.
    pub(crate) fn names(&self, rt: &HostRuntime) -> io::Result<Vec<u8>> {
        let mut folder = rt.open_dir(self.through.as_str())?;
        let mut names = Vec::new(rt.alloc());
        let mut chunk = [0u8; CHUNK];
        for _ in 0..usize::MAX {
            let count = folder.read(&mut chunk)?;
            if count == 0 {
                break;
            }
            let (read, _) = chunk.split_at(count.min(CHUNK));
            names.extend_from_slice(read)?;
        }
        Ok(names)
    }

    /// Returns the place of a name in it.
    pub(crate) fn place(&self, alloc: Global, name: &str) -> Result<Place, AllocError> {
        Ok(Place {
            path: format!(in alloc; "{}{name}", self.through)?,
            shown: format!(in alloc; "{}{name}", self.shown)?,
        })
    }
}

/// Returns the name in its folder that a path leads to.
pub(crate) fn name_of(path: &str) -> &str {
    match path.rsplit_once('/') {
        Some((_, name)) => name,
        None => path,
    }
}

/// Whether two files are the same one.
pub(crate) fn is_same_file(one: &Metadata, other: &Metadata) -> bool {
    one.dev() == other.dev() && one.ino() == other.ino()
}

/// Opens a folder, whose path ends in a slash or is empty, if it can be reached through `/proc`.
fn open_folder(rt: &HostRuntime, shown: &str) -> io::Result<fs::File> {
    let path = if shown.is_empty() { "./" } else { shown };
    let open = OpenOptions::new().read(true).open(rt, path)?;
    let through = path_through(rt.alloc(), &open)?;
    if is_same_file(&fs::metadata(rt, through.as_str())?, &open.metadata()?) {
        return Ok(open);
    }
    Err(Error::from(ErrorKind::NotFound))
}

/// Returns what a path through an open folder begins with.
fn path_through(alloc: Global, open: &fs::File) -> Result<String, AllocError> {
    format!(in alloc; "/proc/self/fd/{}/", open.as_raw_fd())
}
