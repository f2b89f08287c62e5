//! A folder in memory.
ghost use Rattle.std.specs.Prelude.{◌≡◌, IfOk, IfSome, OnErr, OnOk};
ghost use Rattle.justfile_files.specs.Folder.{KeepsFiles, Replaces};
ghost use Rattle.file_cases.specs.Memory.{IsIndex, bytes_in};

use crate::Faults;
use justfile_files::folder::{Folder, ReplaceError};
use std::alloc::{AllocError, Global};
use std::io::{self, Error, ErrorKind};
use std::str;

/// The names of the files, and their texts at first.
static FILES: &[(&str, &[u8])] = &[
    ("a", b"one\n"),
    ("b", b"formatted\n"),
    ("c", b"two"),
    ("-n", b""),
    ("bad", b"bad\n"),
    ("bytes", b"\xff"),
    ("d/justfile", b"one\n"),
    ("d/notes", b"three\n"),
    ("d/e/x.JUST", b"two\n"),
    ("see/a", b"see b ../see/./c gone b"),
    ("see/b", b"see a c /see/d x/../gone"),
    ("see/c", b"see c bytes ../bytes"),
];

/// A file.
#[derive(Drop)]
struct MemoryFile {
    name: &'static str,
    bytes: Vec<u8>,
}

/// A folder in memory, of which a read and a replacement fail.
#[derive(Drop)]
pub struct MemoryFolder {
    files: Vec<MemoryFile>,
    faults: Faults,
    reads: usize,
    replacements: usize,
}

impl MemoryFolder {
    /// Returns a folder with the files of `FILES`, in which these calls fail.
    pub fn new(alloc: Global, faults: Faults) -> Result<Self, AllocError> {
        let mut files = Vec::new(alloc);
        for (name, text) in FILES {
            let mut bytes = Vec::new(alloc);
            bytes.extend_from_slice(text)?;
            files.push(MemoryFile { name, bytes })?;
        }
        Ok(MemoryFolder {
            files,
            faults,
            reads: 0,
            replacements: 0,
        })
    }

    /// Returns the texts of the files after their names, but for those that name others.
    pub fn text(&self, alloc: Global) -> Result<String, AllocError> {
        let mut text = String::new(alloc);
        for file in &self.files {
            if file.name.starts_with("see/") {
                continue;
            }
            let bytes = str::from_utf8(&file.bytes).unwrap_or("?");
            text.push_str(format!(in alloc; "{}={bytes:?} ", file.name)?.as_str())?;
        }
        Ok(text)
    }
}

/// Returns the index of the first file with a name.
fn index_of(files: &[MemoryFile], name: &str) -> Option<usize>
    ensures { IfSome result (IsIndex files.now name.now) }
{
    let mut index = 0;
    'files: while index < files.len() {
        if files[index].name == name {
            return Some(index);
        }
        index += 1;
    }
    None
}

/// Returns the names, within a folder, of the files in it and below, if there are any.
fn names_in(
    alloc: Global,
    files: &[MemoryFile],
    folder: &str,
) -> Result<Option<Vec<String>>, AllocError> {
    let folder = folder.trim_end_matches('/');
    let mut names = Vec::new(alloc);
    for file in files {
        if let Some((first, rest)) = file.name.split_once('/') {
            if first == folder {
                names.push(rest.to_string(alloc)?)?;
            }
        }
    }
    Ok(if names.is_empty() { None } else { Some(names) })
}

/// Returns a copy of the bytes of the first file with a name.
fn copy_of(alloc: Global, files: &[MemoryFile], name: &str) -> io::Result<Vec<u8>>
    ensures { IfOk result (λ bytes. IfSome (bytes_in files.now name.now)
        (λ known. bytes.items ≡ known)) }
{
    let Some(index) = index_of(files, name) else {
        return Err(Error::from(ErrorKind::NotFound));
    };
    let mut bytes = Vec::new(alloc);
    bytes.extend_from_slice(&files[index].bytes)?;
    Ok(bytes)
}

/// Replaces the bytes of the first file with a name, if they are those of the text `source`, by
/// those of another text.
fn put(
    alloc: Global,
    files: &mut Vec<MemoryFile>,
    name: &str,
    source: &str,
    text: &str,
) -> Result<(), ReplaceError>
    ensures read { OnOk result (IfSome (bytes_in files.old.items name.now)
        (λ known. source.now ≡ known)) }
    ensures ok { OnOk result (Replaces (bytes_in files.old.items) (bytes_in files.new.items)
        name.now text.now) }
    ensures err { OnErr result (KeepsFiles (bytes_in files.old.items) (bytes_in files.new.items)) }
{
    let Some(index) = index_of(files, name) else {
        return Err(ReplaceError::System(Error::from(ErrorKind::NotFound)));
    };
    if files[index].bytes.as_slice() == source.as_bytes() {
        let mut bytes = Vec::new(alloc);
        bytes.extend_from_slice(text.as_bytes())?;
        let name = files[index].name;
        files[index] = MemoryFile { name, bytes };
        return Ok(());
    }
    Err(ReplaceError::Changed)
}

impl Folder for MemoryFolder {
    ghost use Rattle.file_cases.specs.Memory.{contents_of};

    ghost contents = { contents_of };

    ghost lists = { λ _ _ _. Unit {0} };

    fn files_in(&self, alloc: Global, name: &str) -> Result<Option<Vec<String>>, AllocError> {
        names_in(alloc, &self.files, name)
    }

    fn read(&mut self, alloc: Global, name: &str) -> io::Result<Vec<u8>> {
        let number = self.reads;
        self.reads = number.saturating_add(1);
        if number == self.faults.read {
            return Err(Error::from(ErrorKind::PermissionDenied));
        }
        copy_of(alloc, &self.files, name)
    }

    fn read_named(&mut self, alloc: Global, name: &str) -> io::Result<Vec<u8>> {
        self.read(alloc, name)
    }

    fn replace(
        &mut self,
        alloc: Global,
        name: &str,
        source: &str,
        text: &str,
    ) -> Result<(), ReplaceError> {
        let number = self.replacements;
        self.replacements = number.saturating_add(1);
        if number == self.faults.replacement {
            return Err(ReplaceError::System(Error::from(ErrorKind::StorageFull)));
        }
        put(alloc, &mut self.files, name, source, text)
    }
}
