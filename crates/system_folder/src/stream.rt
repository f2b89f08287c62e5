//! The standard streams as a folder of one file.
ghost use Rattle.std.specs.Prelude.{None};

use justfile_files::folder::{Folder, ReplaceError};
use std::alloc::{AllocError, Global};
use std::io::{self, Error, ErrorKind, Read, Write};

/// Standard input and standard output as a folder, each of whose files is read from the one and
/// written to the other.
#[derive(Drop)]
pub struct Stream<'a> {
    rt: &'a HostRuntime,
    /// What was read and isn't written yet.
    bytes: Vec<u8>,
}

impl<'a> Stream<'a> {
    /// Returns the streams of the runtime.
    pub fn new(rt: &'a HostRuntime) -> Self {
        Stream {
            rt,
            bytes: Vec::new(rt.alloc()),
        }
    }

    /// Writes what was read, unless another text was written for it.
    ///
    /// # Errors
    ///
    /// It can't be written.
    pub fn write_unchanged(&self) -> io::Result<()> {
        write_bytes(self.rt, &self.bytes)
    }
}

/// Writes bytes to standard output.
fn write_bytes(rt: &HostRuntime, bytes: &[u8]) -> io::Result<()> {
    let mut output = rt.stdout();
    output.write_all(bytes)?;
    output.flush()
}

impl Folder for Stream<'_> {
    // nothing is known of what the streams give and take
    ghost contents = { λ _ _. None };

    ghost lists = { λ _ _ _. Unit {0} };

    /// There is no folder among the streams.
    fn files_in(&self, _alloc: Global, _name: &str) -> Result<Option<Vec<String>>, AllocError> {
        Ok(None)
    }

    fn read(&mut self, alloc: Global, _name: &str) -> io::Result<Vec<u8>> {
        let mut bytes = Vec::new(alloc);
        self.rt.stdin().read_to_end(&mut bytes)?;
        self.bytes.extend_from_slice(&bytes)?;
        Ok(bytes)
    }

    /// No file among the streams is read since another one names it.
    fn read_named(&mut self, _alloc: Global, _name: &str) -> io::Result<Vec<u8>> {
        Err(Error::from(ErrorKind::Unsupported))
    }

    fn replace(
        &mut self,
        alloc: Global,
        _name: &str,
        _source: &str,
        text: &str,
    ) -> Result<(), ReplaceError> {
        self.bytes.clear();
        match write_bytes(self.rt, text.as_bytes()) {
            Ok(()) => Ok(()),
            Err(error) => Err(ReplaceError::Other(format!(in alloc; "can't be written: {error}")?)),
        }
    }
}
