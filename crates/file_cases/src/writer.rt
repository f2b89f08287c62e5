//! A writer in memory.
use std::alloc::Global;
use std::io::{self, Error, ErrorKind, Write};
use std::str;

/// A writer in memory, of which one write fails.
#[derive(Drop)]
pub struct MemoryWriter {
    bytes: Vec<u8>,
    writes: usize,
    fault: usize,
}

impl MemoryWriter {
    /// Returns a writer whose write with this number, from 0, fails.
    pub fn new(alloc: Global, fault: usize) -> Self {
        MemoryWriter {
            bytes: Vec::new(alloc),
            writes: 0,
            fault,
        }
    }

    /// Returns what was written.
    pub fn text(&self) -> &str {
        str::from_utf8(&self.bytes).unwrap_or("?")
    }
}

impl Write for MemoryWriter {
    fn write(&mut self, buf: &[u8]) -> io::Result<usize> {
        let number = self.writes;
        self.writes = number.saturating_add(1);
        if number == self.fault {
            return Err(Error::from(ErrorKind::StorageFull));
        }
        self.bytes.extend_from_slice(buf)?;
        Ok(buf.len())
    }

    fn flush(&mut self) -> io::Result<()> {
        Ok(())
    }
}
