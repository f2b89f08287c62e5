//! Streams in memory, which move few bytes in a call and can be made to fail.

use std::alloc::Global;
use std::io::{self, ErrorKind, Read, Write};
use std::str;

/// A stream that is read or written to.
#[derive(Drop)]
pub struct Stream<'row> {
    /// The bytes that are still to be read.
    pub unread: &'row [u8],
    /// The bytes that were written.
    pub written: Vec<u8>,
    /// How many bytes a call reads or writes at most.
    most_bytes: usize,
    /// After how many more reads or writes it fails.
    calls: u32,
    /// How many bytes the last of these calls reads or writes at most.
    last_bytes: usize,
    /// The error with which it fails.
    fault: ErrorKind,
    /// Whether it has failed.
    pub has_failed: bool,
    /// Whether flushing it fails.
    pub fails_at_flush: bool,
}

impl<'row> Stream<'row> {
    /// Makes a stream with these bytes to read, which moves at most `most_bytes` bytes in a call
    /// and doesn't fail.
    pub fn new(alloc: Global, unread: &'row [u8], most_bytes: usize) -> Self {
        Stream {
            unread,
            written: Vec::new(alloc),
            most_bytes,
            calls: u32::MAX,
            last_bytes: most_bytes,
            fault: ErrorKind::BrokenPipe,
            has_failed: false,
            fails_at_flush: false,
        }
    }

    /// Makes the stream fail after `calls` reads or writes, the last of which has at most
    /// `last_bytes` bytes.
    pub fn fail_after(&mut self, calls: u32, last_bytes: usize) {
        self.calls = calls;
        self.last_bytes = last_bytes;
    }

    /// Makes the stream fail with this error, once it fails.
    pub fn fail_with(&mut self, fault: ErrorKind) {
        self.fault = fault;
    }

    /// Returns what was written, or `not UTF-8`.
    pub fn text(&self) -> &str {
        str::from_utf8(&self.written).unwrap_or("not UTF-8")
    }

    /// Counts a read or a write, and returns how many bytes it can have.
    fn count(&mut self) -> io::Result<usize> {
        match self.calls.checked_sub(1) {
            Some(calls) => {
                self.calls = calls;
                Ok(if calls == 0 {
                    self.last_bytes
                } else {
                    self.most_bytes
                })
            }
            None => {
                self.has_failed = true;
                Err(io::Error::from(self.fault))
            }
        }
    }
}

impl Read for Stream<'_> {
    fn read(&mut self, buf: &mut [u8]) -> io::Result<usize> {
        let most = buf.len().min(self.count()?);
        self.unread.read(&mut buf[..most])
    }
}

impl Write for Stream<'_> {
    fn write(&mut self, buf: &[u8]) -> io::Result<usize> {
        let most = buf.len().min(self.count()?);
        self.written.write(&buf[..most])
    }

    fn flush(&mut self) -> io::Result<()> {
        if self.fails_at_flush {
            return Err(io::Error::from(ErrorKind::BrokenPipe));
        }
        Ok(())
    }
}
