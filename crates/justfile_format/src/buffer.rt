//! A buffer in front of a writer, so that many small pieces of text are few writes.
ghost use Rattle.std.specs.Io.KnownBytes.{Appends};
ghost use Rattle.std.specs.Prelude.{◌≡◌, ◌+◌, ◌≤◌, ◌++◌, length, take};

use std::io::{self, ErrorKind, Write};
use system_run::write_up_to;

/// A writer that holds bytes until they are many, and then writes them to another one. Bytes that
/// couldn't be written stay held. Nothing is written when it is dropped. It borrows its room, since
/// a caller's proof can't read what the writer has from a struct that owns memory.
#[derive(Drop)]
pub(crate) struct Buffer<'w, W> {
    /// What the bytes are written to.
    pub(crate) writer: &'w mut W,
    /// The room for bytes. Those at its front aren't written yet.
    pub(crate) room: &'w mut [u8],
    /// How many bytes aren't written yet.
    pub(crate) end: usize,
    /// How many bytes were written.
    pub(crate) passed: usize,
}

impl<W: Write> Buffer<'_, W> {
    ghost use Rattle.std.specs.Prelude.{OnOk};
    ghost use Rattle.justfile_format.specs.Buffered.{PassesOn, buffered};

    /// Writes the bytes that are held.
    ///
    /// # Errors
    ///
    /// A write failed or accepted no byte, or more than `usize::MAX` bytes would be written in all.
    #[tactic(auto, using(crate::proofs::Buffers::none_passed, crate::proofs::Buffers::part_passed, crate::proofs::Buffers::all_passed))]
    pub(crate) fn pass_on(&mut self) -> io::Result<()>
        ensures some { PassesOn W.contents self.old self.new }
        ensures all { OnOk result (self.new.end ≡ 0) }
    {
        let length = self.end;
        // This never happens: `end` is at most the room's length.
        if length > self.room.len() {
            return Err(io::Error::from(ErrorKind::InvalidInput));
        }
        if length > usize::MAX - self.passed {
            return Err(io::Error::from(ErrorKind::FileTooLarge));
        }
        let count = write_front(self.room, length, self.writer);
        self.passed += count;
        if count < length {
            self.room.copy_within(count..length, 0);
            self.end = length - count;
            return Err(io::Error::from(ErrorKind::WriteZero));
        }
        self.end = 0;
        Ok(())
    }

    /// Writes the bytes that are held if there is no room for more.
    #[tactic(auto, using(crate::proofs::Buffers::none_passed))]
    fn make_room(&mut self) -> io::Result<()>
        ensures some { PassesOn W.contents self.old self.new }
        ensures fits { OnOk result (self.new.end ≤ length self.new.room.now) }
    {
        if self.end < self.room.len() {
            return Ok(());
        }
        self.pass_on()
    }

    /// Takes as many bytes as there is room for, once what is held was written if there is none.
    /// Returns how many, or 0 if a write failed.
    #[inline(never)]
    #[tactic(auto, using(crate::proofs::Buffers::none_held, crate::proofs::Buffers::held_more))]
    fn write_part(&mut self, bytes: &[u8]) -> usize
        ensures bound { result ≤ length bytes.now }
        ensures bytes { Appends (buffered W.contents self.old) (buffered W.contents self.new)
            (take result bytes.now) }
    {
        let Ok(()) = self.make_room() else {
            return 0;
        };
        let count = bytes.len().min(self.room.len() - self.end);
        let end = self.end + count;
        put(self.room, self.end, &bytes[..count]);
        self.end = end;
        count
    }
}

/// What was written to the buffer: the bytes that the writer beneath got, and then those that are
/// held.
impl<W: Write> Write for Buffer<'_, W> {
    ghost use Rattle.justfile_format.specs.Buffered.{buffered};

    ghost contents = { buffered W.contents };

    /// Takes all of the bytes if there is room for them, and else as many as there is room for.
    /// Takes none if a write failed.
    #[inline(always)]
    #[tactic(auto, using(crate::proofs::Buffers::held_all))]
    fn write(&mut self, bytes: &[u8]) -> io::Result<usize> {
        match self.end.checked_add(bytes.len()) {
            Some(end) if end <= self.room.len() => {
                put(self.room, self.end, bytes);
                self.end = end;
                Ok(bytes.len())
            }
            _ => Ok(self.write_part(bytes)),
        }
    }

    #[tactic(auto, using(crate::proofs::Buffers::kept, crate::proofs::Buffers::flushed))]
    fn flush(&mut self) -> io::Result<()> {
        self.pass_on()?;
        self.writer.flush()
    }
}

/// Writes the first bytes of the room, as `write_up_to` does. The room is passed as `&mut`, because
/// the check doesn't cover a shared reference to one field beside an exclusive one to another.
fn write_front<W: Write>(room: &mut [u8], end: usize, writer: &mut W) -> usize
    requires { end ≤ length room.old }
    ensures count { result ≤ end }
    ensures written { Appends (W.contents writer.old) (W.contents writer.new)
        (take result (take end room.old)) }
    ensures kept { room.new ≡ room.old }
{
    write_up_to(&room[..end], writer)
}

/// Puts bytes into the room, from `start` on.
#[inline(always)]
fn put(room: &mut [u8], start: usize, bytes: &[u8])
    requires { start + length bytes.now ≤ length room.old }
    ensures length { length room.new ≡ length room.old }
    ensures front { take (start + length bytes.now) room.new ≡ take start room.old ++ bytes.now }
{
    room[start..start + bytes.len()].copy_from_slice(bytes);
}
