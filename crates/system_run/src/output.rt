//! Writing bytes until a write fails.
ghost use Rattle.std.specs.Prelude.{◌≤◌, length, take};
ghost use Rattle.std.specs.Io.KnownBytes.{Appends};

use std::io::Write;

/// Writes the bytes up to the first write that fails or accepts none of them, and returns how many
/// were written. An interruption is a write that fails.
pub fn write_up_to<W: Write>(bytes: &[u8], writer: &mut W) -> usize
    ensures count { result ≤ length bytes.now }
    ensures written { Appends (W.contents writer.old) (W.contents writer.new)
        (take result bytes.now) }
{
    let mut written = 0;
    while written < bytes.len() {
        match writer.write(&bytes[written..]) {
            Ok(0) | Err(_) => return written,
            Ok(count) => written += count,
        }
    }
    written
}
