//! Writing messages.
ghost use Rattle.std.specs.Prelude.{OnOk};
ghost use Rattle.std.specs.Io.KnownBytes.{Appends};
ghost use Rattle.message_stream.specs.Header.{message_text};

use std::alloc::Global;
use std::io::{self, Write};

/// Writes a message: its header and its body. Then it flushes the writer.
///
/// # Errors
///
/// Writing failed, or memory ran out.
pub fn write_message<W: Write>(alloc: Global, body: &str, writer: &mut W) -> io::Result<()>
    ensures { OnOk result
        (Appends (W.contents writer.old) (W.contents writer.new) (message_text body.now)) }
{
    let length = body.len();
    let header = format!(in alloc; "Content-Length: {length}\r\n\r\n")?;
    writer.write_all(header.as_bytes())?;
    writer.write_all(body.as_bytes())?;
    writer.flush()
}
