//! Reading and decoding the input.
ghost use Rattle.std.specs.Prelude.{◌≡◌, IfErr, IfOk, IfSome, OnOk};
ghost use Rattle.std.specs.Io.KnownBytes.{IsAtEnd};
ghost use Rattle.std.specs.Str.{IsUtf8};
ghost use Rattle.justfile_format.specs.declared.failure.Failure.TheVariants as failures;
ghost use Rattle.justfile_format.specs.Failure.{IsOfReading};

use crate::failure::Failure;
use std::alloc::Global;
use std::io::{self, ErrorKind, Read};
use std::str;

/// How many bytes are read at once.
const CHUNK: usize = 8 * 1024;

/// Reads all bytes of the reader, through a buffer, because `read_to_end` fills its spare room with
/// zeros, byte by byte. Fails if the reader doesn't end within `usize::MAX` reads.
#[tactic(auto, using(crate::proofs::WholeInput::all_read, crate::proofs::WholeInput::read_more, crate::proofs::WholeInput::read_none))]
pub(crate) fn read_all<R: Read>(alloc: Global, reader: &mut R) -> Result<Vec<u8>, Failure>
    ensures ok { IfOk result
        (λ bytes. IfSome (R.remaining reader.old) (λ source. bytes.items ≡ source)) }
    ensures end { OnOk result (IsAtEnd (R.remaining reader.new)) }
    ensures err { IfErr result IsOfReading }
{
    let mut chunk = [0; CHUNK];
    let mut bytes = Vec::new(alloc);
    'chunks: for _chunk in 0..usize::MAX {
        match reader.read(&mut chunk) {
            Ok(0) => return Ok(bytes),
            Ok(count) => bytes.extend_from_slice(&chunk[..count])?,
            Err(error) => check_interrupted(&error)?,
        }
    }
    Err(Failure::Reading)
}

/// Returns the failure for the error of a read, unless a signal interrupted the read.
fn check_interrupted(error: &io::Error) -> Result<(), Failure>
    ensures { IfErr result IsOfReading }
{
    match error.kind() {
        ErrorKind::Interrupted => Ok(()),
        ErrorKind::OutOfMemory => Err(Failure::Memory),
        _ => Err(Failure::Reading),
    }
}

/// Decodes bytes as UTF-8.
pub(crate) fn decode(bytes: &[u8]) -> Result<&str, Failure>
    ensures ok { IfOk result (λ text. text.now ≡ bytes.now) }
    ensures not_utf8 { IfErr result (λ e. (e ≡ failures.NotUtf8) × (IsUtf8 bytes.now → ⊥)) }
{
    match str::from_utf8(bytes) {
        Ok(text) => Ok(text),
        Err(_) => Err(Failure::NotUtf8),
    }
}
