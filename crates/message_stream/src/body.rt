//! The bodies of messages.
ghost use Rattle.std.specs.Prelude.{◌≡◌, ◌<◌, ◌≤◌, IfOk, OnOk, length};
ghost use Rattle.std.specs.Io.KnownBytes.{Consumes};
ghost use Rattle.message_stream.specs.Header.{Skips, SkipsSome};

use std::alloc::Global;
use std::io::{self, Read};

/// Reads so many bytes.
///
/// # Errors
///
/// Reading failed, the input ended before, or memory ran out.
pub(crate) fn read_body<R: Read>(alloc: Global, count: usize, input: &mut R) -> io::Result<Vec<u8>>
    ensures length { IfOk result (λ body. length body.items ≡ count) }
    ensures bytes { IfOk result
        (λ body. Consumes (R.remaining input.old) (R.remaining input.new) body.items) }
{
    let mut body = vec![in alloc; 0u8; count]?;
    input.read_exact(&mut body)?;
    Ok(body)
}

/// Passes over so many bytes, or over those that there are.
///
/// # Errors
///
/// Reading failed.
#[tactic(auto, using(crate::proofs::Headers::skipped_all, crate::proofs::Headers::skipped_none, crate::proofs::Headers::skipped_to_end))]
pub(crate) fn skip_body<R: Read>(count: usize, input: &mut R) -> io::Result<()>
    ensures { OnOk result (Skips count (R.remaining input.old) (R.remaining input.new)) }
{
    let mut left = count;
    'pieces: while left > 0 {
        let skipped = skip_piece(left, input)?;
        if skipped == 0 {
            return Ok(());
        }
        left -= skipped;
    }
    Ok(())
}

/// Passes over some bytes, no more than so many, which aren't none. Returns how many, none only at the
/// end.
fn skip_piece<R: Read>(most: usize, input: &mut R) -> io::Result<usize>
    requires { 0 < most }
    ensures bound { IfOk result (λ n. n ≤ most) }
    ensures skips { IfOk result
        (λ n. SkipsSome n (R.remaining input.old) (R.remaining input.new)) }
{
    let mut piece = [0u8; 4096];
    let room = most.min(piece.len());
    let read = input.read(&mut piece[..room])?;
    Ok(read)
}
