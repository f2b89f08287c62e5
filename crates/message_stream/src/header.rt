//! The headers of messages.
ghost use Rattle.std.specs.Prelude.{◌≡◌, IfOk};
ghost use Rattle.message_stream.specs.Field.{length_in};
ghost use Rattle.message_stream.specs.Header.{IsEnded, ReadsHeader, ReadsLine, later};

use crate::field::{is_last, length_in};
use std::alloc::Global;
use std::io::{self, BufRead};

/// How many lines a header has at most.
pub const MOST_LINES: usize = 64;

/// What was read where a header is due.
pub(crate) enum Header {
    /// A header. The body has so many bytes.
    Length(usize),
    /// Lines that are no header that names a length.
    Wrong,
    /// The end of the input.
    End,
}

/// Reads a header.
///
/// # Errors
///
/// Reading failed, or memory ran out.
#[tactic(auto, using(crate::proofs::Headers::is_none, crate::proofs::Headers::passed_most, crate::proofs::Headers::passed_none, crate::proofs::Headers::passed_to_end))]
pub(crate) fn read_header<R: BufRead>(alloc: Global, input: &mut R) -> io::Result<Header>
    ensures { IfOk result (ReadsHeader (R.remaining input.old) (R.remaining input.new)) }
{
    let mut length = None;
    let mut count = 0;
    'lines: while count < MOST_LINES {
        let read = read_line(alloc, input)?;
        let line = read.as_slice();
        if line.is_empty() {
            return Ok(Header::End);
        }
        if is_last(line) {
            return Ok(ended(length));
        }
        length = latest(length, line);
        count += 1;
    }
    Ok(Header::Wrong)
}

/// Reads the bytes up to the first line feed, with it, or up to the end of the input.
fn read_line<R: BufRead>(alloc: Global, input: &mut R) -> io::Result<Vec<u8>>
    ensures { IfOk result
        (λ line. ReadsLine (R.remaining input.old) (R.remaining input.new) line.items) }
{
    let mut line = Vec::new(alloc);
    input.read_until(b'\n', &mut line)?;
    Ok(line)
}

/// Returns the header of which the lines before the last one name the length.
fn ended(length: Option<usize>) -> Header
    ensures { IsEnded length result }
{
    match length {
        Some(count) => Header::Length(count),
        None => Header::Wrong,
    }
}

/// Returns the length that the line names, or otherwise that which was found before.
fn latest(found: Option<usize>, line: &[u8]) -> Option<usize>
    ensures { result ≡ later found (length_in line.now) }
{
    match length_in(line) {
        Some(count) => Some(count),
        None => found,
    }
}
