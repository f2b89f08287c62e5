//! Reading messages.
ghost use Rattle.std.specs.Prelude.{IfOk};
ghost use Rattle.message_stream.specs.Header.{ReadsMessage};

use crate::body::{read_body, skip_body};
use crate::header::{Header, read_header};
use std::alloc::Global;
use std::io::{self, BufRead};

/// What was read where a message is due.
#[derive(Drop)]
pub enum Received {
    /// The body of a message.
    Message(Vec<u8>),
    /// Lines that are no header that names a length. What follows them is read next.
    WrongHeader,
    /// A message whose body is longer than the limit. The body was passed over.
    TooLong,
    /// The input ended.
    End,
}

/// Reads a message whose body has no more bytes than the limit.
///
/// # Errors
///
/// Reading failed, the input ended in a message, or memory ran out.
#[tactic(auto, using(crate::proofs::Headers::with_body))]
pub fn read_message<R: BufRead>(alloc: Global, limit: usize, input: &mut R) -> io::Result<Received>
    ensures { IfOk result (ReadsMessage (R.remaining input.old) (R.remaining input.new) limit) }
{
    match read_header(alloc, input)? {
        Header::End => Ok(Received::End),
        Header::Wrong => Ok(Received::WrongHeader),
        Header::Length(count) if count > limit => {
            skip_body(count, input)?;
            Ok(Received::TooLong)
        }
        Header::Length(count) => {
            let body = read_body(alloc, count, input)?;
            Ok(Received::Message(body))
        }
    }
}
