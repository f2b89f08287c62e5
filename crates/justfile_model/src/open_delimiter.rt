//! Delimiters that are open while a text is lexed.
use justfile_token::Delimiter;

/// An open delimiter, and the line on which its token ends. For a format string that is the line on
/// which the first part ends.
#[derive(Clone, Copy, Debug, PartialEq, Eq)]
pub struct OpenDelimiter {
    /// The delimiter.
    pub delimiter: Delimiter,
    /// The line on which its token ends, from 0.
    pub line: usize,
}
