//! The kinds of text that are read up to an end.
use justfile_token::StringKind;

/// Text that is read byte by byte up to an end.
#[derive(Clone, Copy, Debug, PartialEq, Eq)]
pub enum RawText {
    Comment,
    /// The text of a body line.
    Body,
    /// The inside of a literal.
    Literal {
        kind: StringKind,
        /// Whether the literal is a part of a format string.
        is_format_string: bool,
    },
}
