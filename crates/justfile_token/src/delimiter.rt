//! Delimiters that can be open while a text is lexed.
ghost use Rattle.std.specs.Prelude.{◌≡◌};
ghost use Rattle.justfile_token.specs.Delimiter.{open_text, close_text};

use crate::string_kind::StringKind;
use justfile_vocabulary::interpolation::{INTERPOLATION_END, INTERPOLATION_START};

/// A delimiter that can be open while a text is lexed.
#[derive(Clone, Copy, Debug, PartialEq, Eq)]
pub enum Delimiter {
    Brace,
    Bracket,
    /// An interpolation of a format string of this kind, between `{{` and `}}`.
    FormatString(StringKind),
    Paren,
}

impl Delimiter {
    /// Returns the text that opens the delimiter.
    pub fn open(self) -> &'static str
        ensures { result.now ≡ open_text self }
    {
        match self {
            Delimiter::Brace => "{",
            Delimiter::Bracket => "[",
            Delimiter::FormatString(_) => INTERPOLATION_START,
            Delimiter::Paren => "(",
        }
    }

    /// Returns the text that closes the delimiter.
    pub fn close(self) -> &'static str
        ensures { result.now ≡ close_text self }
    {
        match self {
            Delimiter::Brace => "}",
            Delimiter::Bracket => "]",
            Delimiter::FormatString(_) => INTERPOLATION_END,
            Delimiter::Paren => ")",
        }
    }
}
