//! What a message can list as alternatives.
ghost use Rattle.std.specs.Prelude.{◌≡◌, ℕ, List, Some, encode_utf8};
ghost use Rattle.std.specs.Fmt.{DisplaysOnOk};
ghost use Rattle.justfile_vocabulary.specs.Keyword.{keyword_text};
ghost use Rattle.justfile_vocabulary.specs.TokenKind.{kind_text};

use crate::keyword::Keyword;
use crate::token_kind::TokenKind;
use std::fmt;

/// A value that messages list as one of several alternatives.
pub trait Alternative {
    /// The bytes of the alternative's text.
    ghost alternative_text: { Self → List ℕ };

    /// Writes the alternative's text.
    fn write_alternative<W: fmt::Write>(&self, f: &mut fmt::Formatter<W>) -> fmt::Result
    where
        Self: Sized,
        ensures { DisplaysOnOk W.write_str_gives f.old result
            (Some (alternative_text self.now)) f.new };
}

impl Alternative for Keyword {
    ghost alternative_text = { keyword_text };

    fn write_alternative<W: fmt::Write>(&self, f: &mut fmt::Formatter<W>) -> fmt::Result {
        write!(f, "{self}")
    }
}

impl Alternative for TokenKind {
    ghost alternative_text = { kind_text };

    fn write_alternative<W: fmt::Write>(&self, f: &mut fmt::Formatter<W>) -> fmt::Result {
        write!(f, "{self}")
    }
}

impl Alternative for char {
    ghost alternative_text = { encode_utf8 };

    fn write_alternative<W: fmt::Write>(&self, f: &mut fmt::Formatter<W>) -> fmt::Result {
        f.write_char(*self)
    }
}
