//! Tokens: parts of a text, with their kinds and positions.
ghost use Rattle.std.specs.Prelude.{◌≡◌, ◌+◌};
ghost use Rattle.justfile_token.specs.Slice.{IsWithin, slice_of};

use crate::compile_error::CompileError;
use crate::compile_error_kind::CompileErrorKind;
use crate::excerpt::write_excerpt;
use justfile_vocabulary::TokenKind;
use std::fmt;

/// A part of a source text, with its kind and its position. Lines and columns count from 0, and
/// columns count bytes. A line feed at the end of a text begins no line: a token after it is on the
/// line that it ends.
#[derive(Clone, Copy, PartialEq, Eq, PartialOrd, Ord)]
pub struct Token<'src> {
    /// The number of bytes on the token's line before the token.
    pub column: usize,
    /// The kind of the token.
    pub kind: TokenKind,
    /// The number of bytes of the token.
    pub length: usize,
    /// The line on which the token begins, from 0.
    pub line: usize,
    /// The number of bytes of the source before the token.
    pub offset: usize,
    /// The path of the source.
    pub path: &'src str,
    /// The whole source.
    pub src: &'src str,
    pub ghost in_source: { IsWithin src.now offset length },
}

impl<'src> Token<'src> {
    /// Returns the text of the token.
    pub fn lexeme(&self) -> &'src str
        ensures { result.now ≡ slice_of self.now.src.now self.now.offset self.now.length }
    {
        &self.src[self.offset..self.offset + self.length]
    }

    /// Returns the number of bytes of the source before the end of the token.
    pub fn end(&self) -> usize
        ensures { result ≡ self.now.offset + self.now.length }
    {
        self.offset + self.length
    }

    /// Returns the error of this kind at the token.
    pub fn error(&self, kind: CompileErrorKind<'src>) -> CompileError<'src>
        ensures kind { result.kind ≡ kind.entry }
        ensures token { result.token ≡ self.now }
    {
        CompileError { kind, token: *self }
    }
}

/// Writes the token's position, and its line in the source with carets under the token.
impl fmt::Display for Token<'_> {
    ghost use Rattle.std.specs.Prelude.{Some};
    ghost use Rattle.justfile_token.specs.Excerpt.{excerpt_text};

    ghost output = { λ token. Some (excerpt_text token) };

    fn fmt<W: fmt::Write>(&self, f: &mut fmt::Formatter<W>) -> fmt::Result {
        write_excerpt(self, f)
    }
}

/// Writes the lexeme between quotes.
impl fmt::Debug for Token<'_> {
    fn fmt<W: fmt::Write>(&self, f: &mut fmt::Formatter<W>) -> fmt::Result {
        fmt::Debug::fmt(self.lexeme(), f)
    }
}
