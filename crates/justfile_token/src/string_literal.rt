//! Literals, with their texts and their tokens.
ghost use Rattle.std.specs.Prelude.{◌≡◌, IfOk, Some};

use crate::string_kind::StringKind;
use crate::token::Token;
use justfile_vocabulary::FormatStringPart;
use std::alloc::{AllocError, Global};
use std::fmt;

/// A literal, or a part of a format string between interpolations.
#[derive(Drop, PartialEq, Eq, PartialOrd, Ord)]
pub struct StringLiteral<'src> {
    /// The value of the literal: its text without delimiters, with escapes replaced and indentation
    /// removed.
    pub cooked: String,
    /// Whether the text is expanded as in a shell.
    pub expand: bool,
    /// The delimiter of the literal.
    pub kind: StringKind,
    /// The part of a format string that the literal makes up, or `None` if it isn't in one.
    pub part: Option<FormatStringPart>,
    /// The token of the literal, with its delimiters.
    pub token: Token<'src>,
}

impl<'src> StringLiteral<'src> {
    ghost use Rattle.justfile_token.specs.StringLiteral.{IsSameLiteral, begins_format_string, format_mark, literal_marks};

    /// Returns a copy of the literal.
    ///
    /// # Errors
    ///
    /// `AllocError` if memory runs out.
    pub fn clone(&self, alloc: Global) -> Result<Self, AllocError>
        ensures { IfOk result (λ copy. IsSameLiteral copy self.now) }
    {
        Ok(StringLiteral {
            cooked: self.cooked.as_str().to_string(alloc)?,
            expand: self.expand,
            kind: self.kind,
            part: self.part,
            token: self.token,
        })
    }

    /// Returns the marks before the opening delimiter.
    pub fn marks(&self) -> &'static str
        ensures { result.now ≡ literal_marks self.now }
    {
        match (self.expand, self.begins_format_string()) {
            (true, true) => "xf",
            (true, false) => "x",
            (false, true) => "f",
            (false, false) => "",
        }
    }

    /// Returns the mark of a format string if the literal begins one, or else the empty text.
    pub fn format_mark(&self) -> &'static str
        ensures { result.now ≡ format_mark self.now }
    {
        if self.begins_format_string() { "f" } else { "" }
    }

    /// Whether the literal begins a format string.
    fn begins_format_string(&self) -> bool
        ensures { result ≡ begins_format_string self.now.part }
    {
        matches!(
            self.part,
            Some(FormatStringPart::Start | FormatStringPart::Single)
        )
    }
}

impl fmt::Display for StringLiteral<'_> {
    ghost use Rattle.justfile_token.specs.StringLiteral.{literal_text};

    ghost output = { λ literal. Some (literal_text literal) };

    fn fmt<W: fmt::Write>(&self, f: &mut fmt::Formatter<W>) -> fmt::Result {
        f.write_str(self.marks())?;
        f.write_str(self.token.lexeme())
    }
}

/// Writes the literal as it is in the source, without its mark, between quotes.
impl fmt::Debug for StringLiteral<'_> {
    fn fmt<W: fmt::Write>(&self, f: &mut fmt::Formatter<W>) -> fmt::Result {
        fmt::Debug::fmt(self.token.lexeme(), f)
    }
}
