//! Why an escape is invalid, and the error that reports it.
ghost use Rattle.std.specs.Prelude.{◌≡◌, IfOk, Some};
ghost use Rattle.justfile_model.specs.LiteralTexts.EscapeFault.{escape_fault_of};
ghost use Rattle.justfile_literal_parts.specs.Pieces.{piece_fault};

use justfile_token::CompileErrorKind;
use std::alloc::{AllocError, Global};

/// Why a piece of a text is invalid. It borrows the text, so it needs no memory.
#[derive(Clone, Copy, Debug)]
pub enum EscapeFault<'a> {
    /// The character doesn't begin an escape.
    InvalidEscapeSequence { character: char },
    /// The character after the digits isn't the closing brace.
    UnicodeEscapeCharacter { character: char },
    /// The character is in place of the opening brace.
    UnicodeEscapeDelimiter { character: char },
    /// There is no digit between the braces.
    UnicodeEscapeEmpty,
    /// There are more than six digits, of which this holds the first seven.
    UnicodeEscapeLength { hex: &'a str },
    /// The digits aren't the code point of a character.
    UnicodeEscapeRange { hex: &'a str },
    /// The text ends inside an escape.
    UnicodeEscapeUnterminated,
}

impl<'a> EscapeFault<'a> {
    /// Returns the kind of the error. Allocates only to copy digits.
    pub fn into_kind<'src>(self, alloc: Global) -> Result<CompileErrorKind<'src>, AllocError>
        ensures { IfOk result (λ kind. escape_fault_of kind ≡ Some (piece_fault self.entry)) }
    {
        Ok(match self {
            EscapeFault::InvalidEscapeSequence { character } => {
                CompileErrorKind::InvalidEscapeSequence { character }
            }
            EscapeFault::UnicodeEscapeCharacter { character } => {
                CompileErrorKind::UnicodeEscapeCharacter { character }
            }
            EscapeFault::UnicodeEscapeDelimiter { character } => {
                CompileErrorKind::UnicodeEscapeDelimiter { character }
            }
            EscapeFault::UnicodeEscapeEmpty => CompileErrorKind::UnicodeEscapeEmpty,
            EscapeFault::UnicodeEscapeLength { hex } => {
                let hex = String::from_str(alloc, hex)?;
                CompileErrorKind::UnicodeEscapeLength { hex }
            }
            EscapeFault::UnicodeEscapeRange { hex } => {
                let hex = String::from_str(alloc, hex)?;
                CompileErrorKind::UnicodeEscapeRange { hex }
            }
            EscapeFault::UnicodeEscapeUnterminated => CompileErrorKind::UnicodeEscapeUnterminated,
        })
    }
}
