//! Why a text has no next token, and the error that reports it.
ghost use Rattle.std.specs.Prelude.{◌≡◌, IfOk};
ghost use Rattle.justfile_model.specs.Lexing.LexicalFault.{lexical_fault_of};
ghost use Rattle.justfile_scan.specs.Scanned.{scan_fault};

use justfile_token::{CompileErrorKind, Delimiter};
use std::alloc::{AllocError, Global};

/// Why there is no next token. It borrows the text, so it needs no memory. An interpolation without
/// an end isn't among these, since the lexer checks for it separately.
#[derive(Clone, Copy, Debug)]
pub enum LexicalFault<'src> {
    EscapeEndOfFile,
    InconsistentLeadingWhitespace {
        expected: &'src str,
        found: &'src str,
    },
    InvalidEscapeSequence {
        character: char,
    },
    MismatchedClosingDelimiter {
        close: Delimiter,
        open_line: usize,
        opener: Delimiter,
    },
    MixedLeadingWhitespace {
        whitespace: &'src str,
    },
    UnexpectedCharacter {
        expected: char,
    },
    UnexpectedClosingDelimiter {
        close: Delimiter,
    },
    UnexpectedEndOfToken {
        expected: char,
    },
    UnknownStartOfToken {
        start: char,
    },
    UnpairedCarriageReturn,
    UnterminatedBacktick,
    UnterminatedString,
}

impl<'src> LexicalFault<'src> {
    /// Returns the kind of the error. Allocates only for the lists of expected characters.
    pub fn into_kind(self, alloc: Global) -> Result<CompileErrorKind<'src>, AllocError>
        ensures { IfOk result (λ kind. lexical_fault_of kind ≡ scan_fault self.entry) }
    {
        Ok(match self {
            LexicalFault::EscapeEndOfFile => CompileErrorKind::EscapeEndOfFile,
            LexicalFault::InconsistentLeadingWhitespace { expected, found } => {
                CompileErrorKind::InconsistentLeadingWhitespace { expected, found }
            }
            LexicalFault::InvalidEscapeSequence { character } => {
                CompileErrorKind::InvalidEscapeSequence { character }
            }
            LexicalFault::MismatchedClosingDelimiter {
                close,
                open_line,
                opener,
            } => CompileErrorKind::MismatchedClosingDelimiter {
                close,
                open_line,
                opener,
            },
            LexicalFault::MixedLeadingWhitespace { whitespace } => {
                CompileErrorKind::MixedLeadingWhitespace { whitespace }
            }
            LexicalFault::UnexpectedCharacter { expected } => {
                let expected = vec![in alloc; expected]?;
                CompileErrorKind::UnexpectedCharacter { expected }
            }
            LexicalFault::UnexpectedClosingDelimiter { close } => {
                CompileErrorKind::UnexpectedClosingDelimiter { close }
            }
            LexicalFault::UnexpectedEndOfToken { expected } => {
                let expected = vec![in alloc; expected]?;
                CompileErrorKind::UnexpectedEndOfToken { expected }
            }
            LexicalFault::UnknownStartOfToken { start } => {
                CompileErrorKind::UnknownStartOfToken { start }
            }
            LexicalFault::UnpairedCarriageReturn => CompileErrorKind::UnpairedCarriageReturn,
            LexicalFault::UnterminatedBacktick => CompileErrorKind::UnterminatedBacktick,
            LexicalFault::UnterminatedString => CompileErrorKind::UnterminatedString,
        })
    }
}
