//! What a scan returns, and what its error says.
ghost use Rattle.std.specs.Prelude.{◌≡◌, Option, None, Some, true};
ghost use Rattle.justfile_model.specs.Lexing.LexicalFault.{Here};
ghost use Rattle.justfile_scan.specs.Scanned.{found_of, lexical_error_of, names_token, scan_fault};

use crate::lexical_fault::LexicalFault;
use justfile_vocabulary::TokenKind;

/// What a scan returns, in two registers: the next token, or that there is none. Why there is none
/// is read again from the text, where the error is reported (`explain`).
#[derive(Clone, Copy, Debug)]
pub struct Scanned {
    /// The kind of the token, or `Unspecified` if there is none.
    kind: TokenKind,
    /// The length of the token, in bytes.
    length: usize,
}

impl Scanned {
    /// Returns a token of this kind and length.
    #[inline(always)]
    pub fn token(kind: TokenKind, length: usize) -> Self
        requires { names_token kind ≡ true }
        ensures { found_of result ≡ Some (kind, length) }
    {
        Scanned { kind, length }
    }

    /// Returns that there is no token.
    #[inline(always)]
    pub fn nothing() -> Self
        ensures { found_of result ≡ None }
    {
        Scanned {
            kind: TokenKind::Unspecified,
            length: 0,
        }
    }

    /// Returns the kind and the length of the token, if there is one.
    #[inline(always)]
    pub fn found(self) -> Option<(TokenKind, usize)>
        ensures { result ≡ found_of self }
    {
        if matches!(self.kind, TokenKind::Unspecified) {
            None
        } else {
            Some((self.kind, self.length))
        }
    }
}

/// An error in scanning: why there is no next token.
#[derive(Clone, Copy, Debug)]
pub struct ScanError<'src> {
    pub fault: LexicalFault<'src>,
    /// The number of bytes of the rest before the invalid ones.
    pub skip: usize,
    /// The number of invalid bytes.
    pub length: usize,
}

/// Returns the error for the `length` bytes of the rest after the first `skip` ones.
pub fn scan_error<'src>(fault: LexicalFault<'src>, skip: usize, length: usize) -> ScanError<'src>
    ensures { lexical_error_of result ≡ Here (scan_fault fault.entry) skip length }
{
    ScanError {
        fault,
        skip,
        length,
    }
}
