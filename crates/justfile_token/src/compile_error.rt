//! Errors: a kind, and the token at which it is reported.
ghost use Rattle.std.specs.Prelude.{◌≡◌};

use crate::compile_error_kind::CompileErrorKind;
use crate::token::Token;
use std::error::Error;

/// An error: what is wrong, and the token at which it is reported.
#[derive(Drop, PartialEq)]
pub struct CompileError<'src> {
    /// What is wrong.
    pub kind: CompileErrorKind<'src>,
    /// The token at which the error is reported.
    pub token: Token<'src>,
}

impl<'src> CompileError<'src> {
    /// Returns the error of this kind at the token.
    pub fn new(token: Token<'src>, kind: CompileErrorKind<'src>) -> Self
        ensures kind { result.kind ≡ kind.entry }
        ensures token { result.token ≡ token.entry }
    {
        CompileError { kind, token }
    }

    /// Returns the token at which the error is reported.
    pub fn context(&self) -> Token<'src>
        ensures { result ≡ self.now.token }
    {
        self.token
    }
}

impl Error for CompileError<'_> {}
