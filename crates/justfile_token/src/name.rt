//! Names: tokens that are identifiers.
ghost use Rattle.std.specs.Prelude.{◌≡◌};
ghost use Rattle.justfile_vocabulary.specs.declared.token_kind.TokenKind.TheVariants.{Identifier};

use crate::token::Token;
use justfile_vocabulary::TokenKind;
use std::fmt;
use std::ops::Deref;

/// A name: an identifier token.
#[derive(Clone, Copy, PartialEq, Eq, PartialOrd, Ord)]
pub struct Name<'src> {
    /// The identifier token.
    pub token: Token<'src>,
    pub ghost is_identifier: { token.kind ≡ Identifier },
}

impl<'src> Name<'src> {
    /// Returns the name with this identifier token.
    pub fn from_identifier(token: Token<'src>) -> Self
        requires { token.kind ≡ Identifier }
        ensures { result.token ≡ token.entry }
    {
        Name { token }
    }
}

impl<'src> Deref for Name<'src> {
    type Target = Token<'src>;

    ghost deref_gives = { λ name token. token ≡ name.token };

    fn deref(&self) -> &Token<'src> {
        &self.token
    }
}

/// Writes the lexeme with the width, fill and alignment of the format.
impl fmt::Display for Name<'_> {
    ghost use Rattle.std.specs.Prelude.{Some};
    ghost use Rattle.std.specs.Fmt.{padded};
    ghost use Rattle.justfile_token.specs.Token.{lexeme_of};

    ghost output = { λ name. Some (lexeme_of name.token) };

    ghost styled_output = { λ name spec. Some (padded spec (lexeme_of name.token)) };

    fn fmt<W: fmt::Write>(&self, f: &mut fmt::Formatter<W>) -> fmt::Result {
        f.pad(self.lexeme())
    }
}

/// Writes the lexeme between quotes.
impl fmt::Debug for Name<'_> {
    fn fmt<W: fmt::Write>(&self, f: &mut fmt::Formatter<W>) -> fmt::Result {
        fmt::Debug::fmt(self.lexeme(), f)
    }
}
