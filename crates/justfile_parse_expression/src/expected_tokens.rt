//! Which kinds of tokens an error message lists as expected in place of the next token.

use justfile_model::Level;
use justfile_vocabulary::TokenKind;
use std::alloc::{AllocError, Global};
use std::cell::Cell;

/// The kinds in the order in which messages list them. The byte order mark isn't among them: it is
/// allowed only at the front of a file, and no message mentions it.
static KINDS: &[TokenKind] = &[
    TokenKind::AmpersandAmpersand,
    TokenKind::Asterisk,
    TokenKind::At,
    TokenKind::Backtick,
    TokenKind::Bang,
    TokenKind::BangEquals,
    TokenKind::BangTilde,
    TokenKind::BarBar,
    TokenKind::BraceL,
    TokenKind::BraceR,
    TokenKind::BracketL,
    TokenKind::BracketR,
    TokenKind::Colon,
    TokenKind::ColonColon,
    TokenKind::ColonEquals,
    TokenKind::Comma,
    TokenKind::Comment,
    TokenKind::Dedent,
    TokenKind::Dollar,
    TokenKind::Eof,
    TokenKind::Eol,
    TokenKind::Equals,
    TokenKind::EqualsEquals,
    TokenKind::EqualsTilde,
    TokenKind::FormatStringContinue,
    TokenKind::FormatStringEnd,
    TokenKind::FormatStringStart,
    TokenKind::Identifier,
    TokenKind::Indent,
    TokenKind::InterpolationEnd,
    TokenKind::InterpolationStart,
    TokenKind::ParenL,
    TokenKind::ParenR,
    TokenKind::Plus,
    TokenKind::PlusPlus,
    TokenKind::QuestionMark,
    TokenKind::Slash,
    TokenKind::StringToken,
    TokenKind::Text,
    TokenKind::Unspecified,
    TokenKind::Whitespace,
];

/// The kinds expected at the next token: those that were looked for and not found since the last
/// token was taken.
///
/// They are in a cell, so that methods that only look at the next token can add to them. No
/// contract mentions them.
#[derive(Drop)]
pub struct ExpectedTokens {
    /// A bit for each kind.
    bits: Cell<u64>,
}

impl ExpectedTokens {
    /// Returns the empty set.
    pub(crate) fn new() -> Self {
        ExpectedTokens { bits: Cell::new(0) }
    }

    /// Adds the kinds that a value begins with.
    pub(crate) fn add_value(&self) {
        self.add_all(&[
            TokenKind::Backtick,
            TokenKind::Bang,
            TokenKind::BracketL,
            TokenKind::Identifier,
            TokenKind::ParenL,
            TokenKind::StringToken,
        ]);
    }

    /// Adds the operators of the levels from comparisons up to this one.
    pub(crate) fn add_operators_to(&self, level: Level) {
        match level {
            Level::Expression => {
                self.add_operators(Level::Compared);
                self.add_operators(Level::Disjunct);
                self.add_operators(Level::Expression);
            }
            Level::Disjunct => {
                self.add_operators(Level::Compared);
                self.add_operators(Level::Disjunct);
            }
            Level::Compared => self.add_operators(Level::Compared),
            Level::Conjunct | Level::Value => {}
        }
    }

    /// Adds the operators of a level.
    pub(crate) fn add_operators(&self, level: Level) {
        match level {
            Level::Expression => self.add(TokenKind::BarBar),
            Level::Disjunct => self.add(TokenKind::AmpersandAmpersand),
            Level::Compared => self.add_all(&[
                TokenKind::BangEquals,
                TokenKind::BangTilde,
                TokenKind::EqualsEquals,
                TokenKind::EqualsTilde,
            ]),
            Level::Conjunct => {
                self.add_all(&[TokenKind::Plus, TokenKind::PlusPlus, TokenKind::Slash]);
            }
            Level::Value => {}
        }
    }

    /// Adds kinds.
    #[inline(always)]
    pub fn add_all(&self, kinds: &[TokenKind]) {
        for kind in kinds {
            self.add(*kind);
        }
    }

    /// Adds a kind.
    pub fn add(&self, kind: TokenKind) {
        self.bits.set(self.bits.get() | bit_of(kind));
    }

    /// Removes all kinds, because a token is taken.
    pub(crate) fn clear(&self) {
        self.bits.set(0);
    }

    /// Returns the kinds in the order of `KINDS`.
    ///
    /// # Errors
    ///
    /// Memory runs out.
    pub fn kinds(&self, alloc: Global) -> Result<Vec<TokenKind>, AllocError> {
        let bits = self.bits.get();
        let mut kinds = Vec::new(alloc);
        for kind in KINDS {
            if bits & bit_of(*kind) != 0 {
                kinds.push(*kind)?;
            }
        }
        Ok(kinds)
    }
}

/// Returns the bit of a kind.
fn bit_of(kind: TokenKind) -> u64 {
    1_u64.wrapping_shl(kind as u32)
}
