//! How many tokens a text has, and how that is displayed.
ghost use Rattle.std.specs.Prelude.{IfOk};
ghost use Rattle.text_rows.specs.Counted.{IsAnswer};

use justfile_lex::Lexer;
use justfile_token::Fault;
use std::alloc::{AllocError, Global};
use std::fmt;

/// What the lexer returns for a text.
#[derive(Clone, Copy, Debug)]
pub enum TokenCount {
    /// The number of the text's tokens.
    Tokens(usize),
    /// The byte offset of the token at which the text is rejected.
    Rejected(usize),
}

impl fmt::Display for TokenCount {
    fn fmt<W: fmt::Write>(&self, f: &mut fmt::Formatter<W>) -> fmt::Result {
        match self {
            TokenCount::Tokens(count) => write!(f, "tokens: {count}"),
            TokenCount::Rejected(offset) => write!(f, "rejected at offset {offset}"),
        }
    }
}

/// Returns what the lexer returns for the text.
pub fn token_count(alloc: Global, text: &str) -> Result<TokenCount, AllocError>
    ensures { IfOk result (IsAnswer text.now) }
{
    match Lexer::lex(alloc, "justfile", text) {
        Ok(tokens) => Ok(TokenCount::Tokens(tokens.len())),
        Err(Fault::Compile(error)) => Ok(TokenCount::Rejected(error.token.offset)),
        Err(Fault::Memory | Fault::Numbers) => Err(AllocError),
    }
}
