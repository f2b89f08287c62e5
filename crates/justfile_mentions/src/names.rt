//! What a name is.
ghost use Rattle.std.specs.Prelude.{◌≡◌, ◌↔◌, IfOk, IsTrue, map};
ghost use Rattle.justfile_model.specs.Lexing.Tok.{tok_of};
ghost use Rattle.justfile_mentions.specs.Names.{IsName, is_identifier, is_single};

use justfile_lex::Lexer;
use justfile_token::{Fault, Token};
use justfile_vocabulary::TokenKind;
use std::alloc::{AllocError, Global};

/// Whether a text is a name: a single identifier.
///
/// # Errors
///
/// Memory ran out.
#[tactic(auto, using(crate::proofs::Single::never, crate::proofs::Single::never_if))]
pub fn is_name(alloc: Global, text: &str) -> Result<bool, AllocError>
    ensures { IfOk result (λ is. IsTrue is ↔ IsName text.now) }
{
    match Lexer::lex(alloc, "name", text) {
        Ok(tokens) => Ok(is_single(&tokens)),
        Err(Fault::Memory) => Err(AllocError),
        Err(Fault::Compile(_)) => Ok(false),
        Err(Fault::Numbers) => Ok(false),
    }
}

/// Whether tokens are an identifier and the end of the text.
fn is_single(tokens: &[Token<'_>]) -> bool
    ensures { result ≡ is_single (map tok_of tokens.now) }
{
    match tokens {
        [name, _] => is_identifier(name.kind),
        [] | [_] | [_, _, _, ..] => false,
    }
}

/// Whether it is the kind of names.
fn is_identifier(kind: TokenKind) -> bool
    ensures { result ≡ is_identifier kind }
{
    match kind {
        TokenKind::Identifier => true,
        _ => false,
    }
}
