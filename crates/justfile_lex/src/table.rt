//! The table of significant tokens, which the parser reads: all but whitespace.
ghost use Rattle.std.specs.Prelude.{◌≡◌, ◌++◌, ◌∷◌, [], cond, not, IfOk, OnOk};
ghost use Rattle.justfile_model.specs.Lexing.SignificantTokens.{is_whitespace};
ghost use Rattle.justfile_lex.specs.SignificantTable.{AreSignificant};

use crate::lexer::is_whitespace;
use justfile_token::Token;
use std::alloc::{AllocError, Global};

/// Returns the tokens that the parser reads: all but whitespace, each with whether it directly
/// follows the token before.
///
/// # Errors
///
/// Memory runs out.
pub fn significant<'src>(
    alloc: Global,
    tokens: &[Token<'src>],
) -> Result<Vec<(Token<'src>, bool)>, AllocError>
    ensures { IfOk result (λ table. AreSignificant tokens.now table.items) }
{
    let mut table = Vec::with_capacity(alloc, tokens.len())?;
    let mut glued = false;
    for token in tokens {
        glued = push_significant(&mut table, *token, glued)?;
    }
    Ok(table)
}

/// Appends a token to a table, unless it is whitespace. Returns whether it was appended, so whether
/// a token after it is glued to it.
fn push_significant<'src>(
    table: &mut Vec<(Token<'src>, bool)>,
    token: Token<'src>,
    glued: bool,
) -> Result<bool, AllocError>
    ensures after { IfOk result (λ after. after ≡ not (is_whitespace token.entry.kind)) }
    ensures table { OnOk result (table.new.items ≡ table.old.items
        ++ cond (is_whitespace token.entry.kind) [] ((token.entry, glued) ∷ [])) }
{
    if is_whitespace(token.kind) {
        return Ok(false);
    }
    table.push((token, glued))?;
    Ok(true)
}
