//! Comparison of tokens and literals by content, ignoring their positions.
ghost use Rattle.std.specs.Prelude.{◌≡◌};
ghost use Rattle.justfile_model.specs.Trees.ContentLeaf as contents;
ghost use Rattle.justfile_leaves.specs.LeafContent.{literal_content, token_content};

use justfile_token::{StringLiteral, Token};
use std::cmp::Ordering;

/// Compares two literals by their fields in declared order, their tokens by kind and lexeme.
pub fn literal_content_cmp<'src>(
    literal: &StringLiteral<'src>,
    other: &StringLiteral<'src>,
) -> Ordering
    ensures { result
        ≡ contents.literal_content_cmp (literal_content literal.now) (literal_content other.now) }
{
    literal
        .cooked
        .as_str()
        .cmp(other.cooked.as_str())
        .then(literal.expand.cmp(&other.expand))
        .then(literal.kind.cmp(&other.kind))
        .then(literal.part.cmp(&other.part))
        .then(token_content_cmp(&literal.token, &other.token))
}

/// Compares two tokens by kind, and then by lexeme.
pub fn token_content_cmp<'src>(token: &Token<'src>, other: &Token<'src>) -> Ordering
    ensures { result
        ≡ contents.token_content_cmp (token_content token.now) (token_content other.now) }
{
    token
        .kind
        .cmp(&other.kind)
        .then(token.lexeme().cmp(other.lexeme()))
}
