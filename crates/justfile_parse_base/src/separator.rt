//! What follows an element of a list.
ghost use Rattle.std.specs.Prelude.{◌<◌, OnOk};
ghost use Rattle.justfile_parse_base.specs.SharedTable as reader;
ghost use Rattle.justfile_parse_expression.specs.ParsedResults.{Parses};
ghost use Rattle.justfile_parse_expression.specs.View.{tokens_left};

use justfile_parse_expression::{ExpressionError, ParserState};
use justfile_token::Expander;
use justfile_vocabulary::TokenKind;

/// Parses what follows an element of a list: a comma, or the closing delimiter. Returns whether the
/// list is closed.
///
/// # Errors
///
/// Another token comes next.
#[tactic(auto, unfolding(crate::specs::SharedTable::separator))]
pub fn parse_separator<'src, X: Expander>(
    parser: &mut ParserState<'_, 'src, X>,
    closing: TokenKind,
) -> Result<bool, ExpressionError<'src>>
    ensures reads { Parses X.answer (λ is_last. is_last) result parser.old parser.new
        (reader.separator closing) }
    ensures progress { OnOk result (tokens_left parser.new < tokens_left parser.old) }
{
    if let Some(_comma) = parser.accept(TokenKind::Comma) {
        return Ok(false);
    }
    parser.expect(closing)?;
    Ok(true)
}
