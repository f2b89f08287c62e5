//! The call by which the parsers of constructs parse an expression.
#![tactic(auto)]

ghost use Rattle.std.specs.Prelude.{◌<◌, false, OnOk};
ghost use Rattle.justfile_expression.specs.LeafTree.{leaf_tree_of};
ghost use Rattle.justfile_model.specs.declared.level.Level.TheVariants as levels;
ghost use Rattle.justfile_parse_expression.specs.ParsedResults.{Parses};
ghost use Rattle.justfile_parse_expression.specs.TableReader as reader;
ghost use Rattle.justfile_parse_expression.specs.View.{tokens_left};

use justfile_expression::Expression;
use justfile_parse_expression::{ExpressionError, ParserState};
use justfile_token::Expander;

/// Parses an expression, and returns it in a box.
///
/// # Errors
///
/// The tokens are refused, a literal has no text, or memory runs out.
pub fn parse_expression<'src, X: Expander>(
    parser: &mut ParserState<'_, 'src, X>,
) -> Result<Box<Expression<'src>>, ExpressionError<'src>>
    ensures reads { Parses X.answer (λ e. leaf_tree_of e.value) result parser.old parser.new
        (λ s. reader.read (reader.At levels.Expression false s)) }
    ensures progress { OnOk result (tokens_left parser.new < tokens_left parser.old) }
{
    parser.parse_expression()
}
