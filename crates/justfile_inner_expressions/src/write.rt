//! Writing of expressions.
ghost use Rattle.justfile_token.specs.Sink.{Puts};
ghost use Rattle.justfile_expression.specs.Text.{text_of};

use justfile_expression::{self as expressions, Expression};
use justfile_token::Sink;

/// Writes the text of an expression.
pub fn write_expression<S: Sink>(expression: &Expression<'_>, sink: &mut S) -> Result<(), S::Fault>
    ensures { Puts S.took S.failed sink.old result (text_of expression.now) sink.new }
{
    expressions::write_expression(expression, sink)
}
