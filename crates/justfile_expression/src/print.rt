//! Printing of expressions.
ghost use Rattle.std.specs.Prelude.{◌≡◌, ℕ, List, IfOk, OnErr};
ghost use Rattle.justfile_model.specs.Printed.Printing.{fixed_text};
ghost use Rattle.justfile_token.specs.Sink.{Puts};
ghost use Rattle.justfile_expression.specs.Ends.{IsCompleted};
ghost use Rattle.justfile_expression.specs.Text.{text_of};

use crate::children::{child, start};
use crate::expression::Expression;
use justfile_leaves::write_words;
use justfile_token::Sink;
use std::fmt;

impl fmt::Display for Expression<'_> {
    ghost use Rattle.std.specs.Prelude.{Some};

    ghost output = { λ e. Some (text_of e) };

    fn fmt<W: fmt::Write>(&self, f: &mut fmt::Formatter<W>) -> fmt::Result {
        write_expression(self, f)
    }
}

/// Writes the same text as `Display`.
impl fmt::Debug for Expression<'_> {
    fn fmt<W: fmt::Write>(&self, f: &mut fmt::Formatter<W>) -> fmt::Result {
        write_expression(self, f)
    }
}

/// Writes the text of an expression. Expressions nest to the right without a limit, so a loop
/// follows the children that end their expressions.
#[cycle(write)]
pub fn write_expression<S: Sink>(expression: &Expression<'_>, sink: &mut S) -> Result<(), S::Fault>
    ensures { Puts S.took S.failed sink.old result (text_of expression.now) sink.new }
{
    let mut rest = Some(expression);
    while let Some(next) = rest {
        rest = write_to_last(next, sink)?;
    }
    Ok(())
}

/// Writes the text of an expression up to a child that ends it, and returns that child. Writes the
/// whole text and returns `None` if no child ends it.
#[cycle(write)]
fn write_to_last<'a, 'src, S: Sink>(
    expression: &'a Expression<'src>,
    sink: &mut S,
) -> Result<Option<&'a Expression<'src>>, S::Fault>
    ensures ok { IfOk result (λ last. (text : List ℕ) × S.took sink.old text sink.new
        × IsCompleted text last expression.now) }
    ensures err { OnErr result (S.failed sink.old (text_of expression.now) sink.new) }
{
    write_words(&start(expression), sink)?;
    let mut index = 0;
    while let Some((part, words)) = child(expression, index) {
        if words.is_empty() {
            return Ok(Some(part));
        }
        write_expression(part, sink)?;
        write_words(&words, sink)?;
        index += 1;
    }
    Ok(None)
}
