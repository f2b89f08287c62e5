//! Writes the excerpt of a token: its line, with carets under the token.
ghost use Rattle.std.specs.Prelude.{Some};
ghost use Rattle.std.specs.Fmt.{DisplaysOnOk};
ghost use Rattle.justfile_token.specs.Excerpt.{bar_line, caret_line, excerpt_on, excerpt_text, indent, place_line, source_line};

use crate::token::Token;
use justfile_message::columns::{
    digit_count, line_at, ordinal, write_carets, write_columns, write_line,
};
use std::fmt;

/// Writes as many spaces as the number of the token's line has digits.
fn write_indent<W: fmt::Write>(token: &Token<'_>, f: &mut fmt::Formatter<W>) -> fmt::Result
    ensures { DisplaysOnOk W.write_str_gives f.old result (Some (indent token.now)) f.new }
{
    f.write_repeated(" ", digit_count(ordinal(token.line)))
}

/// Writes the path, and the token's line and column, both from 1.
fn write_place<W: fmt::Write>(token: &Token<'_>, f: &mut fmt::Formatter<W>) -> fmt::Result
    ensures { DisplaysOnOk W.write_str_gives f.old result (Some (place_line token.now)) f.new }
{
    let line = ordinal(token.line);
    let column = ordinal(token.column);
    write_indent(token, f)?;
    write!(f, "——▶ {}:{line}:{column}", token.path)
}

/// Writes the separator before a line without a number.
fn write_bar<W: fmt::Write>(token: &Token<'_>, f: &mut fmt::Formatter<W>) -> fmt::Result
    ensures { DisplaysOnOk W.write_str_gives f.old result (Some (bar_line token.now)) f.new }
{
    write_indent(token, f)?;
    f.write_str(" │")
}

/// Writes a line after the number of the token's line.
fn write_source<W: fmt::Write>(
    token: &Token<'_>,
    line: &str,
    f: &mut fmt::Formatter<W>,
) -> fmt::Result
    ensures { DisplaysOnOk W.write_str_gives f.old result
        (Some (source_line token.now line.now)) f.new }
{
    let number = ordinal(token.line);
    write!(f, "{number} │ ")?;
    write_line(line, f)
}

/// Writes the carets under the token in a line.
fn write_caret_line<W: fmt::Write>(
    token: &Token<'_>,
    line: &str,
    f: &mut fmt::Formatter<W>,
) -> fmt::Result
    ensures { DisplaysOnOk W.write_str_gives f.old result
        (Some (caret_line token.now line.now)) f.new }
{
    write_bar(token, f)?;
    f.write_str(" ")?;
    write_columns(line, 0, token.column, " ", f)?;
    write_carets(line, token.column, token.length.max(1), f)
}

/// Writes the position of a token, and a line with carets under the token.
fn write_excerpt_on<W: fmt::Write>(
    token: &Token<'_>,
    line: &str,
    f: &mut fmt::Formatter<W>,
) -> fmt::Result
    ensures { DisplaysOnOk W.write_str_gives f.old result
        (Some (excerpt_on token.now line.now)) f.new }
{
    write_place(token, f)?;
    f.write_str("\n")?;
    write_bar(token, f)?;
    f.write_str("\n")?;
    write_source(token, line, f)?;
    f.write_str("\n")?;
    write_caret_line(token, line, f)
}

/// Writes the position of a token, and its line with carets under the token.
pub(crate) fn write_excerpt<W: fmt::Write>(
    token: &Token<'_>,
    f: &mut fmt::Formatter<W>,
) -> fmt::Result
    ensures { DisplaysOnOk W.write_str_gives f.old result (Some (excerpt_text token.now)) f.new }
{
    write_excerpt_on(token, line_at(token.src, token.line), f)
}

/// A token with its line, which is written as the token itself. A token finds its line by reading
/// its source up to there; who tells of many tokens goes through the lines once.
#[derive(Clone, Copy)]
pub struct Excerpt<'src> {
    /// The token.
    pub token: Token<'src>,
    /// The line on which it begins, without its line end.
    pub line: &'src str,
}

/// Writes the token's position, and the line with carets under the token.
impl fmt::Display for Excerpt<'_> {
    ghost use Rattle.std.specs.Prelude.{Some};
    ghost use Rattle.justfile_token.specs.Excerpt.{excerpt_on};

    ghost output = { λ excerpt. Some (excerpt_on excerpt.token excerpt.line.now) };

    fn fmt<W: fmt::Write>(&self, f: &mut fmt::Formatter<W>) -> fmt::Result {
        write_excerpt_on(&self.token, self.line, f)
    }
}
