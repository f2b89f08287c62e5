//! The texts of parts of format strings, each from one token, including tokens that lexing never
//! returns.
ghost use Rattle.std.specs.Prelude.{◌≡◌, IsTrue};
ghost use Rattle.std.specs.List.{All};
ghost use Rattle.justfile_token.specs.Token.{lexeme_of};
ghost use Rattle.justfile_literal.specs.Literal.{is_part};

use justfile_literal::format_part;
use justfile_token::{StringDelimiter, StringKind, StringLiteral, Token};
use justfile_vocabulary::{FormatStringPart, TokenKind};
use row_notation::{Answer, push_fault};

const SINGLE: StringKind = StringKind {
    delimiter: StringDelimiter::QuoteSingle,
    indented: false,
};

/// Makes a token of this kind from a whole text.
fn whole(text: &str, kind: TokenKind) -> Token<'_>
    ensures { lexeme_of result ≡ text.now }
{
    Token {
        column: 0,
        kind,
        length: text.len(),
        line: 0,
        offset: 0,
        path: "justfile",
        src: text,
    }
}

/// Writes the text of each format string without expressions, in single quotes.
fn push_parts(answer: &mut Answer, rows: &[&str])
    requires { All (λ row. IsTrue (is_part SINGLE FormatStringPart.Single row.now)) rows.now }
{
    for lexeme in rows {
        push_part_of(answer, lexeme);
    }
}

/// Writes the text of a format string without expressions, in single quotes.
fn push_part_of(answer: &mut Answer, lexeme: &str)
    requires { IsTrue (is_part SINGLE FormatStringPart.Single lexeme.now) }
{
    let token = whole(lexeme, TokenKind::StringToken);
    match format_part(answer.alloc(), token, SINGLE, FormatStringPart::Single) {
        Ok(literal) => push_part(answer, &literal, &token),
        Err(fault) => push_fault(answer, lexeme, &fault),
    }
}

/// Writes the text of a literal. Writes `misread` if it isn't a whole format string in single
/// quotes with this token, without the mark for expansion.
fn push_part(answer: &mut Answer, literal: &StringLiteral<'_>, token: &Token<'_>) {
    answer.push(literal.cooked.as_str());
    let is_read = literal.token == *token
        && literal.kind == SINGLE
        && literal.part == Some(FormatStringPart::Single)
        && !literal.expand;
    answer.push_if("misread", !is_read);
}

/// Writes the texts of format strings in which four braces stand for two.
pub(crate) fn format_parts(answer: &mut Answer) {
    const ROWS: &[&str] = &[
        "'a{{{{b'",
        "'{{{{{{'",
        "'{{{{{{{{{'",
        "'é{{{{{é'",
        "'{{{a{{'",
    ];
    push_parts(answer, ROWS);
}
