//! Messages that show a token or a delimiter.
ghost use Rattle.std.specs.Prelude.{◌≡◌, Some, codes};
ghost use Rattle.std.specs.Fmt.{DisplaysOnOk};
ghost use Rattle.justfile_message.specs.Shown.{line_text};
ghost use Rattle.justfile_vocabulary.specs.Text.{◌&◌};
ghost use Rattle.justfile_token.specs.Delimiter.{close_text, open_text};
ghost use Rattle.justfile_token.specs.Messages.{found_text, is_identifier};
ghost use Rattle.justfile_message.specs.Parts.{expected_keywords};

use crate::delimiter::Delimiter;
use crate::token::Token;
use justfile_message::List;
use justfile_message::shown::LineNumber;
use justfile_vocabulary::{Keyword, TokenKind};
use std::fmt;

fn is_identifier(kind: TokenKind) -> bool
    ensures { result ≡ is_identifier kind }
{
    matches!(kind, TokenKind::Identifier)
}

/// A token that was found instead of a keyword.
#[derive(Clone, Copy)]
struct Found<'a>(&'a Token<'a>);

impl fmt::Display for Found<'_> {
    ghost output = { λ found. Some (found_text found.0.now) };

    fn fmt<W: fmt::Write>(&self, f: &mut fmt::Formatter<W>) -> fmt::Result {
        if is_identifier(self.0.kind) {
            write!(f, "identifier `{}`", self.0.lexeme())
        } else {
            write!(f, "`{}`", self.0.kind)
        }
    }
}

/// Writes which keywords are expected instead of the token.
pub(crate) fn write_expected_keyword<W: fmt::Write>(
    expected: &[Keyword],
    found: &Token<'_>,
    f: &mut fmt::Formatter<W>,
) -> fmt::Result
    ensures { DisplaysOnOk W.write_str_gives f.old result
        (Some (codes "expected keyword " & expected_keywords expected.now & codes " but found "
        & found_text found.now)) f.new }
{
    let (expected, found) = (List::or_ticked(expected), Found(found));
    write!(f, "expected keyword {expected} but found {found}")
}

/// Writes that a closing delimiter doesn't match the opening one.
pub(crate) fn write_mismatched<W: fmt::Write>(
    close: Delimiter,
    opener: Delimiter,
    open_line: usize,
    f: &mut fmt::Formatter<W>,
) -> fmt::Result
    ensures { DisplaysOnOk W.write_str_gives f.old result
        (Some (codes "mismatched closing delimiter `" & close_text close
        & codes "`, did you mean to close the `"
        & open_text opener & codes "` on line " & line_text open_line & codes "?")) f.new }
{
    let (close, open, line) = (close.close(), opener.open(), LineNumber(open_line));
    write!(
        f,
        "mismatched closing delimiter `{close}`, did you mean to close the `{open}` on line {line}?"
    )
}
