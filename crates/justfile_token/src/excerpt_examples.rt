//! Examples of excerpts, checked by computation.
ghost use Rattle.std.specs.Prelude.{◌≡◌, codes, encode_utf8_all};
ghost use Rattle.justfile_token.specs.Excerpt.{excerpt_text};

use crate::token::Token;
use justfile_vocabulary::TokenKind;

/// The end of an empty text.
pub fn end_of_empty() -> Token<'static>
    ensures { excerpt_text result ≡ encode_utf8_all (codes " ——▶ justfile:1:1\n  │\n1 │ \n  │ ^") }
{
    Token {
        column: 0,
        kind: TokenKind::Eof,
        length: 0,
        line: 0,
        offset: 0,
        path: "justfile",
        src: "",
    }
}

/// A token after a character that takes three bytes and two columns.
pub fn after_wide() -> Token<'static>
    ensures { excerpt_text result
        ≡ encode_utf8_all (codes " ——▶ justfile:1:12\n  │\n1 │ x := '中' %\n  │           ^") }
{
    Token {
        column: 11,
        kind: TokenKind::Unspecified,
        length: 1,
        line: 0,
        offset: 11,
        path: "justfile",
        src: "x := '中' %",
    }
}

/// A token after a tab, on a line that has a number of two digits and ends in a carriage return and
/// a line feed.
pub fn after_tab() -> Token<'static>
    ensures { excerpt_text result
        ≡ encode_utf8_all (codes "  ——▶ justfile:10:7\n   │\n10 │     x := %\n   │          ^") }
{
    Token {
        column: 6,
        kind: TokenKind::Unspecified,
        length: 1,
        line: 9,
        offset: 16,
        path: "justfile",
        src: "\n\n\n\n\r\n\n\n\n\n\tx := %\r\n",
    }
}

/// A token that consists of a tab and two characters, of which the second combines with the first.
pub fn several_columns() -> Token<'static>
    ensures { excerpt_text result
        ≡ encode_utf8_all (codes " ——▶ a:1:2\n  │\n1 │ b    ćd\n  │  ^^^^^") }
{
    Token {
        column: 1,
        kind: TokenKind::Unspecified,
        length: 4,
        line: 0,
        offset: 1,
        path: "a",
        src: "b\tc\u{301}d",
    }
}
