//! Kinds of tokens.
ghost use Rattle.std.specs.Prelude.{◌≡◌};
ghost use Rattle.justfile_completion.specs.Kinds.{begins_line, closes, ends_line, is_assign, is_between, is_blocking, is_bracket, is_colon, is_comma, is_equals, is_identifier, is_indent, is_parenthesis, is_word, opens};

use justfile_vocabulary::TokenKind;

/// Whether it is a bracket, or the beginning of an interpolation.
pub(crate) fn opens(kind: TokenKind) -> bool
    ensures { result ≡ opens kind }
{
    matches!(
        kind,
        TokenKind::BraceL
            | TokenKind::BracketL
            | TokenKind::FormatStringStart
            | TokenKind::InterpolationStart
            | TokenKind::ParenL
    )
}

/// Whether it closes a bracket or an interpolation.
pub(crate) fn closes(kind: TokenKind) -> bool
    ensures { result ≡ closes kind }
{
    matches!(
        kind,
        TokenKind::BraceR
            | TokenKind::BracketR
            | TokenKind::FormatStringEnd
            | TokenKind::InterpolationEnd
            | TokenKind::ParenR
    )
}

/// Whether it ends a line.
pub(crate) fn ends_line(kind: TokenKind) -> bool
    ensures { result ≡ ends_line kind }
{
    matches!(kind, TokenKind::Eol)
}

/// Whether a line may begin after it.
pub(crate) fn begins_line(kind: TokenKind) -> bool
    ensures { result ≡ begins_line kind }
{
    matches!(kind, TokenKind::ByteOrderMark | TokenKind::Eol)
}

/// Whether it is neither blanks nor the beginning or the end of a body.
pub(crate) fn is_word(kind: TokenKind) -> bool
    ensures { result ≡ is_word kind }
{
    !matches!(
        kind,
        TokenKind::ByteOrderMark | TokenKind::Dedent | TokenKind::Indent | TokenKind::Whitespace
    )
}

/// Whether it begins a body.
pub(crate) fn is_indent(kind: TokenKind) -> bool
    ensures { result ≡ is_indent kind }
{
    matches!(kind, TokenKind::Indent)
}

/// Whether it may stand between the header of a recipe and the text of its body.
pub(crate) fn is_between(kind: TokenKind) -> bool
    ensures { result ≡ is_between kind }
{
    matches!(
        kind,
        TokenKind::Comment | TokenKind::Eol | TokenKind::Indent | TokenKind::Whitespace
    )
}

/// Whether it is `:=`.
pub(crate) fn is_assign(kind: TokenKind) -> bool
    ensures { result ≡ is_assign kind }
{
    matches!(kind, TokenKind::ColonEquals)
}

/// Whether it is `:`.
pub(crate) fn is_colon(kind: TokenKind) -> bool
    ensures { result ≡ is_colon kind }
{
    matches!(kind, TokenKind::Colon)
}

/// Whether it is a comma.
pub(crate) fn is_comma(kind: TokenKind) -> bool
    ensures { result ≡ is_comma kind }
{
    matches!(kind, TokenKind::Comma)
}

/// Whether it is `=`.
pub(crate) fn is_equals(kind: TokenKind) -> bool
    ensures { result ≡ is_equals kind }
{
    matches!(kind, TokenKind::Equals)
}

/// Whether it is a name or a keyword.
pub(crate) fn is_identifier(kind: TokenKind) -> bool
    ensures { result ≡ is_identifier kind }
{
    matches!(kind, TokenKind::Identifier)
}

/// Whether it is `[`.
pub(crate) fn is_bracket(kind: TokenKind) -> bool
    ensures { result ≡ is_bracket kind }
{
    matches!(kind, TokenKind::BracketL)
}

/// Whether it is `(`.
pub(crate) fn is_parenthesis(kind: TokenKind) -> bool
    ensures { result ≡ is_parenthesis kind }
{
    matches!(kind, TokenKind::ParenL)
}

/// Whether nothing of the file's own names can follow it.
pub(crate) fn is_blocking(kind: TokenKind) -> bool
    ensures { result ≡ is_blocking kind }
{
    matches!(kind, TokenKind::ColonColon | TokenKind::Comment)
}
