//! Where a text is cut into chunks.
ghost use Rattle.std.specs.Prelude.{◌≡◌, ◌<◌, map};
ghost use Rattle.justfile_model.specs.Lexing.SignificantTokens.{is_whitespace};
ghost use Rattle.justfile_model.specs.Lexing.Tok.{tok_of};
ghost use Rattle.justfile_chunks.specs.Chunks.{ends_line, is_ignored, next_kind};
ghost use Rattle.justfile_chunks.specs.Cuts.{begins_no_item, depth_after, goes_on, is_cut, joins, line_after};

use justfile_token::Token;
use justfile_vocabulary::TokenKind;

/// Whether a text is cut after a token of this kind. Past the token this many levels are open, and
/// the line that it ends begins with the kind `line`.
///
/// Only a token that ends a line looks at the later ones, and then past whitespace. So no token is
/// looked at twice.
pub fn is_cut(kind: TokenKind, depth: usize, line: Option<TokenKind>, later: &[Token<'_>]) -> bool
    ensures { result ≡ is_cut kind depth line (next_kind (map tok_of later.now)) }
{
    if !ends_line(kind) || depth > 0 {
        return false;
    }
    is_cut_before(kind, depth, line, next_kind(later))
}

/// Whether a text is cut after a token of this kind, as for `is_cut`, where the next one other than
/// whitespace is of the kind `next`.
pub fn is_cut_before(
    kind: TokenKind,
    depth: usize,
    line: Option<TokenKind>,
    next: Option<TokenKind>,
) -> bool
    ensures { result ≡ is_cut kind depth line next }
{
    ends_line(kind) && depth == 0 && !goes_on(next) && !joins(line, next)
}

/// Returns the number of levels that are open after a token of this kind.
pub fn depth_after(kind: TokenKind, depth: usize) -> usize
    requires { depth < usize.MAX }
    ensures { result ≡ depth_after kind depth }
{
    match kind {
        TokenKind::Indent => depth + 1,
        TokenKind::Dedent => depth.saturating_sub(1),
        _ => depth,
    }
}

/// Returns the kind of the first token on the line of a token of this kind, if that line isn't ended.
pub fn line_after(kind: TokenKind, line: Option<TokenKind>) -> Option<TokenKind>
    ensures { result ≡ line_after kind line }
{
    if is_ignored(kind) {
        return line;
    }
    if ends_line(kind) {
        return None;
    }
    line.or(Some(kind))
}

/// Returns the kind of the first token other than whitespace.
fn next_kind(tokens: &[Token<'_>]) -> Option<TokenKind>
    ensures { result ≡ next_kind (map tok_of tokens.now) }
{
    for token in tokens {
        if !is_whitespace(token.kind) {
            return Some(token.kind);
        }
    }
    None
}

/// Whether what begins with this kind belongs to the line before: it is a body, or the end of the text.
fn goes_on(next: Option<TokenKind>) -> bool
    ensures { result ≡ goes_on next }
{
    matches!(next, Some(TokenKind::Indent | TokenKind::Eof))
}

/// Whether a line that begins with one kind belongs to the next one, which begins with the other.
fn joins(line: Option<TokenKind>, next: Option<TokenKind>) -> bool
    ensures { result ≡ joins line next }
{
    match line {
        Some(TokenKind::BracketL) => true,
        Some(TokenKind::Comment) => !begins_no_item(next),
        _ => false,
    }
}

/// Whether a line that begins with this kind is a comment, or blank.
fn begins_no_item(next: Option<TokenKind>) -> bool
    ensures { result ≡ begins_no_item next }
{
    matches!(next, Some(TokenKind::Comment | TokenKind::Eol))
}

fn ends_line(kind: TokenKind) -> bool
    ensures { result ≡ ends_line kind }
{
    matches!(kind, TokenKind::Dedent | TokenKind::Eol)
}

fn is_ignored(kind: TokenKind) -> bool
    ensures { result ≡ is_ignored kind }
{
    matches!(kind, TokenKind::ByteOrderMark | TokenKind::Whitespace)
}

fn is_whitespace(kind: TokenKind) -> bool
    ensures { result ≡ is_whitespace kind }
{
    matches!(kind, TokenKind::Whitespace)
}
