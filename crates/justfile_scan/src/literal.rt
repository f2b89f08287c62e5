//! Literals and parts of format strings, and the delimiters that end them.
ghost use Rattle.std.specs.Prelude.{◌≡◌, ◌≤◌, ◌<◌, ◌&&◌, length, true};
ghost use Rattle.std.specs.Result.{result_ok};
ghost use Rattle.justfile_token.specs.StringKind.{delimiter_len, kind_of};
ghost use Rattle.justfile_model.specs.Lexing.Next.{unterminated, is_backtick, literal_part, literal_token, is_same, closing_delimiter, format_string_kind, format_kind, brace_by, closing};
ghost use Rattle.justfile_scan.specs.Modes.{mode_of};
ghost use Rattle.justfile_scan.specs.Scanned.{found_of, names_token, scan_fault};

use crate::bytes::{is_interpolation_end, is_interpolation_start, skip};
use crate::lexical_fault::LexicalFault;
use crate::mode::Mode;
use crate::raw_text::raw_len;
use crate::scan_error::Scanned;
use justfile_model::{OpenDelimiter, RawText};
use justfile_token::{Delimiter, StringDelimiter, StringKind};
use justfile_vocabulary::TokenKind;
use justfile_vocabulary::interpolation::{INTERPOLATION_END, INTERPOLATION_START};

/// Scans a string, a backtick, or the start of a format string.
pub fn scan_literal(mode: &Mode, rest: &[u8]) -> Scanned
    requires { delimiter_len (kind_of rest.now) ≤ length rest.now }
    ensures { found_of result ≡ result_ok (literal_token (mode_of mode.now) rest.now) }
{
    let kind = StringKind::of_opening(rest);
    let format = mode.after_f && !is_backtick(kind.delimiter);
    scan_literal_part(
        kind,
        format,
        kind.delimiter_len(),
        TokenKind::FormatStringStart,
        kind.token_kind(),
        rest,
    )
}

/// Whether the delimiter consists of backticks.
fn is_backtick(delimiter: StringDelimiter) -> bool
    ensures { result ≡ is_backtick delimiter }
{
    matches!(delimiter, StringDelimiter::Backtick)
}

/// Scans the token that begins with a closing delimiter, by the innermost open one.
#[inline(always)]
pub fn scan_closer(last: Option<OpenDelimiter>, byte: u8, rest: &[u8]) -> Scanned
    requires { 0 < length rest.now }
    ensures { found_of result ≡ result_ok (closing last byte rest.now) }
{
    match byte {
        b')' => close_delimiter(last, Delimiter::Paren, TokenKind::ParenR),
        b']' => close_delimiter(last, Delimiter::Bracket, TokenKind::BracketR),
        b'}' => scan_closing_brace(last, rest),
        _ => Scanned::nothing(),
    }
}

/// Scans a closing brace, or the next part of a format string, which begins with two of them.
fn scan_closing_brace(last: Option<OpenDelimiter>, rest: &[u8]) -> Scanned
    requires { 0 < length rest.now }
    ensures { found_of result ≡ result_ok (brace_by (format_kind last) last rest.now) }
{
    match format_kind(last) {
        Some(kind) if is_interpolation_end(rest) => scan_literal_part(
            kind,
            true,
            INTERPOLATION_END.len(),
            TokenKind::FormatStringContinue,
            TokenKind::FormatStringEnd,
            rest,
        ),
        _ => close_delimiter(last, Delimiter::Brace, TokenKind::BraceR),
    }
}

/// Returns the kind of the innermost open delimiter's literal, if that is a format string.
pub fn format_kind(last: Option<OpenDelimiter>) -> Option<StringKind>
    ensures { result ≡ format_kind last }
{
    match last {
        None => None,
        Some(opener) => format_of(opener.delimiter),
    }
}

/// Returns the kind of a format string's literal, or `None` for another delimiter.
fn format_of(delimiter: Delimiter) -> Option<StringKind>
    ensures { result ≡ format_string_kind delimiter }
{
    match delimiter {
        Delimiter::FormatString(kind) => Some(kind),
        _ => None,
    }
}

/// Scans a literal or a part of a format string with an opener of `opener_len` bytes. Its kind is
/// `continued` if an interpolation follows, and otherwise `ended`.
#[tactic(auto, unfolding(justfile_model::specs::Lexing::Next::literal_part))]
fn scan_literal_part(
    kind: StringKind,
    format: bool,
    opener_len: usize,
    continued: TokenKind,
    ended: TokenKind,
    rest: &[u8],
) -> Scanned
    requires fits { opener_len ≤ length rest.now }
    requires named { (names_token continued && names_token ended) ≡ true }
    ensures { found_of result
        ≡ result_ok (literal_part kind format opener_len continued ended rest.now) }
{
    let body = skip(rest, opener_len);
    let inside_len = raw_len(
        RawText::Literal {
            kind,
            is_format_string: format,
        },
        body,
    );
    if inside_len == body.len() {
        Scanned::nothing()
    } else if format && is_interpolation_start(skip(body, inside_len)) {
        Scanned::token(
            continued,
            opener_len + inside_len + INTERPOLATION_START.len(),
        )
    } else {
        Scanned::token(ended, opener_len + inside_len + kind.delimiter_len())
    }
}

/// Returns the fault of a literal without an end.
pub fn unterminated_fault<'src>(delimiter: StringDelimiter) -> LexicalFault<'src>
    ensures { scan_fault result ≡ unterminated delimiter }
{
    match delimiter {
        StringDelimiter::Backtick => LexicalFault::UnterminatedBacktick,
        _ => LexicalFault::UnterminatedString,
    }
}

/// Scans a closing delimiter, which has to match the innermost open one.
#[inline(always)]
fn close_delimiter(last: Option<OpenDelimiter>, delimiter: Delimiter, kind: TokenKind) -> Scanned
    requires { names_token kind ≡ true }
    ensures { found_of result ≡ result_ok (closing_delimiter last delimiter kind) }
{
    match last {
        None => Scanned::nothing(),
        Some(opener) => {
            if is_same(opener.delimiter, delimiter) {
                Scanned::token(kind, 1)
            } else {
                Scanned::nothing()
            }
        }
    }
}

/// Whether the two delimiters match. A format string has no closing delimiter.
fn is_same(opener: Delimiter, close: Delimiter) -> bool
    ensures { result ≡ is_same opener close }
{
    matches!(
        (opener, close),
        (Delimiter::Brace, Delimiter::Brace)
            | (Delimiter::Bracket, Delimiter::Bracket)
            | (Delimiter::Paren, Delimiter::Paren)
    )
}
