//! The next token within a line, by the class of its first byte.
ghost use Rattle.std.specs.Prelude.{◌≡◌, ◌+◌, ◌<◌, ◌≤◌, length, slice_index, true};
ghost use Rattle.std.specs.Result.{result_ok};
ghost use Rattle.justfile_vocabulary.specs.ByteClass.{class_of};
ghost use Rattle.justfile_model.specs.Lexing.Next.{doubled_token, fixed_token, opening, line_end_token, escaped_line_end, multibyte_token, other_token, token_by_class, token_outside_text, body_token, interpolated, token_within_line};
ghost use Rattle.justfile_scan.specs.Modes.{mode_of};
ghost use Rattle.justfile_scan.specs.Scanned.{found_of, names_token};

use crate::bytes::{blank_len, first_char, is_interpolation_end, skip, word_len};
use crate::literal::{scan_closer, scan_literal};
use crate::mode::Mode;
use crate::raw_text::raw_len;
use crate::scan_error::Scanned;
use justfile_model::RawText;
use justfile_vocabulary::byte_class::byte_class;
use justfile_vocabulary::bytes::byte_at;
use justfile_vocabulary::interpolation::{INTERPOLATION_END, INTERPOLATION_START};
use justfile_vocabulary::{ByteClass, TokenKind};

/// The byte order mark, a token of its own that can begin a file.
const BYTE_ORDER_MARK: char = '\u{feff}';

/// Scans the next token, other than a dedent, an indent, or the blanks at the start of a line.
#[inline(always)]
#[tactic(auto, unfolding(justfile_model::specs::Lexing::Next::token_within_line))]
pub fn scan_within_line(mode: &Mode, rest: &str) -> Scanned
    requires { 0 < length rest.now }
    ensures { found_of result ≡ result_ok (token_within_line (mode_of mode.now) rest.now) }
{
    match mode.interpolation {
        Some(_) => scan_interpolation(mode, rest),
        None => {
            if mode.in_body {
                scan_body(rest.as_bytes())
            } else {
                scan_outside_text(mode, rest)
            }
        }
    }
}

/// Scans the next token of an interpolation.
#[inline(always)]
fn scan_interpolation(mode: &Mode, rest: &str) -> Scanned
    requires { 0 < length rest.now }
    ensures { found_of result ≡ result_ok (interpolated (mode_of mode.now) rest.now) }
{
    if mode.no_delimiter_open() && is_interpolation_end(rest.as_bytes()) {
        Scanned::token(TokenKind::InterpolationEnd, INTERPOLATION_END.len())
    } else {
        scan_outside_text(mode, rest)
    }
}

/// Scans the next token outside of body text.
#[inline(always)]
fn scan_outside_text(mode: &Mode, rest: &str) -> Scanned
    requires { 0 < length rest.now }
    ensures { found_of result ≡ result_ok (token_outside_text (mode_of mode.now) rest.now) }
{
    scan_by_class(mode, byte_class(byte_at(rest.as_bytes(), 0)), rest)
}

/// Scans the next token outside of body text, by the class of its first byte.
#[inline(always)]
#[tactic(auto, unfolding(justfile_model::specs::Lexing::Next::token_by_class))]
fn scan_by_class(mode: &Mode, class: ByteClass, rest: &str) -> Scanned
    requires some { 0 < length rest.now }
    requires class { class ≡ class_of (slice_index rest.now 0) }
    ensures { found_of result ≡ result_ok (token_by_class (mode_of mode.now) class rest.now) }
{
    let bytes = rest.as_bytes();
    let first = byte_at(bytes, 0);
    match class {
        ByteClass::Blank => Scanned::token(TokenKind::Whitespace, blank_len(bytes)),
        ByteClass::LineFeed => scan_line_end(mode, 1),
        ByteClass::CarriageReturn => {
            if byte_at(bytes, 1) == b'\n' {
                scan_line_end(mode, 2)
            } else {
                Scanned::nothing()
            }
        }
        ByteClass::IdentifierStart => Scanned::token(TokenKind::Identifier, word_len(bytes)),
        ByteClass::IdentifierContinue => Scanned::nothing(),
        ByteClass::Quote => scan_literal(mode, bytes),
        ByteClass::Opener => scan_opener(bytes),
        ByteClass::Closer => scan_closer(mode.opener(), first, bytes),
        ByteClass::Fixed => scan_fixed(first, bytes),
        ByteClass::Lead => scan_multibyte(rest),
        ByteClass::Other => scan_other(bytes),
    }
}

/// Scans a line end of this length, which is whitespace while a delimiter or an interpolation is
/// open.
fn scan_line_end(mode: &Mode, length: usize) -> Scanned
    ensures { found_of result ≡ result_ok (line_end_token (mode_of mode.now) length) }
{
    if mode.is_nested() {
        Scanned::token(TokenKind::Whitespace, length)
    } else {
        Scanned::token(TokenKind::Eol, length)
    }
}

/// Scans an opening delimiter.
fn scan_opener(rest: &[u8]) -> Scanned
    ensures { found_of result ≡ result_ok (opening (slice_index rest.now 0) rest.now) }
{
    match byte_at(rest, 0) {
        b'(' => Scanned::token(TokenKind::ParenL, 1),
        b'[' => Scanned::token(TokenKind::BracketL, 1),
        b'{' => Scanned::token(TokenKind::BraceL, 1),
        _ => Scanned::nothing(),
    }
}

/// Scans a token of fixed text other than a delimiter.
#[inline(always)]
#[tactic(auto, unfolding(justfile_model::specs::Lexing::Next::fixed_token))]
fn scan_fixed(byte: u8, rest: &[u8]) -> Scanned
    ensures { found_of result ≡ result_ok (fixed_token byte rest.now) }
{
    let second = byte_at(rest, 1);
    match byte {
        b'!' => match second {
            b'=' => Scanned::token(TokenKind::BangEquals, 2),
            b'~' => Scanned::token(TokenKind::BangTilde, 2),
            _ => Scanned::token(TokenKind::Bang, 1),
        },
        b'&' => scan_doubled(b'&', TokenKind::AmpersandAmpersand, rest),
        b'|' => scan_doubled(b'|', TokenKind::BarBar, rest),
        b'+' => match second {
            b'+' => Scanned::token(TokenKind::PlusPlus, 2),
            _ => Scanned::token(TokenKind::Plus, 1),
        },
        b'=' => match second {
            b'=' => Scanned::token(TokenKind::EqualsEquals, 2),
            b'~' => Scanned::token(TokenKind::EqualsTilde, 2),
            _ => Scanned::token(TokenKind::Equals, 1),
        },
        b':' => match second {
            b'=' => Scanned::token(TokenKind::ColonEquals, 2),
            b':' => Scanned::token(TokenKind::ColonColon, 2),
            _ => Scanned::token(TokenKind::Colon, 1),
        },
        b'$' => Scanned::token(TokenKind::Dollar, 1),
        b'*' => Scanned::token(TokenKind::Asterisk, 1),
        b',' => Scanned::token(TokenKind::Comma, 1),
        b'/' => Scanned::token(TokenKind::Slash, 1),
        b'?' => Scanned::token(TokenKind::QuestionMark, 1),
        b'@' => Scanned::token(TokenKind::At, 1),
        _ => Scanned::nothing(),
    }
}

/// Scans a token of two equal bytes, of which the first is known.
#[inline(always)]
fn scan_doubled(byte: u8, kind: TokenKind, rest: &[u8]) -> Scanned
    requires { names_token kind ≡ true }
    ensures { found_of result ≡ result_ok (doubled_token byte kind rest.now) }
{
    if byte_at(rest, 1) == byte {
        Scanned::token(kind, 2)
    } else {
        Scanned::nothing()
    }
}

/// Scans a byte order mark. No other character beyond ASCII begins a token.
fn scan_multibyte(rest: &str) -> Scanned
    requires { 0 < length rest.now }
    ensures { found_of result ≡ result_ok (multibyte_token rest.now) }
{
    match first_char(rest) {
        Some(BYTE_ORDER_MARK) => Scanned::token(
            TokenKind::ByteOrderMark,
            BYTE_ORDER_MARK.len_utf8(),
        ),
        _ => Scanned::nothing(),
    }
}

/// Scans a comment or an escaped line end.
fn scan_other(rest: &[u8]) -> Scanned
    ensures { found_of result ≡ result_ok (other_token rest.now) }
{
    match byte_at(rest, 0) {
        b'#' => Scanned::token(TokenKind::Comment, raw_len(RawText::Comment, rest)),
        b'\\' => scan_escaped_line_end(rest),
        _ => Scanned::nothing(),
    }
}

/// Scans an escaped line end: a backslash, a line end, and the blanks after it. Without a line end
/// there is no token.
fn scan_escaped_line_end(rest: &[u8]) -> Scanned
    ensures { found_of result ≡ result_ok (escaped_line_end rest.now) }
{
    match byte_at(rest, 1) {
        b'\n' => Scanned::token(TokenKind::Whitespace, 2 + blank_len(skip(rest, 2))),
        b'\r' => {
            if byte_at(rest, 2) == b'\n' {
                Scanned::token(TokenKind::Whitespace, 3 + blank_len(skip(rest, 3)))
            } else {
                Scanned::nothing()
            }
        }
        _ => Scanned::nothing(),
    }
}

/// Scans the next token of a body, outside of interpolations.
#[tactic(auto, unfolding(justfile_model::specs::Lexing::Next::body_token))]
fn scan_body(bytes: &[u8]) -> Scanned
    ensures { found_of result ≡ result_ok (body_token bytes.now) }
{
    let length = raw_len(RawText::Body, bytes);
    if length > 0 {
        Scanned::token(TokenKind::Text, length)
    } else if byte_at(bytes, 0) == b'\n' {
        Scanned::token(TokenKind::Eol, 1)
    } else if byte_at(bytes, 0) == b'\r' {
        Scanned::token(TokenKind::Eol, 2)
    } else {
        Scanned::token(TokenKind::InterpolationStart, INTERPOLATION_START.len())
    }
}
