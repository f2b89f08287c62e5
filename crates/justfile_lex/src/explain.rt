//! What the error of a scan that found no token says, read again from the text.
ghost use Rattle.std.specs.Prelude.{◌≡◌, ◌<◌, Err, None, length, slice_index};
ghost use Rattle.std.specs.Result.{result_ok};
ghost use Rattle.std.specs.Str.{IsCharBoundary};
ghost use Rattle.justfile_vocabulary.specs.ByteClass.{class_of};
ghost use Rattle.justfile_model.specs.Lexing.Bytes.{blank_len};
ghost use Rattle.justfile_model.specs.Lexing.Next.{brace_by, closing, escaped_line_end, fixed_token, format_kind, literal_token, next, other_token, token_by_class, unknown};
ghost use Rattle.justfile_lex.specs.Explained.{undoubled, unmatched};
ghost use Rattle.justfile_scan.specs.Layouts.{indent};
ghost use Rattle.justfile_scan.specs.Modes.{mode_of};
ghost use Rattle.justfile_scan.specs.Scanned.{lexical_error_of};

use justfile_model::OpenDelimiter;
use justfile_scan::bytes::{
    blank_len, first_char, is_blank, is_interpolation_end, is_mixed, skip_first, take_blanks,
};
use justfile_scan::layout::take_tested_blanks;
use justfile_scan::lexical_fault::LexicalFault;
use justfile_scan::literal::{format_kind, unterminated_fault};
use justfile_scan::mode::Mode;
use justfile_scan::scan_error::{ScanError, scan_error};
use justfile_token::{Delimiter, StringKind};
use justfile_vocabulary::ByteClass;
use justfile_vocabulary::byte_class::byte_class;
use justfile_vocabulary::bytes::byte_at;
use justfile_vocabulary::interpolation::INTERPOLATION_END;

/// Returns why there is no token at the start of the rest.
pub(crate) fn explain<'src>(mode: &Mode<'src>, rest: &'src str) -> ScanError<'src>
    requires closed { length rest.now ≡ 0 → (mode_of mode.now).interpolation ≡ None }
    requires no_token { result_ok (next (mode_of mode.now) rest.now) ≡ None }
    ensures { next (mode_of mode.now) rest.now ≡ Err (lexical_error_of result) }
{
    let bytes = rest.as_bytes();
    let class = byte_class(byte_at(bytes, 0));
    if is_blank(class) {
        explain_indent(mode, take_blanks(rest, blank_len(bytes)))
    } else {
        explain_by_class(mode, class, rest)
    }
}

/// Returns why blanks at the start of a line, which aren't a level, are no indent.
fn explain_indent<'src>(mode: &Mode<'src>, found: &'src str) -> ScanError<'src>
    requires blanks { blank_len found.now ≡ length found.now }
    requires no_token { result_ok (indent (mode_of mode.now) found.now) ≡ None }
    ensures { indent (mode_of mode.now) found.now ≡ Err (lexical_error_of result) }
{
    let whitespace = take_tested_blanks(mode, found);
    if is_mixed(whitespace.as_bytes()) {
        let length = whitespace.len();
        return scan_error(
            LexicalFault::MixedLeadingWhitespace { whitespace },
            0,
            length,
        );
    }
    let fault = LexicalFault::InconsistentLeadingWhitespace {
        expected: mode.level(),
        found,
    };
    scan_error(fault, 0, found.len())
}

/// Returns why there is no token outside of body text, by the class of the first byte.
fn explain_by_class<'src>(mode: &Mode<'src>, class: ByteClass, rest: &'src str) -> ScanError<'src>
    requires some { 0 < length rest.now }
    requires class { class ≡ class_of (slice_index rest.now 0) }
    requires no_token { result_ok (token_by_class (mode_of mode.now) class rest.now) ≡ None }
    ensures { token_by_class (mode_of mode.now) class rest.now ≡ Err (lexical_error_of result) }
{
    let bytes = rest.as_bytes();
    let first = byte_at(bytes, 0);
    match class {
        ByteClass::Blank => unreachable!(),
        ByteClass::LineFeed => unreachable!(),
        ByteClass::CarriageReturn => scan_error(LexicalFault::UnpairedCarriageReturn, 0, 1),
        ByteClass::IdentifierStart => unreachable!(),
        ByteClass::IdentifierContinue => explain_start(rest),
        ByteClass::Quote => explain_literal(mode, bytes),
        ByteClass::Opener => explain_start(rest),
        ByteClass::Closer => explain_closer(mode.opener(), first, rest),
        ByteClass::Fixed => explain_fixed(first, rest),
        ByteClass::Lead => explain_start(rest),
        ByteClass::Other => explain_other(first, rest),
    }
}

/// Returns the error of a character that begins no token.
fn explain_start<'src>(rest: &str) -> ScanError<'src>
    requires { 0 < length rest.now }
    ensures { unknown rest.now ≡ Err (lexical_error_of result) }
{
    match first_char(rest) {
        Some(start) => {
            let length = start.len_utf8();
            scan_error(LexicalFault::UnknownStartOfToken { start }, 0, length)
        }
        None => unreachable!(),
    }
}

/// Returns the error of a literal without an end.
fn explain_literal<'src>(mode: &Mode, rest: &[u8]) -> ScanError<'src>
    requires { result_ok (literal_token (mode_of mode.now) rest.now) ≡ None }
    ensures { literal_token (mode_of mode.now) rest.now ≡ Err (lexical_error_of result) }
{
    let kind = StringKind::of_opening(rest);
    scan_error(unterminated_fault(kind.delimiter), 0, kind.delimiter_len())
}

/// Returns the error of a closing delimiter that doesn't match the innermost open one, or of a part
/// of a format string without an end.
fn explain_closer<'src>(last: Option<OpenDelimiter>, byte: u8, rest: &str) -> ScanError<'src>
    requires some { 0 < length rest.now }
    requires no_token { result_ok (closing last byte rest.now) ≡ None }
    ensures { closing last byte rest.now ≡ Err (lexical_error_of result) }
{
    match byte {
        b')' => explain_closing(last, Delimiter::Paren),
        b']' => explain_closing(last, Delimiter::Bracket),
        b'}' => explain_closing_brace(last, rest.as_bytes()),
        _ => explain_start(rest),
    }
}

/// Returns the error of a closing brace, or of a part of a format string without an end.
fn explain_closing_brace<'src>(last: Option<OpenDelimiter>, rest: &[u8]) -> ScanError<'src>
    requires { result_ok (brace_by (format_kind last) last rest.now) ≡ None }
    ensures { brace_by (format_kind last) last rest.now ≡ Err (lexical_error_of result) }
{
    match format_kind(last) {
        Some(kind) if is_interpolation_end(rest) => {
            scan_error(
                unterminated_fault(kind.delimiter),
                0,
                INTERPOLATION_END.len(),
            )
        }
        _ => explain_closing(last, Delimiter::Brace),
    }
}

/// Returns the error of a closing delimiter that doesn't match the innermost open one.
fn explain_closing<'src>(last: Option<OpenDelimiter>, close: Delimiter) -> ScanError<'src>
    ensures { lexical_error_of result ≡ unmatched last close }
{
    match last {
        None => scan_error(LexicalFault::UnexpectedClosingDelimiter { close }, 0, 0),
        Some(opener) => {
            let fault = LexicalFault::MismatchedClosingDelimiter {
                close,
                open_line: opener.line,
                opener: opener.delimiter,
            };
            scan_error(fault, 0, 0)
        }
    }
}

/// Returns the error of a byte of fixed tokens that begins none.
fn explain_fixed<'src>(byte: u8, rest: &str) -> ScanError<'src>
    requires some { 0 < length rest.now }
    requires boundary { IsCharBoundary rest.now 1 }
    requires no_token { result_ok (fixed_token byte rest.now) ≡ None }
    ensures { fixed_token byte rest.now ≡ Err (lexical_error_of result) }
{
    if byte == b'&' {
        return explain_doubled(b'&', rest);
    }
    if byte == b'|' {
        return explain_doubled(b'|', rest);
    }
    explain_start(rest)
}

/// Returns the error of a byte that has to be doubled and isn't.
fn explain_doubled<'src>(byte: u8, rest: &str) -> ScanError<'src>
    requires { IsCharBoundary rest.now 1 }
    ensures { lexical_error_of result ≡ undoubled byte rest.now }
{
    let expected = char::from(byte);
    match first_char(skip_first(rest)) {
        None => scan_error(LexicalFault::UnexpectedEndOfToken { expected }, 1, 0),
        Some(second) => {
            let fault = LexicalFault::UnexpectedCharacter { expected };
            scan_error(fault, 1, second.len_utf8())
        }
    }
}

/// Returns the error of a backslash before another character than a line end, or of a character
/// that begins no token.
fn explain_other<'src>(byte: u8, rest: &str) -> ScanError<'src>
    requires some { 0 < length rest.now }
    requires byte { byte ≡ slice_index rest.now 0 }
    requires no_token { result_ok (other_token rest.now) ≡ None }
    ensures { other_token rest.now ≡ Err (lexical_error_of result) }
{
    if byte == b'\\' {
        explain_escape(rest)
    } else {
        explain_start(rest)
    }
}

/// Returns the error of a backslash before another character than a line end.
fn explain_escape<'src>(rest: &str) -> ScanError<'src>
    requires boundary { IsCharBoundary rest.now 1 }
    requires no_token { result_ok (escaped_line_end rest.now) ≡ None }
    ensures { escaped_line_end rest.now ≡ Err (lexical_error_of result) }
{
    if byte_at(rest.as_bytes(), 1) == b'\r' {
        return scan_error(LexicalFault::UnpairedCarriageReturn, 0, 2);
    }
    match first_char(skip_first(rest)) {
        None => scan_error(LexicalFault::EscapeEndOfFile, 0, 1),
        Some(character) => scan_error(LexicalFault::InvalidEscapeSequence { character }, 0, 1),
    }
}
