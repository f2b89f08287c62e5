//! The lengths of comments, texts of bodies and insides of literals, up to their first end.
ghost use Rattle.std.specs.Prelude.{◌≡◌, ◌+◌, ◌≤◌, length, take, drop};
ghost use Rattle.std.specs.List.{prefix_len};
ghost use Rattle.justfile_model.specs.declared.raw_text.RawText.TheVariants.{Literal};
ghost use Rattle.justfile_token.specs.StringKind.{quote_of};
ghost use Rattle.justfile_model.specs.Lexing.LiteralText.{is_delimiter, hides, ends, raw_len};
ghost use Rattle.justfile_scan.specs.RawTexts.{is_plain, is_plain_end, IsScanStep};

use crate::bytes::{is_interpolation_escape, is_interpolation_start, is_line_end, skip};
use crate::lanes::{LANES, body_run, comment_run, literal_run};
use justfile_model::RawText;
use justfile_token::{StringDelimiter, StringKind};
use justfile_vocabulary::bytes::byte_at;

/// Returns the number of bytes before the first end that isn't hidden. It is inlined for each kind
/// of text, so it doesn't test the kind at each piece.
#[inline(always)]
pub fn raw_len(text: RawText, bytes: &[u8]) -> usize
    ensures { result ≡ raw_len text bytes.now }
{
    let mut at: usize = 0;
    'pieces: loop {
        at += plain_len(text, skip(bytes, at));
        if is_plain_end(text, byte_at(bytes, at)) {
            return at;
        }
        let more = piece_len(text, skip(bytes, at));
        if more == 0 {
            return at;
        }
        at += more;
    }
}

/// Returns the number of plain bytes at the start. Each kind of text has a loop of its own, which
/// doesn't test the kind at each byte.
fn plain_len(text: RawText, bytes: &[u8]) -> usize
    ensures { result ≡ prefix_len (is_plain text) bytes.now }
{
    match text {
        RawText::Comment => plain_len_of(RawText::Comment, bytes),
        RawText::Body => plain_len_of(RawText::Body, bytes),
        RawText::Literal { .. } => plain_len_of(text, bytes),
    }
}

/// Returns the number of plain bytes at the start, by a loop that is inlined for each kind of text.
#[inline(always)]
fn plain_len_of(text: RawText, bytes: &[u8]) -> usize
    ensures { result ≡ prefix_len (is_plain text) bytes.now }
{
    let mut at = 0;
    'loads: while bytes.len() - at >= LANES {
        let run = plain_run(text, bytes, at);
        if run < LANES {
            return at + run;
        }
        at += LANES;
    }
    while at < bytes.len() && is_plain(text, bytes[at]) {
        at += 1;
    }
    at
}

/// Returns how many bytes from `at` on, at most `LANES`, come before the first that isn't plain.
#[inline(always)]
fn plain_run(text: RawText, bytes: &[u8], at: usize) -> usize
    requires { at + LANES ≤ length bytes.now }
    ensures { result ≡ prefix_len (is_plain text) (take LANES (drop at bytes.now)) }
{
    match text {
        RawText::Comment => comment_run(bytes, at),
        RawText::Body => body_run(bytes, at),
        RawText::Literal { kind, .. } => literal_run(quote_of(kind.delimiter), bytes, at),
    }
}

/// Whether this byte surely hides nothing and begins no end of the text, whatever follows it.
/// Others that do neither count as not plain, so that few comparisons are needed: in comments and
/// bodies the control characters up to the carriage return, and in all literals `\` and `{`.
fn is_plain(text: RawText, byte: u8) -> bool
    ensures { result ≡ is_plain text byte }
{
    match text {
        RawText::Comment => byte > b'\r',
        RawText::Body => byte > b'\r' && byte != b'{',
        RawText::Literal { kind, .. } => {
            byte != quote_of(kind.delimiter) && byte != b'\\' && byte != b'{'
        }
    }
}

/// Whether the text ends before this byte, whatever follows it. Most texts end so.
#[inline(always)]
fn is_plain_end(text: RawText, byte: u8) -> bool
    ensures { result ≡ is_plain_end text byte }
{
    match text {
        RawText::Comment | RawText::Body => byte == b'\n',
        RawText::Literal { kind, .. } => byte == quote_of(kind.delimiter) && !kind.indented,
    }
}

/// Returns the length of the piece at the start, or 0 if the text ends there.
#[tactic(auto, using(crate::proofs::Pieces::piece_cases))]
fn piece_len(text: RawText, rest: &[u8]) -> usize
    ensures { IsScanStep text rest.now result }
{
    if rest.is_empty() {
        return 0;
    }
    let hidden = hidden_len(text, rest);
    if hidden > 0 {
        return rest.len().min(hidden + 1);
    }
    if is_at_end(text, rest) { 0 } else { 1 }
}

/// Returns the number of bytes that the first one hides, so that no end is found at them.
fn hidden_len(text: RawText, rest: &[u8]) -> usize
    ensures { result ≡ hides text rest.now }
{
    match text {
        RawText::Comment => 0,
        RawText::Body => { if is_interpolation_escape(rest) { 3 } else { 0 } }
        RawText::Literal {
            kind,
            is_format_string,
        } => hidden_in_literal(kind, is_format_string, rest),
    }
}

/// Returns the number of bytes that the first one hides in a literal.
fn hidden_in_literal(kind: StringKind, format: bool, rest: &[u8]) -> usize
    ensures { result ≡ hides (Literal kind format) rest.now }
{
    if kind.processes_escape_sequences() && byte_at(rest, 0) == b'\\' {
        if format && is_interpolation_escape(skip(rest, 1)) {
            4
        } else {
            1
        }
    } else if format && is_interpolation_escape(rest) {
        3
    } else {
        0
    }
}

/// Whether the end of the text is at the start.
fn is_at_end(text: RawText, rest: &[u8]) -> bool
    ensures { result ≡ ends text rest.now }
{
    match text {
        RawText::Comment => is_line_end(rest),
        RawText::Body => is_line_end(rest) || is_interpolation_start(rest),
        RawText::Literal {
            kind,
            is_format_string,
        } => is_delimiter(kind, rest) || is_format_string && is_interpolation_start(rest),
    }
}

/// Whether the closing delimiter is at the start.
fn is_delimiter(kind: StringKind, rest: &[u8]) -> bool
    ensures { result ≡ is_delimiter kind rest.now }
{
    let quote = quote_of(kind.delimiter);
    if kind.indented {
        byte_at(rest, 0) == quote && byte_at(rest, 1) == quote && byte_at(rest, 2) == quote
    } else {
        byte_at(rest, 0) == quote
    }
}

/// Returns the byte that the delimiter consists of.
fn quote_of(delimiter: StringDelimiter) -> u8
    ensures { result ≡ quote_of delimiter }
{
    match delimiter {
        StringDelimiter::Backtick => b'`',
        StringDelimiter::QuoteDouble => b'"',
        StringDelimiter::QuoteSingle => b'\'',
    }
}
