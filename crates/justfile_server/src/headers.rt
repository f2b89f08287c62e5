//! The headers of items: what is written before their first colon, and what an alias has after it.
ghost use Rattle.std.specs.Prelude.{◌≡◌, ◌≤◌, None, length};
ghost use Rattle.std.specs.List.{prefix_len, suffix_len};
ghost use Rattle.justfile_server.specs.Signs.{is_blank};
ghost use Rattle.justfile_server.specs.Headers.{before_blanks, ends_header, function_end, header_end, header_len, is_alias, is_of_target, is_quote, quote_after, recipe_span, target_end};

use crate::signs::is_blank;
use editor_language::Span;

/// Returns what is shown beside the name of a recipe or an alias that is defined at an offset: its header,
/// or its target.
pub(crate) fn recipe_span(text: &[u8], start: usize) -> Span
    ensures { result ≡ recipe_span text.now start }
{
    let end = header_end(text, start);
    if is_alias(text, end) {
        Span {
            start: end,
            end: before_blanks(text, target_end(text, end)),
        }
    } else {
        Span {
            start,
            end: before_blanks(text, end),
        }
    }
}

/// Returns where the header of a function ends that is defined at an offset, without blanks.
pub(crate) fn function_end(text: &[u8], start: usize) -> usize
    ensures { result ≡ function_end text.now start }
{
    before_blanks(text, header_end(text, start))
}

/// Returns where the blanks begin that a text has before an offset.
fn before_blanks(text: &[u8], end: usize) -> usize
    requires { end ≤ length text.now }
    ensures { result ≡ before_blanks text.now end }
{
    end.saturating_sub(blanks_before(&text[..end]))
}

/// Returns how many blanks a text ends with.
fn blanks_before(text: &[u8]) -> usize
    ensures { result ≡ suffix_len is_blank text.now }
{
    text.iter()
        .rev()
        .take_while(|byte| is_blank(**byte))
        .count()
}

/// Returns where the header ends of what is defined at an offset.
fn header_end(text: &[u8], start: usize) -> usize
    ensures is { result ≡ header_end text.now start }
    ensures within { result ≤ length text.now }
{
    let at = start.min(text.len());
    at + header_len(&text[at..])
}

/// Returns how many bytes a header has that begins with a text.
#[tactic(auto, using(crate::proofs::Header::header_more, crate::proofs::Header::header_ends, crate::proofs::Header::header_whole))]
fn header_len(text: &[u8]) -> usize
    ensures is { result ≡ header_len None text.now }
    ensures within { result ≤ length text.now }
{
    let mut quote = None;
    let mut length = 0;
    for byte in text {
        if ends_header(quote, *byte) {
            return length;
        }
        quote = quote_after(quote, *byte);
        length += 1;
    }
    length
}

/// Whether a header ends before a byte, where this quote is open, if one is.
fn ends_header(quote: Option<u8>, byte: u8) -> bool
    ensures { result ≡ ends_header quote byte }
{
    match quote {
        None => matches!(byte, b'\n' | b':'),
        Some(_) => byte == b'\n',
    }
}

/// Returns the quote that is open after a byte, if one is, where this one was before it.
fn quote_after(quote: Option<u8>, byte: u8) -> Option<u8>
    ensures { result ≡ quote_after quote byte }
{
    match quote {
        None => { if is_quote(byte) { Some(byte) } else { None } }
        Some(open) => { if open == byte { None } else { Some(open) } }
    }
}

/// Whether a byte is a quote or a backtick.
fn is_quote(byte: u8) -> bool
    ensures { result ≡ is_quote byte }
{
    matches!(byte, b'"' | b'\'' | b'`')
}

/// Whether a header that ends at an offset is that of an alias.
fn is_alias(text: &[u8], end: usize) -> bool
    requires { end ≤ length text.now }
    ensures { result ≡ is_alias text.now end }
{
    text[end..].starts_with(b":=")
}

/// Returns where the target of an alias ends, whose header ends at an offset.
fn target_end(text: &[u8], end: usize) -> usize
    requires { end ≤ length text.now }
    ensures is { result ≡ target_end text.now end }
    ensures within { result ≤ length text.now }
{
    end + target_len(&text[end..])
}

/// Returns how many bytes a text has in its line before a comment.
fn target_len(text: &[u8]) -> usize
    ensures is { result ≡ prefix_len is_of_target text.now }
    ensures within { result ≤ length text.now }
{
    text.iter().take_while(|byte| is_of_target(**byte)).count()
}

/// Whether a byte neither ends a line nor begins a comment.
fn is_of_target(byte: u8) -> bool
    ensures { result ≡ is_of_target byte }
{
    !matches!(byte, b'\n' | b'\r' | b'#')
}
