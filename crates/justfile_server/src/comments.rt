//! The comments above items.
ghost use Rattle.std.specs.Prelude.{◌≡◌, ◌<◌, ◌≤◌, length};
ghost use Rattle.std.specs.List.{prefix_len, suffix_len};
ghost use Rattle.justfile_server.specs.Signs.{is_blank};
ghost use Rattle.justfile_server.specs.Comments.{comment_above, comment_in, comment_len, is_of_end, line_start};

use crate::signs::{is_blank, len_in_line};
use editor_language::Span;

/// Returns what the comment in the line above the one of an offset says; it is empty if there is none.
pub(crate) fn comment_above(text: &[u8], offset: usize) -> Span
    ensures { result ≡ comment_above text.now offset }
{
    let end = line_start(text, offset.min(text.len())).saturating_sub(1);
    comment_in(text, line_start(text, end), end)
}

/// Returns where the line of an offset begins.
fn line_start(text: &[u8], offset: usize) -> usize
    requires { offset ≤ length text.now }
    ensures is { result ≡ line_start text.now offset }
    ensures within { result ≤ offset }
{
    offset.saturating_sub(len_in_line(&text[..offset]))
}

/// Returns what the comment says that a line is; it is empty if the line is none.
fn comment_in(text: &[u8], start: usize, end: usize) -> Span
    requires order { start ≤ end }
    requires within { end ≤ length text.now }
    ensures { result ≡ comment_in text.now start end }
{
    if start < end && text[start] == b'#' {
        Span {
            start: start + 1 + blanks_after(&text[start + 1..]),
            end: start + comment_len(&text[start..end]),
        }
    } else {
        Span { start: end, end }
    }
}

/// Returns how many blanks a text begins with.
fn blanks_after(text: &[u8]) -> usize
    ensures is { result ≡ prefix_len is_blank text.now }
    ensures within { result ≤ length text.now }
{
    text.iter().take_while(|byte| is_blank(**byte)).count()
}

/// Returns how many bytes a line has without the blanks at its end.
fn comment_len(line: &[u8]) -> usize
    ensures is { result ≡ comment_len line.now }
    ensures within { result ≤ length line.now }
{
    line.len().saturating_sub(len_of_end(line))
}

/// Returns how many blanks and carriage returns a line ends with.
fn len_of_end(line: &[u8]) -> usize
    ensures { result ≡ suffix_len is_of_end line.now }
{
    line.iter()
        .rev()
        .take_while(|byte| is_of_end(**byte))
        .count()
}

/// Whether a byte is a blank or a carriage return.
fn is_of_end(byte: u8) -> bool
    ensures { result ≡ is_of_end byte }
{
    matches!(byte, b' ' | b'\t' | b'\r')
}
