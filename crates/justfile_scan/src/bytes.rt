//! The classes of bytes that lexing asks for, and runs of such bytes.
ghost use Rattle.std.specs.Prelude.{◌≡◌, ◌+◌, ◌<◌, ◌≤◌, ◌||◌, ◌&&◌, ◌==◌, nat_eq, false, length, take, drop, MatchOption};
ghost use Rattle.std.specs.List.{prefix_len, list_any, starts_with};
ghost use Rattle.std.specs.Str.{IsCharBoundary};
ghost use Rattle.justfile_model.specs.Lexing.Bytes.{blank, in_word, white, line_feed, blank_len, word_len, is_line_end, is_interpolation_start, is_interpolation_end, is_interpolation_escape, is_mixed, first_char};

use crate::lanes::{LANES, word_run};
use justfile_vocabulary::ByteClass;
use justfile_vocabulary::byte_class::byte_class;
use justfile_vocabulary::bytes::byte_at;

/// Whether a byte of the class is a space, a tab, a carriage return or a line feed.
pub fn is_white(class: ByteClass) -> bool
    ensures { result ≡ white class }
{
    matches!(
        class,
        ByteClass::Blank | ByteClass::CarriageReturn | ByteClass::LineFeed
    )
}

/// Whether a byte of the class is a line feed.
pub fn is_line_feed(class: ByteClass) -> bool
    ensures { result ≡ line_feed class }
{
    matches!(class, ByteClass::LineFeed)
}

/// Returns the number of blanks at the start.
pub fn blank_len(bytes: &[u8]) -> usize
    ensures { result ≡ blank_len bytes.now }
{
    let mut at = 0;
    while at < bytes.len() && is_blank(byte_class(bytes[at])) {
        at += 1;
    }
    at
}

/// Whether a byte of the class is a space or a tab.
pub fn is_blank(class: ByteClass) -> bool
    ensures { result ≡ blank class }
{
    matches!(class, ByteClass::Blank)
}

/// Returns the number of bytes at the start that an identifier can contain after its first byte.
pub fn word_len(bytes: &[u8]) -> usize
    ensures { result ≡ word_len bytes.now }
{
    if !is_word(byte_class(byte_at(bytes, 1))) {
        return usize::from(is_word(byte_class(byte_at(bytes, 0))));
    }
    let mut at = 0;
    'loads: while bytes.len() - at >= LANES {
        let run = word_run(bytes, at);
        if run < LANES {
            return at + run;
        }
        at += LANES;
    }
    while at < bytes.len() && is_word(byte_class(bytes[at])) {
        at += 1;
    }
    at
}

/// Whether an identifier can contain a byte of the class after its first byte.
fn is_word(class: ByteClass) -> bool
    ensures { result ≡ in_word class }
{
    matches!(
        class,
        ByteClass::IdentifierStart | ByteClass::IdentifierContinue
    )
}

/// Whether a line end is at the start.
pub fn is_line_end(bytes: &[u8]) -> bool
    ensures { result ≡ is_line_end bytes.now }
{
    byte_at(bytes, 0) == b'\n' || byte_at(bytes, 0) == b'\r' && byte_at(bytes, 1) == b'\n'
}

/// Whether two closing braces are at the start.
pub fn is_interpolation_end(bytes: &[u8]) -> bool
    ensures { result ≡ is_interpolation_end bytes.now }
{
    byte_at(bytes, 0) == b'}' && byte_at(bytes, 1) == b'}'
}

/// Whether four opening braces, which are text, are at the start.
pub fn is_interpolation_escape(bytes: &[u8]) -> bool
    ensures { result ≡ is_interpolation_escape bytes.now }
{
    is_interpolation_start(bytes) && is_interpolation_start(skip(bytes, 2))
}

/// Whether two opening braces are at the start.
pub fn is_interpolation_start(bytes: &[u8]) -> bool
    ensures { result ≡ is_interpolation_start bytes.now }
{
    byte_at(bytes, 0) == b'{' && byte_at(bytes, 1) == b'{'
}

/// Returns the bytes after the first `count` ones.
pub fn skip(bytes: &[u8], count: usize) -> &[u8]
    ensures { result.now ≡ drop count bytes.now }
{
    &bytes[count.min(bytes.len())..]
}

/// Whether there are both a space and a tab among the bytes.
pub fn is_mixed(bytes: &[u8]) -> bool
    ensures { result ≡ is_mixed bytes.now }
{
    contains_byte(bytes, b' ') && contains_byte(bytes, b'\t')
}

/// Whether the byte is among the bytes.
fn contains_byte(bytes: &[u8], byte: u8) -> bool
    ensures { result ≡ list_any (λ b. b == byte) bytes.now }
{
    bytes.iter().any(|other| *other == byte)
}

/// Whether the text begins with these bytes.
pub fn begins_with(text: &[u8], front: &[u8]) -> bool
    ensures { result ≡ starts_with nat_eq text.now front.now }
{
    text.starts_with(front)
}

/// Returns the first character, or `None` for the empty text.
pub fn first_char(text: &str) -> Option<char>
    ensures { MatchOption result (length text.now ≡ 0) (λ c. (0 < length text.now)
        × (c ≡ first_char text.now)) }
{
    text.chars().next()
}

/// Returns the text after its first byte.
pub fn skip_first(text: &str) -> &str
    requires { IsCharBoundary text.now 1 }
    ensures { result.now ≡ drop 1 text.now }
{
    &text[1..]
}

/// Returns the first `count` bytes of the text, which are blanks.
pub fn take_blanks(text: &str, count: usize) -> &str
    requires { count ≤ blank_len text.now }
    ensures { result.now ≡ take count text.now }
{
    &text[..count]
}
