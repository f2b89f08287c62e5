//! The word that the cursor is in.
ghost use Rattle.std.specs.Prelude.{◌≡◌, ◌==◌, ◌&&◌, ◌≤◌, cond, drop, length};
ghost use Rattle.std.specs.List.{prefix_len, suffix_len};
ghost use Rattle.justfile_completion.specs.Cursor.{IsFront, IsLastItem, begins_item, is_name_byte, last_item, word_end, word_start};

use justfile_vocabulary::ByteClass;
use justfile_vocabulary::byte_class::byte_class;

/// Whether a byte may stand in a name.
fn is_name_byte(byte: u8) -> bool
    ensures { result ≡ is_name_byte byte }
{
    matches!(
        byte_class(byte),
        ByteClass::IdentifierStart | ByteClass::IdentifierContinue
    )
}

/// Returns how many bytes of a name a text ends with.
fn name_len_before(text: &[u8]) -> usize
    ensures { result ≡ suffix_len is_name_byte text.now }
{
    text.iter()
        .rev()
        .take_while(|byte| is_name_byte(**byte))
        .count()
}

/// Returns how many bytes of a name a text begins with.
fn name_len_after(text: &[u8]) -> usize
    ensures is { result ≡ prefix_len is_name_byte text.now }
    ensures within { result ≤ length text.now }
{
    text.iter().take_while(|byte| is_name_byte(**byte)).count()
}

/// Returns where the word begins that the cursor is in or at an end of.
pub(crate) fn word_start(text: &[u8], cursor: usize) -> usize
    requires { cursor ≤ length text.now }
    ensures { result ≡ word_start text.now cursor }
{
    cursor.saturating_sub(name_len_before(&text[..cursor]))
}

/// Returns where the word ends that the cursor is in or at an end of.
pub(crate) fn word_end(text: &[u8], cursor: usize) -> usize
    requires { cursor ≤ length text.now }
    ensures { result ≡ word_end text.now cursor }
{
    cursor + name_len_after(&text[cursor..])
}

/// Returns the text before an offset, and nothing if it is inside of a character.
pub(crate) fn front_of(text: &str, start: usize) -> &str
    ensures { IsFront text.now start result.now }
{
    if text.is_char_boundary(start) {
        &text[..start]
    } else {
        ""
    }
}

/// Whether an item may begin where these bytes stand: at the end, or with what is neither a blank nor a
/// part of a line end.
fn begins_item(rest: &[u8]) -> bool
    ensures { result ≡ begins_item rest.now }
{
    match rest {
        [] => true,
        [byte, ..] => !matches!(*byte, b'\t' | b'\n' | b'\r' | b' '),
    }
}

/// Returns where an item begins last, by where one did before a byte: after that, if it is a line feed
/// after which one may begin.
fn start_after(start: usize, byte: u8, next: usize, rest: &[u8]) -> usize
    ensures { result ≡ cond (byte == 10 && begins_item rest.now) next start }
{
    if byte == b'\n' && begins_item(rest) {
        next
    } else {
        start
    }
}

/// Returns where the last item of a text begins.
#[tactic(auto, using(crate::proofs::Items::item_step, crate::proofs::Items::item_end))]
fn item_start(text: &[u8]) -> usize
    ensures is { drop result text.now ≡ last_item text.now }
    ensures within { result ≤ length text.now }
{
    let mut start = 0;
    let mut next = 0;
    for byte in text {
        next += 1;
        start = start_after(start, *byte, next, &text[next..]);
    }
    start
}

/// Returns the text of the last item, and nothing if that begins inside of a character.
pub(crate) fn last_item(text: &str) -> &str
    ensures { IsLastItem text.now result.now }
{
    let start = item_start(text.as_bytes());
    if text.is_char_boundary(start) {
        &text[start..]
    } else {
        ""
    }
}
