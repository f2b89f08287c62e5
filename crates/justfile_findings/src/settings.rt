//! Where a setting can be added.
ghost use Rattle.std.specs.Prelude.{◌≡◌, ◌≤◌, ◌==◌, length, not};
ghost use Rattle.std.specs.List.{prefix_len};
ghost use Rattle.justfile_findings.specs.Settings.{begins_with_mark, has_shebang, line_len, setting_place};

/// Whether a text begins with a byte order mark.
fn begins_with_mark(text: &[u8]) -> bool
    ensures { result ≡ begins_with_mark text.now }
{
    text.starts_with(b"\xef\xbb\xbf")
}

/// Whether the first line of a text says by what the file is run.
fn has_shebang(text: &[u8]) -> bool
    ensures { result ≡ has_shebang text.now }
{
    text.starts_with(b"#!") || text.starts_with(b"\xef\xbb\xbf#!")
}

/// Returns how many bytes a text has before its first line feed.
fn end_of_line(text: &[u8]) -> usize
    ensures is { result ≡ prefix_len (λ b. not (b == 10)) text.now }
    ensures within { result ≤ length text.now }
{
    text.iter().take_while(|byte| **byte != b'\n').count()
}

/// Returns how many bytes the first line of a text has, with its line feed.
fn line_len(text: &[u8]) -> usize
    ensures { result ≡ line_len text.now }
{
    let end = end_of_line(text);
    if end < text.len() { end + 1 } else { end }
}

/// Returns where a setting can be added: at the beginning of a text, but after a byte order mark, and
/// after a first line that says by what the file is run.
pub(crate) fn setting_place(text: &[u8]) -> usize
    ensures { result ≡ setting_place text.now }
{
    if has_shebang(text) {
        line_len(text)
    } else if begins_with_mark(text) {
        3
    } else {
        0
    }
}
