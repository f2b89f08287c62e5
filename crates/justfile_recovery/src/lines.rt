//! Lines of a text.
ghost use Rattle.std.specs.Prelude.{◌≤◌, length};

/// Returns the offset after the next line feed from `from` on, or the end of the text.
fn line_end(bytes: &[u8], from: usize) -> usize
    requires { from ≤ length bytes.now }
    ensures forward { from ≤ result }
    ensures within { result ≤ length bytes.now }
{
    for at in from..bytes.len() {
        if bytes[at] == b'\n' {
            return at + 1;
        }
    }
    bytes.len()
}

/// Returns the offset after this many line feeds from `from` on, or the end of the text.
pub fn after_lines(bytes: &[u8], from: usize, count: usize) -> usize
    requires { from ≤ length bytes.now }
    ensures forward { from ≤ result }
    ensures within { result ≤ length bytes.now }
{
    let mut at = from;
    for _line in 0..count {
        if at == bytes.len() {
            return at;
        }
        at = line_end(bytes, at);
    }
    at
}

/// Whether a line that begins at an offset is a comment, and the next line begins at another one.
pub(crate) fn is_comment_before(bytes: &[u8], line: usize, next: usize) -> bool
    requires { line ≤ length bytes.now }
{
    bytes.get(line) == Some(&b'#') && line_end(bytes, line) == next
}

/// Returns the offset at which the line of this offset begins.
pub fn line_start(bytes: &[u8], at: usize) -> usize
    requires { at ≤ length bytes.now }
    ensures { result ≤ at }
{
    let mut start = at;
    while start > 0 && bytes[start - 1] != b'\n' {
        start -= 1;
    }
    start
}

/// Returns the end of what is from one offset up to another one, without the blank lines at its
/// end. A blank line holds spaces and tabs alone.
pub fn without_blank_lines(bytes: &[u8], from: usize, to: usize) -> usize
    requires within { to ≤ length bytes.now }
    requires order { from ≤ to }
    ensures forward { from ≤ result }
    ensures within { result ≤ to }
{
    let mut end = to;
    while end > from && bytes[end - 1].is_ascii_whitespace() {
        end -= 1;
    }
    line_end(&bytes[..to], end)
}
