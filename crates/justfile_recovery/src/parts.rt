//! The parts of a text: from where an item may begin up to where the next one may.
ghost use Rattle.std.specs.Prelude.{◌≡◌, ◌⊎◌, ◌<◌, ◌≤◌, length, true};
ghost use Rattle.justfile_recovery.specs.Starts.{is_start};

use crate::lines::is_comment_before;
use crate::starts::next_start;

/// Returns the end of the part of a text that begins at an offset: where the next item may begin. A
/// line of attributes belongs to what follows it, and so does a comment right before an item, in the
/// first bytes of the part: at most this many.
pub fn part_end(bytes: &[u8], from: usize, most: usize) -> usize
    requires { from < length bytes.now }
    ensures forward { from < result }
    ensures within { result ≤ length bytes.now }
    ensures start { (result ≡ length bytes.now) ⊎ (is_start bytes.now result ≡ true) }
{
    let mut line = from;
    let mut end = next_start(bytes, from + 1);
    while end < bytes.len() && end - from < most && joins(bytes, line, end) {
        line = end;
        end = next_start(bytes, end + 1);
    }
    end
}

/// Whether the line at one offset belongs to what begins at the next one.
fn joins(bytes: &[u8], line: usize, next: usize) -> bool
    requires { line ≤ length bytes.now }
{
    match bytes.get(line) {
        Some(b'[') => true,
        Some(b'#') => bytes.get(next) != Some(&b'#') && is_comment_before(bytes, line, next),
        _ => false,
    }
}
