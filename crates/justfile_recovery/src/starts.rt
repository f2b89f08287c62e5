//! Where an item may begin.
ghost use Rattle.std.specs.Prelude.{◌≡◌, ◌<◌, ◌≤◌, length};
ghost use Rattle.justfile_recovery.specs.Starts.{begins_item, begins_line, is_start, IsFirstStart, IsLastStart};

/// Whether an item, its attributes or a comment may begin with this byte.
fn begins_item(byte: u8) -> bool
    ensures { result ≡ begins_item byte }
{
    matches!(byte, b'A'..=b'Z' | b'a'..=b'z' | b'_' | b'@' | b'#' | b'[')
}

/// Whether an item may begin at this offset: whether a line does, with a byte that items, their
/// attributes or comments begin with.
#[tactic(auto, unfolding(crate::specs::Starts::is_start))]
pub fn is_start(bytes: &[u8], at: usize) -> bool
    ensures { result ≡ is_start bytes.now at }
{
    at < bytes.len() && begins_item(bytes[at]) && begins_line(bytes, at)
}

/// Whether a line begins at this offset.
fn begins_line(bytes: &[u8], at: usize) -> bool
    requires { at < length bytes.now }
    ensures { result ≡ begins_line bytes.now at }
{
    at == 0 || bytes[at - 1] == b'\n'
}

/// Returns the first offset from `from` on at which an item may begin, or the end of the text.
#[tactic(auto, using(crate::proofs::Nones::nowhere, crate::proofs::Nones::longer))]
pub fn next_start(bytes: &[u8], from: usize) -> usize
    requires { from ≤ length bytes.now }
    ensures { IsFirstStart bytes.now from result }
{
    for at in from..bytes.len() {
        if is_start(bytes, at) {
            return at;
        }
    }
    bytes.len()
}

/// Returns the last offset after `from`, and not after `to`, at which an item may begin, or `from`.
#[tactic(auto, using(crate::proofs::Nones::nowhere, crate::proofs::Nones::longer))]
pub fn last_start(bytes: &[u8], from: usize, to: usize) -> usize
    requires { from ≤ to }
    ensures { IsLastStart bytes.now from to result }
{
    let mut last = from;
    for at in from..to {
        if is_start(bytes, at + 1) {
            last = at + 1;
        }
    }
    last
}
