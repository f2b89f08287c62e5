//! Access to the bytes of a text.
ghost use Rattle.std.specs.Prelude.{◌≡◌, slice_index};

/// Returns the byte at an index, or 0 past the end.
pub fn byte_at(bytes: &[u8], at: usize) -> u8
    ensures { result ≡ slice_index bytes.now at }
{
    if at < bytes.len() { bytes[at] } else { 0 }
}
