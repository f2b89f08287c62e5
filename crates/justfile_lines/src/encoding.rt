//! In what columns are counted.
ghost use Rattle.std.specs.Prelude.{◌≡◌, ◌≤◌};
ghost use Rattle.justfile_lines.specs.Positions.{byte_units, utf16_units};

/// In what columns are counted.
#[derive(Clone, Copy, Debug, PartialEq, Eq)]
pub enum Encoding {
    /// Bytes.
    Utf8,
    /// Units of UTF-16: two for a character of four bytes, one for any other.
    Utf16,
}

impl Encoding {
    /// Returns how many units a byte of a text counts for.
    pub(crate) fn byte_units(self, byte: u8) -> usize
        ensures exact { result ≡ byte_units self byte }
        ensures bound { result ≤ 2 }
    {
        match self {
            Encoding::Utf8 => 1,
            Encoding::Utf16 => utf16_units(byte),
        }
    }
}

/// Returns how many units of UTF-16 a byte of a text counts for: a character counts at its first
/// byte.
fn utf16_units(byte: u8) -> usize
    ensures exact { result ≡ utf16_units byte }
    ensures bound { result ≤ 2 }
{
    if byte < 128 {
        1
    } else if byte < 192 {
        0
    } else if byte < 240 {
        1
    } else {
        2
    }
}
