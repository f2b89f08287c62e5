//! Lines and columns of offsets.
ghost use Rattle.std.specs.Prelude.{◌≡◌, ◌+◌, ◌<◌, ◌≤◌, length, not};
ghost use Rattle.std.specs.List.{prefix_len};
ghost use Rattle.justfile_model.specs.Lexing.Places.{is_line_feed, IsPlace};

/// A line and a column, both from 0. Columns are in bytes.
#[derive(Clone, Copy, Debug, PartialEq, Eq)]
pub(crate) struct Place {
    pub(crate) line: usize,
    pub(crate) column: usize,
}

/// Returns the position of the offset `to`, from the position `start` of the offset `from`.
#[inline(never)]
pub(crate) fn place_after(bytes: &[u8], start: Place, from: usize, to: usize) -> Place
    requires order { from ≤ to }
    requires within { to ≤ length bytes.now }
    requires start { IsPlace bytes.now from start.line start.column }
    ensures { IsPlace bytes.now to result.line result.column }
{
    let plain = line_len(&bytes[from..to]);
    let mut place = Place {
        line: start.line,
        column: start.column + plain,
    };
    for at in from + plain..to {
        place = after_byte(bytes, place, at);
    }
    place
}

/// Returns the number of bytes before the first line feed.
fn line_len(bytes: &[u8]) -> usize
    ensures { result ≡ prefix_len (λ b. not (is_line_feed b)) bytes.now }
{
    bytes.iter().take_while(|byte| **byte != b'\n').count()
}

/// Returns the position after the byte at `at`, which is at `place`.
pub(crate) fn after_byte(bytes: &[u8], place: Place, at: usize) -> Place
    requires within { at < length bytes.now }
    requires start { IsPlace bytes.now at place.line place.column }
    ensures { IsPlace bytes.now (at + 1) result.line result.column }
{
    if bytes[at] == b'\n' && at + 1 < bytes.len() {
        return Place {
            line: place.line + 1,
            column: 0,
        };
    }
    Place {
        line: place.line,
        column: place.column + 1,
    }
}
