//! Where a text ends.

/// A line and a column, both from 1. Columns are in bytes, as those of a justfile's errors.
#[derive(Clone, Copy, Debug)]
pub(crate) struct Place {
    pub(crate) line: usize,
    pub(crate) column: usize,
}

/// Returns the place after so many bytes of a text.
pub(crate) fn place_after(bytes: &[u8], count: usize) -> Place {
    let (front, _) = bytes.split_at(count.min(bytes.len()));
    let mut place = Place { line: 1, column: 1 };
    for byte in front {
        if *byte == b'\n' {
            place.line = place.line.saturating_add(1);
            place.column = 1;
        } else {
            place.column = place.column.saturating_add(1);
        }
    }
    place
}
