//! Positions in a text.

/// A position in a text.
#[derive(Clone, Copy, Debug, PartialEq, Eq)]
pub struct Position {
    /// The number of line feeds before it.
    pub line: usize,
    /// What is between the last line feed before it and the position, in units of an encoding.
    pub column: usize,
}

/// An offset in a text, and its position. From a place that is known, others are found that follow in
/// its line, without going along the line from where it begins.
#[derive(Clone, Copy)]
pub struct Place {
    /// The offset.
    pub offset: usize,
    /// Its position.
    pub position: Position,
}

impl Place {
    ghost use Rattle.std.specs.Prelude.{◌≡◌, ℕ, List};
    ghost use Rattle.justfile_lines.specs.Going.{first_place};
    ghost use Rattle.justfile_lines.specs.Positions.{IsPlace};
    ghost use Rattle.justfile_lines.specs.declared.encoding.Encoding.{Encoding};

    /// Returns the place of the beginning of any text.
    pub fn start() -> Self
        ensures offset { result.offset ≡ 0 }
        ensures first { result ≡ first_place }
        ensures is { (encoding : Encoding) (text : List ℕ) → IsPlace encoding text result }
    {
        Place {
            offset: 0,
            position: Position { line: 0, column: 0 },
        }
    }
}
