//! Edits.
use justfile_lines::Position;

/// A range of positions: from the first up to the second.
#[derive(Clone, Copy)]
pub struct Range {
    /// Where it begins.
    pub start: Position,
    /// Where it ends.
    pub end: Position,
}

/// A text that takes the place of a range.
#[derive(Drop)]
pub struct TextEdit {
    /// What is replaced.
    pub range: Range,
    /// What it is replaced by.
    pub text: String,
}
