//! Spans of a text.

/// A part of a text: the offsets from which and up to which it goes, in bytes.
#[derive(Clone, Copy, Debug)]
pub struct Span {
    pub start: usize,
    pub end: usize,
}
