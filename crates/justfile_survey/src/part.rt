//! Parts of a text, and where things are in the whole text.
ghost use Rattle.std.specs.Prelude.{◌≡◌, length};
ghost use Rattle.justfile_recovery.specs.Places.{LiesIn};
ghost use Rattle.justfile_survey.specs.Items.{place_in};

use justfile_chunks::Span;
use justfile_recovery::{after_lines, span_in};
use justfile_token::Token;

/// A part of a text that was parsed by itself.
#[derive(Clone, Copy)]
pub(crate) struct Part<'a> {
    /// The whole text.
    pub(crate) text: &'a str,
    /// The offset at which the part begins.
    pub(crate) base: usize,
    /// The spans of the lines of its items, in order.
    pub(crate) extents: &'a [Span],
}

impl Part<'_> {
    /// Returns the span of a token of the part, as much of it as lies in the text.
    pub(crate) fn span_of(&self, token: &Token<'_>) -> Span
        ensures { result ≡ place_in (length self.now.text.now) self.now.base token.now }
    {
        let length = self.text.len();
        let start = self.base.saturating_add(token.offset);
        Span {
            start: start.min(length),
            end: start.saturating_add(token.length).min(length),
        }
    }

    /// Returns the lines of the item in which there is an offset.
    pub(crate) fn extent_around(&self, offset: usize) -> Span
        ensures { LiesIn (length self.now.text.now) result }
    {
        let before = self.extents.partition_point(|extent| extent.end <= offset);
        match self.extents.get(before) {
            Some(extent) => span_in(self.text.len(), extent.start, extent.end),
            None => span_in(self.text.len(), offset, offset),
        }
    }

    /// Returns the span of lines, from the one this many lines after that of an offset up to another
    /// one.
    pub(crate) fn lines_after(&self, offset: usize, first: usize, count: usize) -> Span
        ensures { LiesIn (length self.now.text.now) result }
    {
        let bytes = self.text.as_bytes();
        let start = after_lines(bytes, offset.min(bytes.len()), first);
        span_in(bytes.len(), start, after_lines(bytes, start, count))
    }
}
