//! Parts of a text that are replaced.
ghost use Rattle.std.specs.Prelude.{◌≡◌, ◌↔◌, ◌++◌, [], IfOk, IsTrue, string_bytes};

use std::alloc::{AllocError, Global};

/// A part of a text, and what takes its place.
#[derive(Drop)]
pub(crate) struct Pending {
    /// Where it begins.
    pub(crate) start: usize,
    /// Where it ends.
    pub(crate) end: usize,
    /// What takes its place.
    pub(crate) text: String,
}

impl Pending {
    /// Returns nothing in the place of nothing.
    pub(crate) fn nothing(alloc: Global, offset: usize) -> Self
        ensures start { result.start ≡ offset }
        ensures end { result.end ≡ offset }
        ensures text { string_bytes result.text ≡ [] }
    {
        Pending {
            start: offset,
            end: offset,
            text: String::new(alloc),
        }
    }

    /// Whether it is nothing in the place of nothing.
    pub(crate) fn is_nothing(&self) -> bool
        ensures { IsTrue result
            ↔ ((self.now.start ≡ self.now.end) × (string_bytes self.now.text ≡ [])) }
    {
        self.start == self.end && self.text.is_empty()
    }

    /// Returns the part with more text in its place.
    pub(crate) fn with_text(self, more: &str) -> Result<Self, AllocError>
        ensures start { IfOk result (λ made. made.start ≡ self.start) }
        ensures end { IfOk result (λ made. made.end ≡ self.end) }
        ensures text { IfOk result (λ made.
            string_bytes made.text ≡ string_bytes self.text ++ more.now) }
    {
        let Pending {
            start,
            end,
            mut text,
        } = self;
        text.push_str(more)?;
        Ok(Pending { start, end, text })
    }
}
