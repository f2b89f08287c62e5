//! What is asked about.
ghost use Rattle.std.specs.Prelude.{◌≡◌, IfOk, filter, map};
ghost use Rattle.justfile_lines.specs.Positions.{IsOffset};
ghost use Rattle.editor_language.specs.Mentions.{is_like};
ghost use Rattle.editor_answers.specs.Ranges.{highlight_of, range_of};

use crate::shown::Shown;
use editor_language::{Analysis, Language, Mention, Span};
use editor_messages::Highlight;
use justfile_lines::Position;
use std::alloc::{AllocError, Global};
use text_edits::Range;

/// The document that is asked about.
#[derive(Drop)]
pub(crate) struct Asked<'a> {
    /// Its address.
    pub(crate) uri: &'a str,
    /// What is known of its text.
    pub(crate) analysis: &'a Analysis,
    /// Its text.
    pub(crate) text: &'a str,
    /// The text as an editor is shown it.
    pub(crate) shown: Shown<'a>,
    ghost same_text: { shown.lines.text.now ≡ text.now },
}

impl<'a> Asked<'a> {
    /// Returns where names are defined and used in the text.
    pub(crate) fn mentions<L: Language>(
        &self,
        alloc: Global,
        language: &L,
    ) -> Result<Vec<Mention>, AllocError>
        ensures { IfOk result
            (λ found. L.mentioned self.now.text.now self.now.analysis.now found.items) }
    {
        language.mentions(alloc, self.text, self.analysis)
    }

    /// Returns the offset of a position.
    pub(crate) fn offset(&self, position: Position) -> usize
        ensures { IsOffset self.now.shown.encoding self.now.text.now position result }
    {
        self.shown.offset(position)
    }

    /// Returns the range of a part of the text.
    pub(crate) fn range(&self, span: Span) -> Range
        ensures { result ≡ range_of self.now.shown.encoding self.now.text.now span }
    {
        self.shown.range(span)
    }

    /// Returns where a name is mentioned.
    pub(crate) fn highlights(
        &self,
        alloc: Global,
        mentions: &[Mention],
        name: &Mention,
    ) -> Result<Vec<Highlight>, AllocError>
        ensures { IfOk result (λ found. found.items
            ≡ map (highlight_of self.now.shown.encoding self.now.text.now)
            (filter (is_like name.now) mentions.now)) }
    {
        self.shown.highlights(alloc, mentions, name)
    }

    /// Returns the ranges of parts of the text.
    pub(crate) fn ranges(&self, alloc: Global, spans: &[Span]) -> Result<Vec<Range>, AllocError>
        ensures { IfOk result (λ found. found.items
            ≡ map (range_of self.now.shown.encoding self.now.text.now) spans.now) }
    {
        self.shown.ranges(alloc, spans)
    }
}
