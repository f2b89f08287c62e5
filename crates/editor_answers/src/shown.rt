//! What is known of a text, as an editor is shown it.
ghost use Rattle.std.specs.Prelude.{◌≡◌, ◌≤◌, ◌++◌, IfOk, OnOk, filter, length, map, option_map, take};
ghost use Rattle.std.specs.List.{filter_map};
ghost use Rattle.std.specs.Option.{option_to_list};
ghost use Rattle.editor_answers.specs.Links.{pointed, to_point};
ghost use Rattle.justfile_lines.specs.Positions.{IsOffset, IsPlace};
ghost use Rattle.editor_language.specs.Mentions.{is_like};
ghost use Rattle.editor_answers.specs.Ranges.{beside, fold_of, highlight_of, last_line_of, most_found, position_of, range_of, shown, to_find, to_place, to_show, told};

use crate::addresses::address;
use editor_language::{FileLink, Finding, Item, Mention, OtherPlace, Span, is_like};
use editor_messages::{Diagnostic, Fold, Highlight, Link, Related, Symbol};
use justfile_lines::{Encoding, Lines, Place, Position};
use std::alloc::{AllocError, Global};
use text_edits::Range;

/// How many findings are told at most: more of them nobody reads, and for each the line of another place may
/// be gone along.
const MOST_FOUND: usize = 1_000;

/// A text, and how its columns are counted.
#[derive(Drop)]
pub(crate) struct Shown<'a> {
    /// The text's lines.
    pub(crate) lines: Lines<'a>,
    /// How columns are counted.
    pub(crate) encoding: Encoding,
}

impl<'a> Shown<'a> {
    /// Finds the lines of a text.
    pub(crate) fn new(alloc: Global, encoding: Encoding, text: &'a str) -> Result<Self, AllocError>
        ensures text { IfOk result (λ made. made.lines.text.now ≡ text.now) }
        ensures encoding { IfOk result (λ made. made.encoding ≡ encoding) }
    {
        let lines = Lines::new(alloc, text)?;
        Ok(Shown { lines, encoding })
    }

    /// Returns the offset of a position.
    pub(crate) fn offset(&self, position: Position) -> usize
        ensures { IsOffset self.now.encoding self.now.lines.text.now position result }
    {
        self.lines.offset(self.encoding, position)
    }

    /// Returns the place of an offset, by a known place.
    fn place(&self, known: Place, offset: usize) -> Place
        requires within { offset ≤ length self.now.lines.text.now }
        requires place { IsPlace self.now.encoding self.now.lines.text.now known }
        ensures place { IsPlace self.now.encoding self.now.lines.text.now result }
        ensures position { result.position
            ≡ position_of self.now.encoding self.now.lines.text.now offset }
    {
        self.lines.place(self.encoding, known, offset)
    }

    /// Returns the range of a part of the text.
    pub(crate) fn range(&self, span: Span) -> Range
        ensures { result ≡ range_of self.now.encoding self.now.lines.text.now span }
    {
        let (range, _) = self.range_after(Place::start(), span);
        range
    }

    /// Returns the range of a part of the text, and the place of its end, by a known place: the text
    /// between that and the part is gone along if they are in one line.
    pub(crate) fn range_after(&self, known: Place, span: Span) -> (Range, Place)
        requires { IsPlace self.now.encoding self.now.lines.text.now known }
        ensures range { result.0
            ≡ range_of self.now.encoding self.now.lines.text.now span }
        ensures place { IsPlace self.now.encoding self.now.lines.text.now result.1 }
    {
        let last = self.lines.end();
        let first = span.start.min(last);
        let start = self.place(known, first);
        let end = self.place(start, span.end.min(last).max(first));
        let range = Range {
            start: start.position,
            end: end.position,
        };
        (range, end)
    }

    /// Returns the width of a line.
    pub(crate) fn line_width(&self, line: usize) -> usize {
        let after = Position {
            line,
            column: usize::MAX,
        };
        let end = self.offset(after);
        let place = self.lines.position(self.encoding, end);
        place.column
    }

    /// Returns the ranges of parts of the text.
    pub(crate) fn ranges(&self, alloc: Global, spans: &[Span]) -> Result<Vec<Range>, AllocError>
        ensures { IfOk result (λ found. found.items
            ≡ map (range_of self.now.encoding self.now.lines.text.now) spans.now) }
    {
        let mut ranges = Vec::new(alloc);
        let mut known = Place::start();
        for span in spans {
            let (range, end) = self.range_after(known, *span);
            ranges.push(range)?;
            known = end;
        }
        Ok(ranges)
    }

    /// Returns where a name is mentioned.
    pub(crate) fn highlights(
        &self,
        alloc: Global,
        mentions: &[Mention],
        name: &Mention,
    ) -> Result<Vec<Highlight>, AllocError>
        ensures { IfOk result (λ found. found.items
            ≡ map (highlight_of self.now.encoding self.now.lines.text.now)
            (filter (is_like name.now) mentions.now)) }
    {
        let mut highlights = Vec::new(alloc);
        let mut known = Place::start();
        for mention in mentions {
            if is_like(name, mention) {
                let (range, end) = self.range_after(known, mention.span);
                highlights.push(Highlight {
                    range,
                    defines: mention.defines,
                })?;
                known = end;
            }
        }
        Ok(highlights)
    }

    /// Returns what else is told of the text, and then the first of its findings.
    pub(crate) fn with_findings(
        &self,
        others: Vec<Diagnostic>,
        findings: &[Finding],
    ) -> Result<Vec<Diagnostic>, AllocError>
        ensures { IfOk result (λ found. map told found.items ≡ map told others.items
            ++ map (to_find self.now.encoding self.now.lines.text.now) (take most_found findings.now)) }
    {
        let (first, _) = findings.split_at(MOST_FOUND.min(findings.len()));
        let mut diagnostics = others;
        self.push_found(first, &mut diagnostics)?;
        Ok(diagnostics)
    }

    /// Appends findings.
    fn push_found(
        &self,
        findings: &[Finding],
        diagnostics: &mut Vec<Diagnostic>,
    ) -> Result<(), AllocError>
        ensures { OnOk result (map told diagnostics.new.items ≡ map told diagnostics.old.items
            ++ map (to_find self.now.encoding self.now.lines.text.now) findings.now) }
    {
        let mut known = Place::start();
        for finding in findings {
            let (range, end) = self.range_after(known, finding.span);
            diagnostics.push(self.found(range, finding)?)?;
            known = end;
        }
        Ok(())
    }

    /// Returns a finding, which has this range.
    fn found(&self, range: Range, finding: &Finding) -> Result<Diagnostic, AllocError>
        requires { range
            ≡ range_of self.now.encoding self.now.lines.text.now finding.now.span }
        ensures { IfOk result (λ found. told found
            ≡ to_find self.now.encoding self.now.lines.text.now finding.now) }
    {
        let message = finding.message.clone()?;
        Ok(Diagnostic {
            range,
            message,
            code: finding.code,
            related: self.related(finding.other),
        })
    }

    /// Returns another range, if there is one.
    fn related(&self, other: Option<OtherPlace>) -> Option<Related>
        ensures { option_map beside result ≡ option_map
            (to_place self.now.encoding self.now.lines.text.now) other }
    {
        let other = other?;
        Some(Related {
            range: self.range(other.span),
            message: other.message,
        })
    }

    /// Returns the symbols of the text.
    pub(crate) fn symbols(&self, alloc: Global, items: &[Item]) -> Result<Vec<Symbol>, AllocError>
        ensures { IfOk result (λ found. map shown found.items
            ≡ map (to_show self.now.encoding self.now.lines.text.now) items.now) }
    {
        let mut symbols = Vec::new(alloc);
        for item in items {
            symbols.push(self.symbol(item)?)?;
        }
        Ok(symbols)
    }

    /// Returns the symbol of an item.
    fn symbol(&self, item: &Item) -> Result<Symbol, AllocError>
        ensures { IfOk result (λ found. shown found
            ≡ to_show self.now.encoding self.now.lines.text.now item.now) }
    {
        let name = item.name.clone()?;
        let range = self.range(item.span);
        let selection = self.range(item.name_span);
        Ok(Symbol {
            name,
            kind: item.kind,
            range,
            selection,
        })
    }

    /// Returns the lines of a part of the text, if there are two or more.
    fn fold(&self, span: Span) -> Option<Fold>
        ensures { result ≡ fold_of self.now.encoding self.now.lines.text.now span }
    {
        let range = self.range(span);
        let first = range.start.line;
        let last = last_line_of(range);
        if first < last {
            Some(Fold { first, last })
        } else {
            None
        }
    }

    /// Returns the lines that can be folded: of items.
    pub(crate) fn folds(&self, alloc: Global, items: &[Item]) -> Result<Vec<Fold>, AllocError>
        ensures { IfOk result (λ folds. folds.items ≡ filter_map
            (λ i. fold_of self.now.encoding self.now.lines.text.now i.span) items.now) }
    {
        let mut folds = Vec::new(alloc);
        for item in items {
            push_fold(&mut folds, self.fold(item.span))?;
        }
        Ok(folds)
    }

    /// Returns the links that lead to files, as they are seen from the folder with an address.
    pub(crate) fn links(
        &self,
        alloc: Global,
        folder: &str,
        found: &[FileLink],
    ) -> Result<Vec<Link>, AllocError>
        ensures { IfOk result (λ links. map pointed links.items
            ≡ map (to_point self.now.encoding self.now.lines.text.now folder.now) found.now) }
    {
        let mut links = Vec::new(alloc);
        for link in found {
            links.push(self.link(alloc, folder, link)?)?;
        }
        Ok(links)
    }

    /// Returns the link that leads to a file, as it is seen from the folder with an address.
    fn link(&self, alloc: Global, folder: &str, link: &FileLink) -> Result<Link, AllocError>
        ensures { IfOk result (λ made. pointed made
            ≡ to_point self.now.encoding self.now.lines.text.now folder.now link.now) }
    {
        let range = self.range(link.span);
        let target = address(alloc, folder, link.path.as_str())?;
        Ok(Link { range, target })
    }
}

/// Adds lines that can be folded, if there are any.
fn push_fold(folds: &mut Vec<Fold>, fold: Option<Fold>) -> Result<(), AllocError>
    ensures { OnOk result (folds.new.items ≡ folds.old.items ++ option_to_list fold) }
{
    if let Some(fold) = fold {
        folds.push(fold)?;
    }
    Ok(())
}

/// Returns the last line of a range: that before its end, if a line begins there.
fn last_line_of(range: Range) -> usize
    ensures { result ≡ last_line_of range }
{
    if range.end.column == 0 {
        range.end.line.saturating_sub(1)
    } else {
        range.end.line
    }
}
