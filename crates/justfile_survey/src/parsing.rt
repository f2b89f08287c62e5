//! Parsing a part of a text by itself.
ghost use Rattle.std.specs.Prelude.{◌≡◌, ◌-◌, IfOk, length};
ghost use Rattle.justfile_recovery.specs.Places.{LiesIn};
ghost use Rattle.justfile_chunks.specs.Spans.{text_from_feed};
ghost use Rattle.justfile_survey.specs.Parts.{AddsFile, Parses};
ghost use Rattle.justfile_survey.specs.Surveys.{IsRejectionIn};

use crate::errors::{Rejection, rejection_of_part};
use crate::file::one_extent;
use crate::items::push_items;
use crate::part::Part;
use crate::surveys::SurveyedItem;
use crate::whole::extents;
use justfile_ast::Ast;
use justfile_canonical::reading::release;
use justfile_canonical::root::parse_root;
use justfile_chunks::Span;
use justfile_recovery::{span_in, without_blank_lines};
use justfile_token::{CompileError, Fault};
use std::alloc::{AllocError, Global};

/// A text, and its path.
#[derive(Clone, Copy)]
pub(crate) struct Source<'a> {
    pub(crate) path: &'a str,
    pub(crate) text: &'a str,
    /// The number of line feeds before what is parsed.
    pub(crate) feeds: usize,
}

/// How a part is cut into the lines of its items.
#[derive(Clone, Copy)]
pub(crate) enum Cut {
    /// Into chunks, by its tokens.
    Chunks,
    /// Not at all: it has one item at most.
    Whole,
}

/// A text, with a part of it that is parsed.
#[derive(Clone, Copy)]
struct Piece<'a> {
    source: Source<'a>,
    /// The offset at which what is parsed begins: the line feed before the part.
    base: usize,
    /// What is parsed.
    parsed: &'a str,
    /// The part.
    lines: Span,
    cut: Cut,
}

/// Parses a part of a text, from the line feed before it on, and adds its items. Returns why it is
/// rejected, if it is.
pub(crate) fn parse(
    source: Source<'_>,
    alloc: Global,
    part: Span,
    cut: Cut,
    items: &mut Vec<SurveyedItem>,
) -> Result<Option<Rejection>, AllocError>
    requires { LiesIn (length source.text.now) part }
    ensures { IfOk result (Parses source.entry.path.now source.entry.text.now part
        items.new.items items.old.items) }
{
    let end = without_blank_lines(source.text.as_bytes(), part.start, part.end);
    let base = part.start.saturating_sub(1);
    match source.text.get(base..end) {
        None => Ok(None),
        Some(parsed) => {
            let lines = Span {
                start: part.start,
                end,
            };
            let piece = Piece {
                source,
                base,
                parsed,
                lines,
                cut,
            };
            parse_piece(piece, alloc, items)
        }
    }
}

/// Parses a part of a text, and adds its items. Returns why it is rejected, if it is.
#[tactic(auto, using(crate::proofs::Parsed::of_rejection))]
fn parse_piece(
    piece: Piece<'_>,
    alloc: Global,
    items: &mut Vec<SurveyedItem>,
) -> Result<Option<Rejection>, AllocError>
    requires inside { LiesIn (length piece.source.text.now) piece.lines }
    requires base { piece.base ≡ piece.lines.start - 1 }
    requires parsed { piece.parsed.now ≡ text_from_feed piece.source.text.now piece.lines }
    ensures { IfOk result (Parses piece.entry.source.path.now piece.entry.source.text.now
        piece.entry.lines items.new.items items.old.items) }
{
    match parse_root(alloc, piece.source.path, piece.parsed) {
        Ok(mut ast) => {
            let rejection = add_items(&mut ast, alloc, piece, items);
            release(ast);
            rejection
        }
        Err(fault) => reject(alloc, piece.source, piece.base, fault),
    }
}

/// Adds the items of the file of a part.
fn add_items(
    ast: &mut Ast<'_>,
    alloc: Global,
    piece: Piece<'_>,
    items: &mut Vec<SurveyedItem>,
) -> Result<Option<Rejection>, AllocError>
    ensures { IfOk result (AddsFile (length piece.entry.source.text.now) piece.entry.base
        items.new.items items.old.items ast.old) }
{
    let extents = extents_of(piece, alloc)?;
    let part = Part {
        text: piece.source.text,
        base: piece.base,
        extents: &extents,
    };
    push_items(&ast.items, alloc, part, items)?;
    Ok(None)
}

/// Returns the lines of the items of a part.
fn extents_of(piece: Piece<'_>, alloc: Global) -> Result<Vec<Span>, AllocError> {
    match piece.cut {
        Cut::Whole => one_extent(alloc, piece.lines),
        Cut::Chunks => moved_extents(piece, alloc),
    }
}

/// Returns the spans of the chunks of a part in the whole text.
fn moved_extents(piece: Piece<'_>, alloc: Global) -> Result<Vec<Span>, AllocError> {
    let chunks = extents(alloc, piece.source.path, piece.parsed)?;
    let mut spans = Vec::new(alloc);
    for chunk in &chunks {
        let start = piece
            .base
            .saturating_add(chunk.start)
            .max(piece.lines.start);
        let end = piece.base.saturating_add(chunk.end);
        spans.push(span_in(piece.lines.end, start, end))?;
    }
    Ok(spans)
}

/// Returns why a part is rejected, if its fault is an error.
fn reject(
    alloc: Global,
    source: Source<'_>,
    base: usize,
    fault: Fault<'_>,
) -> Result<Option<Rejection>, AllocError>
    ensures { IfOk result (IsRejectionIn (length source.entry.text.now)) }
{
    match fault {
        Fault::Compile(mut error) => reject_for(alloc, source, base, &mut error),
        Fault::Memory => Err(AllocError),
        Fault::Numbers => Ok(None),
    }
}

/// Returns why a part is rejected for an error.
fn reject_for(
    alloc: Global,
    source: Source<'_>,
    base: usize,
    error: &mut CompileError<'_>,
) -> Result<Option<Rejection>, AllocError>
    ensures { IfOk result (IsRejectionIn (length source.entry.text.now)) }
{
    Ok(Some(rejection_of_part(alloc, source, base, error)?))
}
