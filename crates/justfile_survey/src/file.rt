//! What is known of the items of a file that was parsed from a text.
ghost use Rattle.std.specs.Prelude.{◌≡◌, IfOk, length, map};
ghost use Rattle.justfile_survey.specs.Items.{file_seen};
ghost use Rattle.justfile_survey.specs.Seen.{seen};

use crate::items::push_items;
use crate::part::Part;
use crate::surveys::SurveyedItem;
use crate::whole::extents;
use justfile_ast::Ast;
use justfile_chunks::Span;
use justfile_item::Item;
use justfile_recovery::span_in;
use std::alloc::{AllocError, Global};

/// Returns what is known of the items of a file that was parsed from a text. These are the lines of its
/// item, if it has one; of several items each has the lines of its chunk.
///
/// # Errors
///
/// `AllocError` if out of memory.
#[tactic(auto, using(crate::proofs::Added::shown_alone))]
pub fn items_of_file(
    ast: &mut Ast<'_>,
    alloc: Global,
    text: &str,
    lines: Span,
) -> Result<Vec<SurveyedItem>, AllocError>
    ensures { IfOk result (λ items. map seen items.items ≡ file_seen (length text.now) 0 ast.old) }
{
    let extents = file_extents(&ast.items, alloc, text, lines)?;
    let part = Part {
        text,
        base: 0,
        extents: &extents,
    };
    let mut items = Vec::new(alloc);
    push_items(&ast.items, alloc, part, &mut items)?;
    Ok(items)
}

/// Returns the lines of the items of a file.
fn file_extents(
    items: &[Item<'_>],
    alloc: Global,
    text: &str,
    lines: Span,
) -> Result<Vec<Span>, AllocError> {
    if has_several(items) {
        chunk_extents(alloc, text, lines)
    } else {
        one_extent(alloc, lines)
    }
}

/// Whether there are several items beside comments and line ends.
fn has_several(items: &[Item<'_>]) -> bool {
    let mut has_one = false;
    for item in items {
        if !matches!(item, Item::Comment(_) | Item::Newline) {
            if has_one {
                return true;
            }
            has_one = true;
        }
    }
    false
}

/// Returns a span alone.
pub(crate) fn one_extent(alloc: Global, lines: Span) -> Result<Vec<Span>, AllocError> {
    let mut spans = Vec::new(alloc);
    spans.push(lines)?;
    Ok(spans)
}

/// Returns the spans of the chunks of a text, as much of them as lies in these lines.
fn chunk_extents(alloc: Global, text: &str, lines: Span) -> Result<Vec<Span>, AllocError> {
    let chunks = extents(alloc, "justfile", text)?;
    let mut spans = Vec::new(alloc);
    for chunk in &chunks {
        spans.push(span_in(lines.end, chunk.start.max(lines.start), chunk.end))?;
    }
    Ok(spans)
}
