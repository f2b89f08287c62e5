//! Applying several edits at once.
ghost use Rattle.std.specs.Prelude.{◌≡◌, ◌≤◌, ◌++◌, ◌∷◌, ℕ, List, IfOk, OnOk, IfNone, IfSome, MatchOption, slice_range, string_bytes};
ghost use Rattle.std.specs.Str.{IsCharBoundary};
ghost use Rattle.justfile_lines.specs.Positions.{IsPlace};
ghost use Rattle.text_edits.specs.Edited.{IsEdited, IsEditedFrom};

use crate::edit::TextEdit;
use justfile_lines::{Encoding, Lines, Place};
use std::alloc::{AllocError, Global};

/// Returns a text with each new text in the place of its range, all ranges being those of the old
/// text. Returns none if the ranges aren't in order, or one begins before the one before it ends.
///
/// # Errors
///
/// Memory ran out.
pub fn edited(
    alloc: Global,
    encoding: Encoding,
    text: &str,
    edits: &[TextEdit],
) -> Result<Option<String>, AllocError>
    ensures { IfOk result (λ made. MatchOption made
        ((other : List ℕ) → IsEdited encoding text.now edits.now other → ⊥)
        (λ new. IsEdited encoding text.now edits.now (string_bytes new))) }
{
    let lines = Lines::new(alloc, text)?;
    let mut made = String::new(alloc);
    let mut last = Place::start();
    for edit in edits {
        match push_edit(&mut made, encoding, text, &lines, last, edit)? {
            Some(end) => last = end,
            None => return Ok(None),
        }
    }
    let (_, rest) = text.split_at(last.offset);
    made.push_str(rest)?;
    Ok(Some(made))
}

/// Adds what is between a place and a range, and the text that takes the place of the range. Returns
/// the end of the range, or none if the range begins before the place or ends before it begins.
fn push_edit(
    made: &mut String,
    encoding: Encoding,
    text: &str,
    lines: &Lines<'_>,
    last: Place,
    edit: &TextEdit,
) -> Result<Option<Place>, AllocError>
    requires same { lines.now.text.now ≡ text.now }
    requires place { IsPlace encoding text.now last }
    requires boundary { IsCharBoundary text.now last.offset }
    ensures place { IfOk result (λ end. IfSome end (IsPlace encoding text.now)) }
    ensures boundary { IfOk result (λ end. IfSome end (λ p. IsCharBoundary text.now p.offset)) }
    ensures goes { IfOk result (λ end. IfSome end (λ p. (edits : List TextEdit) (rest : List ℕ)
        → IsEditedFrom encoding text.now edits p.offset rest
        → (added : List ℕ) × (string_bytes made.new ≡ string_bytes made.old ++ added)
        × IsEditedFrom encoding text.now (edit.now ∷ edits) last.offset (added ++ rest))) }
    ensures back { IfOk result (λ end. IfSome end (λ p. (edits : List TextEdit) (other : List ℕ)
        → IsEditedFrom encoding text.now (edit.now ∷ edits) last.offset other
        → (rest : List ℕ) × IsEditedFrom encoding text.now edits p.offset rest)) }
    ensures none { IfOk result (λ end. IfNone end ((edits : List TextEdit) (other : List ℕ)
        → IsEditedFrom encoding text.now (edit.now ∷ edits) last.offset other → ⊥)) }
{
    let start = lines.place_of(encoding, last, edit.range.start);
    let end = lines.place_of(encoding, start, edit.range.end);
    if start.offset < last.offset || end.offset < start.offset {
        return Ok(None);
    }
    push_part(made, text, last.offset, start.offset)?;
    made.push_str(edit.text.as_str())?;
    Ok(Some(end))
}

/// Adds a part of a text.
fn push_part(made: &mut String, text: &str, start: usize, end: usize) -> Result<(), AllocError>
    requires ordered { start ≤ end }
    requires starts { IsCharBoundary text.now start }
    requires ends { IsCharBoundary text.now end }
    ensures { OnOk result (string_bytes made.new
        ≡ string_bytes made.old ++ slice_range text.now start end) }
{
    made.push_str(&text[start..end])
}
