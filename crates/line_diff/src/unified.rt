//! The text of a unified diff.
ghost use Rattle.std.specs.Prelude.{◌≡◌, ◌+◌, ◌<◌, ◌^◌, ◌++◌, IfOk, OnOk, codes, decimal, length, string_bytes};
ghost use Rattle.std.specs.List.{flat_map};
ghost use Rattle.line_diff.specs.Edits.{new_lines, old_lines};
ghost use Rattle.line_diff.specs.Hunks.{AreHunks, edit_text, ended_line, hunk_text, range_text, sign};
ghost use Rattle.line_diff.specs.Unified.{IsUnified, header_text};

use crate::edits::{Change, Edit, diff_lines};
use crate::hunks::{line_counts, next_hunk};
use crate::label::file_label;
use crate::lines::lines_of;
use std::alloc::{AllocError, Global};

/// Returns the unified diff of the old and the new text of the file with this name: a line with the
/// name for each of the two, and the hunks, with three lines of context. It is empty if the texts
/// are equal.
///
/// # Errors
///
/// Memory ran out.
pub fn unified_diff(alloc: Global, name: &str, old: &str, new: &str) -> Result<String, AllocError>
    ensures { IfOk result (λ text. IsUnified name.now old.now new.now (string_bytes text)) }
{
    if old == new {
        return Ok(String::new(alloc));
    }
    let old_lines = lines_of(alloc, old)?;
    let new_lines = lines_of(alloc, new)?;
    let edits = diff_lines(alloc, &old_lines, &new_lines)?;
    let hunks = hunks_text(alloc, &edits)?;
    if hunks.is_empty() {
        return Ok(hunks);
    }
    let mut text = header(alloc, name)?;
    text.push_str(hunks.as_str())?;
    Ok(text)
}

/// Returns the two lines that name the file before and after.
fn header(alloc: Global, name: &str) -> Result<String, AllocError>
    ensures { IfOk result (λ text. string_bytes text ≡ header_text name.now) }
{
    let label = file_label(alloc, name)?;
    format!(in alloc; "--- {label}\n+++ {label}\n")
}

/// Returns the texts of the hunks that edits have.
fn hunks_text(alloc: Global, edits: &[Edit<'_>]) -> Result<String, AllocError>
    ensures { IfOk result (λ text. AreHunks edits.now (string_bytes text)) }
{
    let mut text = String::new(alloc);
    let mut from = 0;
    let mut old_before = 0;
    let mut new_before = 0;
    'hunks: while let Some((start, end)) = next_hunk(edits, from) {
        old_before += start - from;
        new_before += start - from;
        let hunk = &edits[start..end];
        push_hunk(alloc, &mut text, old_before, new_before, hunk)?;
        let (old, new) = line_counts(hunk);
        old_before += old;
        new_before += new;
        from = end;
    }
    Ok(text)
}

/// Adds the text of a hunk, after so many lines of the old text and of the new.
fn push_hunk(
    alloc: Global,
    text: &mut String,
    old_before: usize,
    new_before: usize,
    edits: &[Edit<'_>],
) -> Result<(), AllocError>
    requires old { old_before < 2 ^ 63 }
    requires new { new_before < 2 ^ 63 }
    ensures { OnOk result (string_bytes text.new ≡ string_bytes text.old ++ hunk_text (record {
      old_before = old_before;
      new_before = new_before;
      edits = edits.now;
    })) }
{
    let (old, new) = line_counts(edits);
    text.push_str("@@ -")?;
    push_range(alloc, text, old_before, old)?;
    text.push_str(" +")?;
    push_range(alloc, text, new_before, new)?;
    text.push_str(" @@\n")?;
    for edit in edits {
        push_edit(text, edit)?;
    }
    Ok(())
}

/// Adds the number of the first of so many lines after others, and their count.
fn push_range(
    alloc: Global,
    text: &mut String,
    before: usize,
    count: usize,
) -> Result<(), AllocError>
    requires { before < 2 ^ 63 }
    ensures { OnOk result (string_bytes text.new
        ≡ string_bytes text.old ++ range_text before count) }
{
    let first = if count == 0 { before } else { before + 1 };
    let range = format!(in alloc; "{first},{count}")?;
    text.push_str(range.as_str())
}

/// Adds the line of an edit after its sign, and after a line without a line feed the line that says
/// so.
fn push_edit(text: &mut String, edit: &Edit<'_>) -> Result<(), AllocError>
    ensures { OnOk result (string_bytes text.new ≡ string_bytes text.old ++ edit_text edit.now) }
{
    text.push_str(sign_of(edit.change))?;
    text.push_str(edit.line)?;
    if edit.line.ends_with("\n") {
        return Ok(());
    }
    text.push_str("\n\\ No newline at end of file\n")
}

/// Returns the sign of a change.
fn sign_of(change: Change) -> &'static str
    ensures { result.now ≡ sign change }
{
    match change {
        Change::Keep => " ",
        Change::Remove => "-",
        Change::Insert => "+",
    }
}
