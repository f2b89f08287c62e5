//! Edits that format a text, or a part of it.
ghost use Rattle.std.specs.Prelude.{IfOk, IsOkUnless, IsTrue};
ghost use Rattle.editor_answers.specs.Formatting.{EditsWith, Formats, FormatsRange, Keeps, KeepsFormatted, LeadsTo};

use crate::asked::Asked;
use crate::failure::Failure;
use crate::fixes::edits;
use editor_language::{Language, Span};
use editor_messages::Answer;
use justfile_lines::Encoding;
use std::alloc::{AllocError, Global};
use text_edits::{Range, TextEdit, edited, line_edits};

/// Returns edits that format a text, if it has a formatted text.
pub(crate) fn format<L: Language>(
    alloc: Global,
    language: &L,
    encoding: Encoding,
    text: &str,
) -> Result<Answer, Failure>
    ensures ok { IfOk result (Formats L.formats L.unformatted encoding text.now) }
    ensures failed { IsOkUnless result Failure.Memory }
{
    match language.formatted(alloc, text)? {
        Some(formatted) => edits_to(alloc, encoding, text, formatted.as_str()),
        None => Ok(Answer::Nothing),
    }
}

/// Returns edits that lead from a text to another, if they differ.
fn edits_to(alloc: Global, encoding: Encoding, old: &str, new: &str) -> Result<Answer, Failure>
    ensures ok { IfOk result (EditsWith (LeadsTo encoding old.now new.now)) }
    ensures failed { IsOkUnless result Failure.Memory }
{
    let edits = line_edits(alloc, encoding, old, new)?;
    Ok(Answer::Edits(edits))
}

/// Returns edits that format what is in a range, if the text has a formatted text.
pub(crate) fn format_range<L: Language>(
    alloc: Global,
    language: &L,
    asked: &Asked<'_>,
    range: Range,
) -> Result<Answer, Failure>
    ensures ok { IfOk result (FormatsRange L.formats L.unformatted asked.now.shown.encoding
        asked.now.text.now) }
    ensures failed { IsOkUnless result Failure.Memory }
{
    match language.formatted(alloc, asked.text)? {
        Some(formatted) => format_part(alloc, language, asked, range, formatted.as_str()),
        None => Ok(Answer::Nothing),
    }
}

/// Returns edits that format what is in a range of a text that has this formatted text. There are none
/// unless the text has the same one after them.
fn format_part<L: Language>(
    alloc: Global,
    language: &L,
    asked: &Asked<'_>,
    range: Range,
    formatted: &str,
) -> Result<Answer, Failure>
    requires { L.formats asked.now.text.now formatted.now }
    ensures ok { IfOk result
        (KeepsFormatted L.formats asked.now.shown.encoding asked.now.text.now) }
    ensures failed { IsOkUnless result Failure.Memory }
{
    let edits = part_edits(alloc, language, asked, range)?;
    if keeps(alloc, language, asked, &edits, formatted)? {
        Ok(Answer::Edits(edits))
    } else {
        Ok(Answer::Edits(Vec::new(alloc)))
    }
}

/// Returns edits of the items in a range, as the language formats them.
fn part_edits<L: Language>(
    alloc: Global,
    language: &L,
    asked: &Asked<'_>,
    range: Range,
) -> Result<Vec<TextEdit>, AllocError> {
    let span = Span {
        start: asked.shown.offset(range.start),
        end: asked.shown.offset(range.end),
    };
    let replacements = language.formatted_items(alloc, asked.text, asked.analysis, span)?;
    edits(alloc, asked, &replacements)
}

/// Whether edits lead to a text that has this formatted text.
fn keeps<L: Language>(
    alloc: Global,
    language: &L,
    asked: &Asked<'_>,
    edits: &[TextEdit],
    formatted: &str,
) -> Result<bool, AllocError>
    ensures { IfOk result (λ kept. IsTrue kept → Keeps L.formats asked.now.shown.encoding
        asked.now.text.now formatted.now edits.now) }
{
    let Some(after) = edited(alloc, asked.shown.encoding, asked.text, edits)? else {
        return Ok(false);
    };
    match language.formatted(alloc, after.as_str())? {
        Some(again) => Ok(again.as_str() == formatted),
        None => Ok(false),
    }
}
