//! How something is set right.
ghost use Rattle.std.specs.Prelude.{◌≡◌, IfOk, IsOkUnless, filter, map};
ghost use Rattle.editor_answers.specs.Fixes.{AnswersFixes, FixesIn, deed, is_in, put, to_do, to_put};

use crate::asked::Asked;
use crate::failure::Failure;
use editor_language::{Language, QuickFix, Replacement, Span};
use editor_messages::{Answer, CodeAction};
use std::alloc::{AllocError, Global};
use text_edits::{Range, TextEdit};

/// Returns what sets right what is wrong in a range.
pub(crate) fn fixes<L: Language>(
    alloc: Global,
    language: &L,
    asked: &Asked<'_>,
    range: Range,
) -> Result<Answer, Failure>
    ensures fixes { IfOk result (FixesIn L.fixed asked.now.shown.encoding asked.now.uri.now
        asked.now.text.now asked.now.analysis.now range) }
    ensures failed { IsOkUnless result Failure.Memory }
{
    let start = asked.offset(range.start);
    let end = asked.offset(range.end);
    let found = language.fixes(alloc, asked.uri, asked.text, asked.analysis)?;
    let answer = actions_in(alloc, asked, &found, Span { start, end })?;
    Ok(answer)
}

/// Returns what the fixes do that are in a part of the text.
fn actions_in(
    alloc: Global,
    asked: &Asked<'_>,
    fixes: &[QuickFix],
    span: Span,
) -> Result<Answer, AllocError>
    ensures { IfOk result (AnswersFixes asked.now.uri.now
        (map (to_do asked.now.shown.encoding asked.now.text.now)
        (filter (is_in span.start span.end) fixes.now))) }
{
    let mut actions = Vec::new(alloc);
    for fix in fixes {
        if is_in(span, fix) {
            actions.push(action(alloc, asked, fix)?)?;
        }
    }
    let uri = asked.uri.to_string(alloc)?;
    Ok(Answer::Fixes(uri, actions))
}

/// Whether what a fix sets right is in a part of the text, or next to it.
fn is_in(span: Span, fix: &QuickFix) -> bool
    ensures { result ≡ is_in span.start span.end fix.now }
{
    fix.span.start <= span.end && span.start <= fix.span.end
}

/// Returns what a fix does.
fn action(alloc: Global, asked: &Asked<'_>, fix: &QuickFix) -> Result<CodeAction, AllocError>
    ensures { IfOk result (λ made. deed made
        ≡ to_do asked.now.shown.encoding asked.now.text.now fix.now) }
{
    let title = fix.title.clone()?;
    let edits = edits(alloc, asked, &fix.replacements)?;
    Ok(CodeAction { title, edits })
}

/// Returns the edits that replace parts of the text.
pub(crate) fn edits(
    alloc: Global,
    asked: &Asked<'_>,
    replacements: &[Replacement],
) -> Result<Vec<TextEdit>, AllocError>
    ensures { IfOk result (λ made. map put made.items
        ≡ map (to_put asked.now.shown.encoding asked.now.text.now) replacements.now) }
{
    let mut edits = Vec::new(alloc);
    for replacement in replacements {
        edits.push(edit(asked, replacement)?)?;
    }
    Ok(edits)
}

/// Returns the edit that replaces a part of the text.
fn edit(asked: &Asked<'_>, replacement: &Replacement) -> Result<TextEdit, AllocError>
    ensures { IfOk result (λ made. put made
        ≡ to_put asked.now.shown.encoding asked.now.text.now replacement.now) }
{
    let text = replacement.text.clone()?;
    let range = asked.range(replacement.span);
    Ok(TextEdit { range, text })
}
