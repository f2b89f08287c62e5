//! Errors of texts and of their parts.
ghost use Rattle.std.specs.Prelude.{◌≡◌, ◌+◌, ◌≤◌, IfOk, length};
ghost use Rattle.justfile_token.specs.Messages.{message_text};
ghost use Rattle.justfile_recovery.specs.Places.{LiesIn};
ghost use Rattle.justfile_survey.specs.Errors.{IsPlaceOf};
ghost use Rattle.justfile_survey.specs.Surveys.{Says};

use crate::kind_lines::move_lines;
use crate::parsing::Source;
use crate::surveys::SurveyedError;
use justfile_chunks::Span;
use justfile_recovery::{line_feeds, line_start, span_in};
use justfile_token::{CompileError, CompileErrorKind, Token};
use justfile_vocabulary::TokenKind;
use std::alloc::{AllocError, Global};

/// Why a part of a text is rejected.
#[derive(Drop)]
pub(crate) struct Rejection {
    pub(crate) error: SurveyedError,
    /// Whether the part ends too early: it may be right together with what follows it.
    pub(crate) ends_early: bool,
}

/// Returns the error of a text.
pub(crate) fn error_of_text(
    alloc: Global,
    error: &CompileError<'_>,
) -> Result<SurveyedError, AllocError>
    ensures { let token = error.now.token in IfOk result (λ s. Says s token.offset
        (token.offset + token.length) token.line token.column (message_text error.now)) }
{
    let message = error.to_string(alloc)?;
    Ok(SurveyedError {
        span: Span {
            start: error.token.offset,
            end: error.token.end(),
        },
        line: error.token.line,
        column: error.token.column,
        message,
    })
}

/// Returns why the part of a text that begins at `base` is rejected, for an error of the part.
pub(crate) fn rejection_of_part(
    alloc: Global,
    source: Source<'_>,
    base: usize,
    error: &mut CompileError<'_>,
) -> Result<Rejection, AllocError>
    ensures { IfOk result (λ rejection. LiesIn (length source.entry.text.now) rejection.error.span) }
{
    let ends_early = ends_early(error);
    let bytes = source.text.as_bytes();
    let span = span_in_text(bytes, base, &error.token);
    let message = message_in_text(alloc, error, source.feeds)?;
    Ok(Rejection {
        error: SurveyedError {
            span,
            line: source
                .feeds
                .saturating_add(line_feeds_between(bytes, base, span.start)),
            column: span.start - line_start(bytes, span.start),
            message,
        },
        ends_early,
    })
}

/// Returns the message of an error of a part of a text, with this many line feeds before the part, as it
/// is for the whole text. The error is as it is there then.
///
/// # Errors
///
/// `AllocError` if out of memory.
pub fn message_in_text(
    alloc: Global,
    error: &mut CompileError<'_>,
    feeds: usize,
) -> Result<String, AllocError> {
    move_lines(&mut error.kind, feeds);
    error.token.line = error.token.line.saturating_add(feeds);
    error.to_string(alloc)
}

/// Returns where an error of a text is shown: at its token, or before the last line feed if that is the
/// end.
pub fn place_of_error(text: &str, error: &CompileError<'_>) -> Span
    ensures within { LiesIn (length text.now) result }
    ensures place { let token = error.now.token in token.offset + token.length ≤ length text.now
        → IsPlaceOf text.now token result }
{
    place_at(text.as_bytes(), error.token.offset, &error.token)
}

/// Returns the number of line feeds from one offset up to another one.
fn line_feeds_between(bytes: &[u8], from: usize, to: usize) -> usize {
    match bytes.get(from..to) {
        Some(passed) => line_feeds(passed),
        None => 0,
    }
}

/// Returns the span in the whole text of a token of the part that begins at `base`. The end of a
/// part is before its last line feed.
fn span_in_text(bytes: &[u8], base: usize, token: &Token<'_>) -> Span
    ensures { LiesIn (length bytes.now) result }
{
    place_at(bytes, base.saturating_add(token.offset), token)
}

/// Returns where a token at an offset of a text is shown: the end before the last line feed.
fn place_at(bytes: &[u8], offset: usize, token: &Token<'_>) -> Span
    ensures within { LiesIn (length bytes.now) result }
    ensures place { offset ≡ token.now.offset → offset + token.now.length ≤ length bytes.now
        → IsPlaceOf bytes.now token.now result }
{
    let start = offset.min(bytes.len());
    if token.kind == TokenKind::Eof && start > 0 && bytes[start - 1] == b'\n' {
        return span_in(bytes.len(), start - 1, start - 1);
    }
    span_in(bytes.len(), start, start.saturating_add(token.length))
}

/// Whether an error can be that a text ends too early.
fn ends_early(error: &CompileError<'_>) -> bool {
    match error.kind {
        CompileErrorKind::UnterminatedBacktick
        | CompileErrorKind::UnterminatedInterpolation
        | CompileErrorKind::UnterminatedString => true,
        _ => error.token.kind == TokenKind::Eof,
    }
}
