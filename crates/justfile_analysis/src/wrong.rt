//! A part of a justfile that is rejected.
ghost use Rattle.std.specs.Prelude.{◌+◌, ◌<◌, ◌≤◌, IfOk, IfSome, length, min};
ghost use Rattle.text_parts.specs.Places.{IsPartStart};
ghost use Rattle.justfile_analysis.specs.Ends.{IsEnd, IsStop};
ghost use Rattle.justfile_analysis.specs.Parts.{AreBefore, AreNone, IsFound, TellsWhy, read_of};

use crate::ends::{STEPS, first_end};
use crate::reading::{KnownQuery, read_start};
use crate::rejection::{Cause, Rejection, rejection_of};
use editor_language::Known;
use justfile_canonical::reading::query_root;
use justfile_recovery::{line_start, next_start};
use justfile_token::Fault;
use std::alloc::{AllocError, Global};
use text_parts::Part;

/// Returns the part of a text that begins at an offset and is rejected up to an end. What is in the
/// lines before its error is known. It ends where an item may begin after the error. The text was read
/// up to `read`.
fn wrong_part(
    alloc: Global,
    text: &str,
    start: usize,
    end: usize,
    read: usize,
    rejection: Rejection,
) -> Result<Part<Known>, AllocError>
    requires start { IsPartStart text.now start }
    requires end { IsEnd text.now start end }
    requires forward { end ≤ read }
    requires within { read ≤ length text.now }
    requires rejected { TellsWhy (read_of text.now start end) rejection.problem }
    ensures { IfOk result (IsFound text.now start) }
{
    let at = error_place(start, end, &rejection);
    let before = known_before(alloc, text, start, line_of(text, start, at))?;
    let next = next_part(text.as_bytes(), start, at, end);
    Ok(Part {
        size: next - start,
        reach: reach_of(text, start, end, read),
        known: Known {
            items: before.items,
            mentions: before.mentions,
            problem: Some(rejection.problem),
        },
    })
}

/// Returns the part of a text that begins at an offset and is rejected up to an end, after so many ends
/// before it. If the literal in which it ended first isn't closed, it is rejected for that, so that what
/// follows is read by itself.
pub(crate) fn refused_part(
    alloc: Global,
    text: &str,
    start: usize,
    end: usize,
    step: usize,
    rejection: Rejection,
) -> Result<Part<Known>, AllocError>
    requires start { IsPartStart text.now start }
    requires end { IsEnd text.now start end }
    requires rejected { TellsWhy (read_of text.now start end) rejection.problem }
    ensures { IfOk result (IsFound text.now start) }
{
    let read = read_end(text, end, rejection.cause);
    let first = first_end(text.as_bytes(), start);
    match open_literal(alloc, text, start, first, step)? {
        Some(literal) => wrong_part(alloc, text, start, first, read.max(first), literal),
        None => wrong_part(alloc, text, start, end, read, rejection),
    }
}

/// Returns why a part is rejected up to its first end, if that is a literal that isn't closed, and few
/// other ends were tried.
fn open_literal(
    alloc: Global,
    text: &str,
    start: usize,
    first: usize,
    step: usize,
) -> Result<Option<Rejection>, AllocError>
    requires start { IsPartStart text.now start }
    requires end { IsEnd text.now start first }
    ensures { IfOk result (λ found.
        IfSome found (λ rejection. TellsWhy (read_of text.now start first) rejection.problem)) }
{
    if step == 0 || STEPS < step {
        return Ok(None);
    }
    match rejection_of(alloc, text, start, first)? {
        Some(rejection) if matches!(rejection.cause, Cause::OpenLiteral(_)) => Ok(Some(rejection)),
        _ => Ok(None),
    }
}

/// Returns the offset of an error of a part.
fn error_place(start: usize, end: usize, rejection: &Rejection) -> usize
    requires { start ≤ end }
    ensures after { start ≤ result }
    ensures before { result ≤ end }
{
    read_start(start)
        .saturating_add(rejection.problem.span.start)
        .max(start)
        .min(end)
}

/// Returns the beginning of the line of an offset in a part.
fn line_of(text: &str, start: usize, at: usize) -> usize
    requires within { at ≤ length text.now }
    requires after { start ≤ at }
    ensures after { start ≤ result }
    ensures before { result ≤ at }
{
    line_start(text.as_bytes(), at).max(start)
}

/// Returns where the part after the one at a start begins, for an error at an offset: at the error or
/// after it, and not after an end.
fn next_part(bytes: &[u8], start: usize, at: usize, end: usize) -> usize
    requires within { end ≤ length bytes.now }
    requires stop { IsStop bytes.now end }
    ensures after { min (start + 1) end ≤ result }
    ensures within { result ≤ end }
    ensures stop { IsStop bytes.now result }
{
    let from = at.max(start.saturating_add(1)).min(bytes.len());
    next_start(bytes, from).min(end)
}

/// Returns how many bytes from its beginning on were read of a part that is rejected up to an end,
/// where the text was read up to `read`.
fn reach_of(text: &str, start: usize, end: usize, read: usize) -> usize
    requires begins { start ≤ end }
    requires forward { end ≤ read }
    requires within { read ≤ length text.now }
    ensures { end < start + result }
{
    read - start + 1
}

/// Returns up to where a text was read, of which a part is rejected up to an end. For the end of a
/// literal all of the text is looked through in vain.
fn read_end(text: &str, end: usize, cause: Cause) -> usize
    requires { end ≤ length text.now }
    ensures forward { end ≤ result }
    ensures within { result ≤ length text.now }
{
    match cause {
        Cause::OpenLiteral(_) => text.len(),
        _ => end,
    }
}

/// Returns what is known of the lines of a part before the line of its error, if they are a justfile by
/// themselves.
fn known_before(alloc: Global, text: &str, start: usize, line: usize) -> Result<Known, AllocError>
    ensures { IfOk result (λ known.
        AreBefore text.now start line known.items.items known.mentions.items) }
{
    if line <= start {
        return Ok(nothing(alloc));
    }
    let Some(read) = text.get(read_start(start)..line) else {
        return Ok(nothing(alloc));
    };
    let query = KnownQuery {
        text: read,
        is_later: start > 0,
    };
    match query_root(alloc, "justfile", read, &query) {
        Ok(known) => Ok(known),
        Err(Fault::Memory) => Err(AllocError),
        Err(_) => Ok(nothing(alloc)),
    }
}

/// Returns that nothing is known.
fn nothing(alloc: Global) -> Known
    ensures { AreNone result.items.items result.mentions.items }
{
    Known {
        items: Vec::new(alloc),
        mentions: Vec::new(alloc),
        problem: None,
    }
}
