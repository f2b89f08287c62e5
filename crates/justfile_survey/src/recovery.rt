//! Going on after an error: the parts of a text are parsed one by one.
ghost use Rattle.std.specs.Prelude.{◌≡◌, ◌<◌, ◌≤◌, ◌⊎◌, IfOk, OnOk, length};
ghost use Rattle.justfile_recovery.specs.Places.{LiesIn};
ghost use Rattle.justfile_survey.specs.Parts.{BeginsWith, ErrorsIn, GoesOn, IsFoundBefore};

use crate::errors::Rejection;
use crate::parsing::{Cut, Source, parse};
use crate::surveys::{Survey, SurveyedError, SurveyedItem};
use justfile_chunks::Span;
use justfile_recovery::{last_start, line_feeds, line_start, next_start, part_end};
use std::alloc::{AllocError, Global};

/// The most errors of parts.
const MOST_ERRORS: usize = 99;

/// The number of bytes that are tried first where a part goes on over the next ones.
const FIRST_TRY: usize = 1024;

/// How many tries there are. Each is of eight times as many bytes as the one before it.
const TRIES: usize = 20;

/// What was found in the parts of a text.
#[derive(Drop)]
pub(crate) struct Found {
    pub(crate) items: Vec<SurveyedItem>,
    pub(crate) errors: Vec<SurveyedError>,
    pub(crate) course: Course,
}

/// What is kept on the way through the parts of a text.
#[derive(Clone, Copy)]
pub(crate) struct Course {
    /// The offset of the error of the text, until a part is rejected.
    cause: Option<usize>,
    /// The number of bytes that may still be parsed again.
    spare: usize,
    /// An offset, and the number of line feeds before it.
    counted: usize,
    feeds: usize,
}

/// Surveys the parts of a text that is rejected for this error.
pub(crate) fn survey_parts(
    alloc: Global,
    path: &str,
    text: &str,
    error: SurveyedError,
) -> Result<Survey, AllocError>
    requires { LiesIn (length text.now) error.span }
    ensures { IfOk result (BeginsWith path.now text.now error) }
{
    let course = Course {
        cause: Some(error.span.start),
        spare: text.len(),
        counted: 0,
        feeds: 0,
    };
    let mut found = Found {
        items: Vec::new(alloc),
        errors: Vec::new(alloc),
        course,
    };
    let source = Source {
        path,
        text,
        feeds: 0,
    };
    go_through(source, alloc, &mut found)?;
    put_first(error, path, text, found)
}

/// Returns the survey with an error before those of the parts.
#[tactic(auto, using(crate::proofs::Kept::with_first))]
fn put_first(
    error: SurveyedError,
    path: &str,
    text: &str,
    found: Found,
) -> Result<Survey, AllocError>
    requires first { LiesIn (length text.now) error.span }
    requires parts { IsFoundBefore path.now text.now (length text.now) found }
    ensures { IfOk result (BeginsWith path.now text.now error) }
{
    let Found {
        items,
        mut errors,
        course: _,
    } = found;
    errors.insert(0, error)?;
    Ok(Survey { items, errors })
}

/// Surveys all parts.
#[tactic(auto, using(crate::proofs::Kept::to_the_end))]
fn go_through(source: Source<'_>, alloc: Global, found: &mut Found) -> Result<(), AllocError>
    requires { IsFoundBefore source.path.now source.text.now 0 found.old }
    ensures { let text = source.entry.text.now in
        OnOk result (IsFoundBefore source.entry.path.now text (length text) found.new) }
{
    let mut at = 0;
    while at < source.text.len() {
        at = take(source, alloc, at, found)?;
    }
    Ok(())
}

/// Surveys the part that begins at an offset. Returns where to go on.
fn take(
    source: Source<'_>,
    alloc: Global,
    start: usize,
    found: &mut Found,
) -> Result<usize, AllocError>
    requires inside { start < length source.text.now }
    requires parts { IsFoundBefore source.path.now source.text.now start found.old }
    ensures parts { IfOk result
        (λ next. IsFoundBefore source.entry.path.now source.entry.text.now next found.new) }
    ensures forward { IfOk result (λ next. start < next) }
{
    let here = Source {
        path: source.path,
        text: source.text,
        feeds: count_feeds(source.text, start, &mut found.course),
    };
    let end = part_end(source.text.as_bytes(), start, usize::MAX);
    let part = Span { start, end };
    if let Some(at) = take_cause(part, &mut found.course) {
        return leave(here, alloc, part, at, found);
    }
    match parse(here, alloc, part, Cut::Whole, &mut found.items)? {
        None => Ok(end),
        Some(rejection) => go_on(here, alloc, part, rejection, found),
    }
}

/// Returns the offset of the error of the text if that lies in this part and none was rejected yet.
/// Then the part is rejected for that error.
fn take_cause(part: Span, course: &mut Course) -> Option<usize> {
    let at = course.cause?;
    if at < part.start || part.end <= at {
        return None;
    }
    course.cause = None;
    Some(at)
}

/// Returns the number of line feeds before the byte before an offset.
fn count_feeds(text: &str, start: usize, course: &mut Course) -> usize {
    let base = start.saturating_sub(1);
    if let Some(passed) = text.as_bytes().get(course.counted..base) {
        course.feeds = course.feeds.saturating_add(line_feeds(passed));
        course.counted = base;
    }
    course.feeds
}

/// Goes on after a part that is rejected. Returns from where on.
#[tactic(auto, using(crate::proofs::Kept::reported))]
fn go_on(
    source: Source<'_>,
    alloc: Global,
    part: Span,
    rejection: Rejection,
    found: &mut Found,
) -> Result<usize, AllocError>
    requires inside { LiesIn (length source.text.now) part }
    requires some { part.start < part.end }
    requires error { LiesIn (length source.text.now) rejection.error.span }
    requires parts { IsFoundBefore source.path.now source.text.now part.start found.old }
    ensures parts { IfOk result
        (λ next. IsFoundBefore source.entry.path.now source.entry.text.now next found.new) }
    ensures forward { IfOk result (λ next. part.start < next) }
{
    if rejection.ends_early {
        if let Some(end) = parse_longer(source, alloc, part, found)? {
            return Ok(end);
        }
    }
    let at = rejection.error.span.start;
    report(source.text, part.start, rejection.error, found)?;
    leave(source, alloc, part, at, found)
}

/// Leaves a part that is rejected for an error at this offset, after the lines before it. Returns
/// where to go on.
#[tactic(auto, using(crate::proofs::Kept::later))]
fn leave(
    source: Source<'_>,
    alloc: Global,
    part: Span,
    offset: usize,
    found: &mut Found,
) -> Result<usize, AllocError>
    requires inside { LiesIn (length source.text.now) part }
    requires some { part.start < part.end }
    requires parts { IsFoundBefore source.path.now source.text.now part.start found.old }
    ensures parts { IfOk result
        (λ next. IsFoundBefore source.entry.path.now source.entry.text.now next found.new) }
    ensures forward { IfOk result (λ next. part.start < next) }
{
    let bytes = source.text.as_bytes();
    let at = offset.max(part.start);
    let line = line_start(bytes, at.min(part.end)).max(part.start);
    let before = Span {
        start: part.start,
        end: line,
    };
    parse_before(source, alloc, before, found)?;
    let next = next_start(bytes, at.saturating_add(1).min(bytes.len()));
    Ok(within_spare(next, part.end, &mut found.course))
}

/// Returns the next offset at which an item may begin, or the end of the part if that is after the
/// offset and too much would be parsed again.
fn within_spare(next: usize, end: usize, course: &mut Course) -> usize
    ensures forward { next ≤ result }
    ensures within { (result ≡ next) ⊎ (result ≡ end) }
{
    let again = end.saturating_sub(next);
    if again > course.spare {
        return end;
    }
    course.spare -= again;
    next
}

/// Parses the lines of a part before the line of its error, if there are some.
#[tactic(auto, using(crate::proofs::Kept::later))]
fn parse_before(
    source: Source<'_>,
    alloc: Global,
    lines: Span,
    found: &mut Found,
) -> Result<(), AllocError>
    requires inside { LiesIn (length source.text.now) lines }
    requires parts { IsFoundBefore source.path.now source.text.now lines.start found.old }
    ensures { OnOk result
        (IsFoundBefore source.entry.path.now source.entry.text.now lines.end found.new) }
{
    if lines.start < lines.end {
        let _ = parse(source, alloc, lines, Cut::Whole, &mut found.items)?;
    }
    Ok(())
}

/// Parses what begins with a part and goes on over the next ones, such as a literal of several
/// lines. Returns where it ends.
fn parse_longer(
    source: Source<'_>,
    alloc: Global,
    part: Span,
    found: &mut Found,
) -> Result<Option<usize>, AllocError>
    requires inside { LiesIn (length source.text.now) part }
    requires parts { IsFoundBefore source.path.now source.text.now part.start found.old }
    ensures { IfOk result
        (GoesOn source.entry.path.now source.entry.text.now part found.new) }
{
    let bytes = source.text.as_bytes();
    let mut size = FIRST_TRY;
    for _round in 0..TRIES {
        let end = next_start(bytes, part.end.saturating_add(size).min(bytes.len()));
        let longer = Span {
            start: part.start,
            end,
        };
        if end <= part.end || !take_spare(end - part.start, &mut found.course) {
            return Ok(None);
        }
        match parse(source, alloc, longer, Cut::Chunks, &mut found.items)? {
            None => return Ok(Some(end)),
            Some(rejection) => {
                if !rejection.ends_early || end == bytes.len() {
                    return parse_up_to(source, alloc, part, rejection.error.span.start, found);
                }
            }
        }
        size = size.saturating_mul(8);
    }
    Ok(None)
}

/// Whether this many bytes may be parsed again. If so, they are taken off those that may.
fn take_spare(count: usize, course: &mut Course) -> bool {
    if count > course.spare {
        return false;
    }
    course.spare -= count;
    true
}

/// Parses what begins with a part and goes on up to where an item may begin before an offset.
/// Returns where it ends.
fn parse_up_to(
    source: Source<'_>,
    alloc: Global,
    part: Span,
    offset: usize,
    found: &mut Found,
) -> Result<Option<usize>, AllocError>
    requires inside { LiesIn (length source.text.now) part }
    requires parts { IsFoundBefore source.path.now source.text.now part.start found.old }
    ensures { IfOk result
        (GoesOn source.entry.path.now source.entry.text.now part found.new) }
{
    let bytes = source.text.as_bytes();
    if offset <= part.end || offset > bytes.len() {
        return Ok(None);
    }
    let end = last_start(bytes, part.end, offset);
    if end <= part.end {
        return Ok(None);
    }
    let longer = Span {
        start: part.start,
        end,
    };
    match parse(source, alloc, longer, Cut::Chunks, &mut found.items)? {
        None => Ok(Some(end)),
        Some(_) => Ok(None),
    }
}

/// Adds the error of a part that begins at an offset, unless there are enough. That of the first
/// part that is rejected is left out if the error of the text is after it: both have one cause.
#[tactic(auto, using(crate::proofs::Kept::with_error))]
fn report(
    text: &str,
    start: usize,
    error: SurveyedError,
    found: &mut Found,
) -> Result<(), AllocError>
    requires error { LiesIn (length text.now) error.span }
    requires errors { ErrorsIn (length text.now) 99 found.old.errors.items }
    ensures items { found.new.items ≡ found.old.items }
    ensures errors { OnOk result (ErrorsIn (length text.now) 99 found.new.errors.items) }
{
    let has_cause = found.course.cause.is_some_and(|offset| offset >= start);
    found.course.cause = None;
    if !has_cause && found.errors.len() < MOST_ERRORS {
        found.errors.push(error)?;
    }
    Ok(())
}
