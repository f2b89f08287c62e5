//! How a justfile is cut into parts: each is found from what is left of the text.
ghost use Rattle.std.specs.Prelude.{◌<◌, ◌≤◌, ◌-◌, IfOk, drop, length, nat_eq};
ghost use Rattle.text_parts.specs.Places.{IsPartStart};
ghost use Rattle.justfile_analysis.specs.Ends.{IsEnd};
ghost use Rattle.justfile_analysis.specs.Parts.{IsAttempt, IsFound, IsPartOf, TellsWhy, read_of};

use crate::ends::{end_after, first_end, further_end};
use crate::reading::{read_rest, read_up_to};
use crate::rejection::{Rejection, certain_cause, rejection_of};
use crate::wrong::refused_part;
use editor_language::Known;
use std::alloc::{AllocError, Global};
use text_parts::{Cut, Part};

/// Cuts a justfile into parts: each from where an item may begin up to where another one does.
#[derive(Clone, Copy)]
pub(crate) struct JustfileCut;

impl Cut for JustfileCut {
    type Known = Known;

    ghost is_part = { IsPartOf };

    fn part(&self, alloc: Global, text: &str, start: usize) -> Result<Part<Known>, AllocError> {
        part_at(alloc, text, start)
    }
}

/// What came of reading a part up to an end.
#[derive(Drop)]
pub(crate) enum Attempt {
    /// The part.
    Found(Part<Known>),
    /// Another end, which is further in the text.
    Further(usize),
}

/// Returns the part of a text that begins at an offset: what is a justfile by itself up to where the
/// next item may begin, or further on if it ends too early. If it is none, it ends where an item may
/// begin after its error.
fn part_at(alloc: Global, text: &str, start: usize) -> Result<Part<Known>, AllocError>
    requires { IsPartStart text.now start }
    ensures { IfOk result (IsFound text.now start) }
{
    let mut end = first_end(text.as_bytes(), start);
    let mut step = 0;
    'ends: while end < text.len() {
        match try_end(alloc, text, start, end, step)? {
            Attempt::Found(part) => return Ok(part),
            Attempt::Further(further) => end = further,
        }
        step = next_step(step);
    }
    read_rest(alloc, text, start, step)
}

/// Returns the number after another one, or the same if there is none.
fn next_step(step: usize) -> usize {
    step.saturating_add(1)
}

/// Reads the part of a text from an offset up to an end, which isn't that of the text.
fn try_end(
    alloc: Global,
    text: &str,
    start: usize,
    end: usize,
    step: usize,
) -> Result<Attempt, AllocError>
    requires start { IsPartStart text.now start }
    requires end { IsEnd text.now start end }
    requires within { end < length text.now }
    ensures { IfOk result (IsAttempt text.now start end) }
{
    if let Some(part) = read_up_to(alloc, text, start, end)? {
        return Ok(Attempt::Found(part));
    }
    match rejection_of(alloc, text, start, end)? {
        None => Ok(Attempt::Further(further_end(text.as_bytes(), start, end, step))),
        Some(rejection) => go_on(alloc, text, start, end, step, rejection),
    }
}

/// Goes on after a part is rejected up to an end.
fn go_on(
    alloc: Global,
    text: &str,
    start: usize,
    end: usize,
    step: usize,
    rejection: Rejection,
) -> Result<Attempt, AllocError>
    requires start { IsPartStart text.now start }
    requires end { IsEnd text.now start end }
    requires within { end < length text.now }
    requires rejected { TellsWhy (read_of text.now start end) rejection.problem }
    ensures { IfOk result (IsAttempt text.now start end) }
{
    let cause = certain_cause(alloc, text, start, end, rejection.cause)?;
    match end_after(text.as_bytes(), start, end, step, cause) {
        Some(further) => Ok(Attempt::Further(further)),
        None => {
            let rejection = Rejection {
                problem: rejection.problem,
                cause,
            };
            let part = refused_part(alloc, text, start, end, step, rejection)?;
            Ok(Attempt::Found(part))
        }
    }
}
