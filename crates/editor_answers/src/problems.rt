//! Problems as an editor is told them.
ghost use Rattle.std.specs.Prelude.{◌≡◌, ◌≤◌, IfOk, length, map};
ghost use Rattle.justfile_lines.specs.Positions.{IsPlace};
ghost use Rattle.editor_answers.specs.Ranges.{range_of, to_tell, told};

use editor_language::{Problem, Span};
use editor_messages::Diagnostic;
use justfile_lines::{Encoding, Place};
use std::alloc::{AllocError, Global};
use text_edits::Range;

/// Returns what is told of problems of a text. They are in the order of the text, which is gone along.
pub(crate) fn problems_told(
    alloc: Global,
    encoding: Encoding,
    text: &str,
    problems: &[Problem],
) -> Result<Vec<Diagnostic>, AllocError>
    ensures { IfOk result
        (λ found. map told found.items ≡ map (to_tell encoding text.now) problems.now) }
{
    let mut found = Vec::new(alloc);
    let mut known = Place::start();
    for problem in problems {
        let (told, start) = problem_told(encoding, text, known, problem)?;
        found.push(told)?;
        known = start;
    }
    Ok(found)
}

/// Returns what is told of a problem, and the place of its beginning, by a known place.
fn problem_told(
    encoding: Encoding,
    text: &str,
    known: Place,
    problem: &Problem,
) -> Result<(Diagnostic, Place), AllocError>
    requires { IsPlace encoding text.now known }
    ensures told { IfOk result (λ found. told found.0 ≡ to_tell encoding text.now problem.now) }
    ensures place { IfOk result (λ found. IsPlace encoding text.now found.1) }
{
    let message = problem.message.clone()?;
    let (range, start) = range_along(encoding, text, known, problem.span);
    let told = Diagnostic {
        range,
        message,
        code: "",
        related: None,
    };
    Ok((told, start))
}

/// Returns the range of a part of a text, and the place of its beginning, by a known place: the text from
/// there on is gone along, or all of it if the part begins before.
#[tactic(auto, using(crate::proofs::Placed::position_is))]
fn range_along(encoding: Encoding, text: &str, known: Place, span: Span) -> (Range, Place)
    requires { IsPlace encoding text.now known }
    ensures range { result.0 ≡ range_of encoding text.now span }
    ensures place { IsPlace encoding text.now result.1 }
{
    let last = text.len();
    let first = span.start.min(last);
    let start = place_along(encoding, text, known, first);
    let end = start.on_to(encoding, text, span.end.min(last).max(first));
    let range = Range {
        start: start.position,
        end: end.position,
    };
    (range, start)
}

/// Returns the place of an offset of a text, by a known place: the text from there on is gone along, or all
/// of it if the offset is before.
fn place_along(encoding: Encoding, text: &str, known: Place, offset: usize) -> Place
    requires within { offset ≤ length text.now }
    requires place { IsPlace encoding text.now known }
    ensures offset { result.offset ≡ offset }
    ensures is { IsPlace encoding text.now result }
{
    if known.offset <= offset {
        known.on_to(encoding, text, offset)
    } else {
        Place::start().on_to(encoding, text, offset)
    }
}
