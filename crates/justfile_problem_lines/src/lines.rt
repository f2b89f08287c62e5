//! The lines that tell problems.
ghost use Rattle.std.specs.Prelude.{◌≡◌, ◌++◌, IfOk, OnOk, string_bytes};
ghost use Rattle.justfile_problems.specs.Circular.{IsErrorOfCircle};
ghost use Rattle.justfile_problems.specs.Errors.{IsErrorWithin};
ghost use Rattle.justfile_problem_lines.specs.Lines.{AddsLines, TellAll, TellCircles, TellProblems, TellProblemsWithin, error_on, error_text};

use crate::cursor::LineCursor;
use justfile_problems::{Circle, Problem};
use justfile_token::{CompileError, Excerpt, Name};
use std::alloc::{AllocError, Global};

/// Returns the lines that tell problems, and then those that tell circles. Their lines are those of
/// `source`, the text of the file.
///
/// # Errors
///
/// `AllocError` if memory runs out.
pub fn all_lines(
    alloc: Global,
    source: &str,
    problems: &[Problem<'_>],
    circles: &[Circle<'_>],
) -> Result<String, AllocError>
    ensures { IfOk result (λ lines.
        TellAll source.now problems.now circles.now (string_bytes lines)) }
{
    let mut lines = problem_lines(alloc, source, problems)?;
    let others = circle_lines(alloc, source, circles)?;
    append(&others, &mut lines)?;
    Ok(lines)
}

/// Appends a text.
pub(crate) fn append(text: &String, lines: &mut String) -> Result<(), AllocError>
    ensures { OnOk result
        (string_bytes lines.new ≡ string_bytes lines.old ++ string_bytes text.now) }
{
    lines.push_str(text.as_str())
}

/// Returns the lines that tell problems of the file with the text `source`, one after the other: of
/// each `error: ` and `just`'s message, and the excerpt of the line that it is on. It takes one pass
/// over the text if the problems are in its order.
///
/// # Errors
///
/// `AllocError` if memory runs out.
pub fn problem_lines(
    alloc: Global,
    source: &str,
    problems: &[Problem<'_>],
) -> Result<String, AllocError>
    ensures { IfOk result (λ lines. TellProblems source.now problems.now (string_bytes lines)) }
{
    problem_lines_within(alloc, source, None, problems)
}

/// Returns the same, where the names that aren't known have the name of a module before them, or none.
pub(crate) fn problem_lines_within<'src>(
    alloc: Global,
    source: &str,
    owner: Option<Name<'src>>,
    problems: &[Problem<'src>],
) -> Result<String, AllocError>
    ensures { IfOk result (λ lines.
        TellProblemsWithin owner.entry source.now problems.now (string_bytes lines)) }
{
    let mut cursor = LineCursor::new(source);
    let mut lines = String::new(alloc);
    for problem in problems {
        push_problem(alloc, owner, problem, &mut cursor, &mut lines)?;
    }
    Ok(lines)
}

/// Appends the lines that tell a problem.
fn push_problem<'src>(
    alloc: Global,
    owner: Option<Name<'src>>,
    problem: &Problem<'src>,
    cursor: &mut LineCursor<'_>,
    lines: &mut String,
) -> Result<(), AllocError>
    ensures source { cursor.new.source.now ≡ cursor.old.source.now }
    ensures adds { OnOk result (AddsLines cursor.old.source.now
        (IsErrorWithin owner.entry) problem.now (string_bytes lines.old) (string_bytes lines.new)) }
{
    let error = problem.error_within(alloc, owner)?;
    push_error(alloc, &error, cursor, lines)
}

/// Returns the lines that tell circles, in the same way.
///
/// # Errors
///
/// `AllocError` if memory runs out.
pub fn circle_lines(
    alloc: Global,
    source: &str,
    circles: &[Circle<'_>],
) -> Result<String, AllocError>
    ensures { IfOk result (λ lines. TellCircles source.now circles.now (string_bytes lines)) }
{
    let mut cursor = LineCursor::new(source);
    let mut lines = String::new(alloc);
    for circle in circles {
        push_circle(alloc, circle, &mut cursor, &mut lines)?;
    }
    Ok(lines)
}

/// Appends the lines that tell a circle.
fn push_circle(
    alloc: Global,
    circle: &Circle<'_>,
    cursor: &mut LineCursor<'_>,
    lines: &mut String,
) -> Result<(), AllocError>
    ensures source { cursor.new.source.now ≡ cursor.old.source.now }
    ensures adds { OnOk result (AddsLines cursor.old.source.now IsErrorOfCircle circle.now
        (string_bytes lines.old) (string_bytes lines.new)) }
{
    let error = circle.error(alloc)?;
    push_error(alloc, &error, cursor, lines)
}

/// Appends the lines that tell an error.
fn push_error(
    alloc: Global,
    error: &CompileError<'_>,
    cursor: &mut LineCursor<'_>,
    lines: &mut String,
) -> Result<(), AllocError>
    ensures source { cursor.new.source.now ≡ cursor.old.source.now }
    ensures adds { OnOk result (string_bytes lines.new
        ≡ string_bytes lines.old ++ error_text cursor.old.source.now error.now) }
{
    let line = cursor.line(error.token.line);
    push_error_on(alloc, error, line, lines)
}

/// Appends the lines that tell an error on this line.
fn push_error_on(
    alloc: Global,
    error: &CompileError<'_>,
    line: &str,
    lines: &mut String,
) -> Result<(), AllocError>
    ensures { OnOk result (string_bytes lines.new
        ≡ string_bytes lines.old ++ error_on error.now line.now) }
{
    let token = error.token;
    let excerpt = Excerpt { token, line };
    let text = format!(in alloc; "error: {error}\n{excerpt}\n")?;
    lines.push_str(text.as_str())
}
