//! What is told of a problem or a circle.
ghost use Rattle.std.specs.Prelude.{◌≡◌, ◌++◌, IfOk, Some, option_map, string_bytes};
ghost use Rattle.std.specs.Option.{option_copied};
ghost use Rattle.justfile_problems.specs.Circular.{IsErrorOfCircle};
ghost use Rattle.justfile_problems.specs.Errors.{IsErrorOf};
ghost use Rattle.justfile_token.specs.Messages.{message_text};
ghost use Rattle.justfile_findings.specs.Findings.{Tells, TellsCircle};
ghost use Rattle.justfile_findings.specs.Suggestions.{question};

use crate::codes::{circle_code, code_of, next_of, other_of, span_of};
use editor_language::Finding;
use justfile_problems::{Circle, Problem};
use justfile_token::CompileError;
use std::alloc::{AllocError, Global};

/// Returns the message of an error.
fn plain_message(alloc: Global, error: &CompileError<'_>) -> Result<String, AllocError>
    ensures { IfOk result (λ made. string_bytes made ≡ message_text error.now) }
{
    format!(in alloc; "{error}")
}

/// Returns the message of an error, and at its end the name that may be meant.
fn asking_message(alloc: Global, error: &CompileError<'_>, name: &str) -> Result<String, AllocError>
    ensures { IfOk result
        (λ made. string_bytes made ≡ message_text error.now ++ question (Some name.now)) }
{
    format!(in alloc; "{error}\nDid you mean `{name}`?")
}

/// Returns the message of an error, and at its end the name that may be meant, if there is one.
fn message(
    alloc: Global,
    error: &CompileError<'_>,
    suggestion: Option<&str>,
) -> Result<String, AllocError>
    ensures { IfOk result (λ made. string_bytes made
        ≡ message_text error.now ++ question (option_copied suggestion.entry)) }
{
    match suggestion {
        None => plain_message(alloc, error),
        Some(name) => asking_message(alloc, error, name),
    }
}

/// Returns the message of the error that a problem is, and at its end the name that may be meant.
fn problem_message(
    alloc: Global,
    problem: &Problem<'_>,
    suggestion: Option<&str>,
) -> Result<String, AllocError>
    ensures { IfOk result (λ made. (error : CompileError) × IsErrorOf problem.now error
        × (string_bytes made
        ≡ message_text error ++ question (option_copied suggestion.entry))) }
{
    let error = problem.error(alloc)?;
    message(alloc, &error, suggestion)
}

/// Returns what is told of a problem, with the name that may be meant, if there is one.
pub(crate) fn told(
    alloc: Global,
    problem: &Problem<'_>,
    suggestion: Option<&str>,
) -> Result<Finding, AllocError>
    ensures { IfOk result (Tells (option_copied suggestion.entry) problem.now) }
{
    let message = problem_message(alloc, problem, suggestion)?;
    Ok(Finding {
        span: span_of(&problem.token),
        message,
        code: code_of(&problem.what),
        other: other_of(&problem.what),
    })
}

/// Returns what is told of a circle that is this error.
fn told_as(
    alloc: Global,
    circle: &Circle<'_>,
    error: &CompileError<'_>,
) -> Result<Finding, AllocError>
    requires { IsErrorOfCircle circle.now error.now }
    ensures { IfOk result (TellsCircle circle.now) }
{
    let message = plain_message(alloc, error)?;
    Ok(Finding {
        span: span_of(&error.token),
        message,
        code: circle_code(circle.first.role),
        other: next_of(circle),
    })
}

/// Returns what is told of a circle.
pub(crate) fn circle_told(alloc: Global, circle: &Circle<'_>) -> Result<Finding, AllocError>
    ensures { IfOk result (TellsCircle circle.now) }
{
    let error = circle.error(alloc)?;
    told_as(alloc, circle, &error)
}
