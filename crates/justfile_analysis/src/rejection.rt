//! Why a part of a justfile is rejected.
ghost use Rattle.std.specs.Prelude.{◌+◌, ◌≤◌, IfOk, IfSome, codes, length};
ghost use Rattle.text_parts.specs.Places.{IsPartStart};
ghost use Rattle.justfile_canonical.specs.Root.{HasNoRoot};
ghost use Rattle.justfile_analysis.specs.Ends.{IsEnd};
ghost use Rattle.justfile_analysis.specs.Parts.{IsOfError, IsOfNumbers, TellsWhy, read_of};

use crate::items::editor_span;
use crate::reading::read_start;
use editor_language::{PartProblem, Span};
use justfile_ast::Ast;
use justfile_canonical::reading::{Query, query_root};
use justfile_survey::{message_in_text, names_lines, place_of_error};
use justfile_token::{CompileError, CompileErrorKind, Fault};
use justfile_vocabulary::TokenKind;
use std::alloc::{AllocError, Global};

/// What can be done about a rejection.
#[derive(Clone, Copy)]
pub(crate) enum Cause {
    /// Nothing: it is wrong whatever follows.
    Error,
    /// The text ends too early.
    EarlyEnd,
    /// An interpolation isn't closed.
    OpenInterpolation,
    /// The literal that begins at this offset of what was read isn't closed.
    OpenLiteral(usize),
}

/// Why a part is rejected.
#[derive(Drop)]
pub(crate) struct Rejection {
    /// What is wrong.
    pub(crate) problem: PartProblem,
    /// What can be done about it.
    pub(crate) cause: Cause,
}

/// Asks nothing of a file.
#[derive(Drop)]
struct NoQuery;

impl Query for NoQuery {
    type Answer = ();

    ghost answers = { λ query ast answer. Unit {0} };

    fn answer(_ast: &mut Ast<'_>, _alloc: Global, _query: &Self) -> Result<(), AllocError> {
        Ok(())
    }
}

/// Returns why what is in a text from an offset up to an end is rejected, if it is.
pub(crate) fn rejection_of(
    alloc: Global,
    text: &str,
    start: usize,
    end: usize,
) -> Result<Option<Rejection>, AllocError>
    requires start { IsPartStart text.now start }
    requires end { IsEnd text.now start end }
    ensures { IfOk result (λ found.
        IfSome found (λ rejection. TellsWhy (read_of text.now start end) rejection.problem)) }
{
    let read = &text[read_start(start)..end];
    match query_root(alloc, "justfile", read, &NoQuery) {
        Ok(()) => Ok(None),
        Err(fault) => Ok(Some(rejection_for(alloc, read, fault)?)),
    }
}

/// Returns why a text is rejected that has no file for a fault.
#[tactic(auto, using(crate::proofs::Why::token_within, crate::proofs::Why::told_by, crate::proofs::Why::out_of_numbers))]
pub(crate) fn rejection_for(
    alloc: Global,
    text: &str,
    fault: Fault<'_>,
) -> Result<Rejection, AllocError>
    requires { HasNoRoot (codes "justfile") text.now fault }
    ensures { IfOk result (λ rejection. TellsWhy text.now rejection.problem) }
{
    match fault {
        Fault::Compile(error) => rejection_by(alloc, text, &error),
        Fault::Memory => Err(AllocError),
        Fault::Numbers => out_of_numbers(alloc),
    }
}

/// Returns the rejection of a text for an error.
fn rejection_by(
    alloc: Global,
    text: &str,
    error: &CompileError<'_>,
) -> Result<Rejection, AllocError>
    requires { error.now.token.offset + error.now.token.length ≤ length text.now }
    ensures { IfOk result (λ rejection. IsOfError text.now error.now rejection.problem) }
{
    Ok(Rejection {
        problem: PartProblem {
            span: editor_span(place_of_error(text, error)),
            message: error.to_string(alloc)?,
            names_lines: names_lines(&error.kind),
        },
        cause: cause_of(error),
    })
}

/// Returns what can be done about an error.
fn cause_of(error: &CompileError<'_>) -> Cause {
    match error.kind {
        CompileErrorKind::UnterminatedBacktick | CompileErrorKind::UnterminatedString => {
            Cause::OpenLiteral(error.token.offset)
        }
        CompileErrorKind::UnterminatedInterpolation => Cause::OpenInterpolation,
        _ => match error.token.kind {
            TokenKind::Eof => Cause::EarlyEnd,
            _ => Cause::Error,
        },
    }
}

/// Returns what can be done about the rejection of what is in a text from an offset up to an end, which
/// has this cause: nothing, if what is before the open literal or in the open interpolation is wrong
/// already.
pub(crate) fn certain_cause(
    alloc: Global,
    text: &str,
    start: usize,
    end: usize,
    cause: Cause,
) -> Result<Cause, AllocError> {
    let from = read_start(start);
    let is_wrong = match cause {
        Cause::Error | Cause::EarlyEnd => false,
        Cause::OpenLiteral(at) => is_wrong(alloc, text.get(from..from.saturating_add(at)))?,
        Cause::OpenInterpolation => is_wrong_if_closed(alloc, text.get(from..end))?,
    };
    Ok(if is_wrong { Cause::Error } else { cause })
}

/// Whether a text is wrong, whatever follows it.
fn is_wrong(alloc: Global, text: Option<&str>) -> Result<bool, AllocError> {
    let Some(text) = text else {
        return Ok(false);
    };
    match query_root(alloc, "justfile", text, &NoQuery) {
        Err(Fault::Compile(error)) => Ok(matches!(cause_of(&error), Cause::Error)),
        Err(Fault::Memory) => Err(AllocError),
        Ok(()) | Err(Fault::Numbers) => Ok(false),
    }
}

/// Whether a text that ends in an interpolation is wrong before its end, once that is closed there.
fn is_wrong_if_closed(alloc: Global, text: Option<&str>) -> Result<bool, AllocError> {
    let Some(text) = text else {
        return Ok(false);
    };
    let closed = format!(in alloc; "{text}}}}}")?;
    match query_root(alloc, "justfile", closed.as_str(), &NoQuery) {
        Err(Fault::Compile(error)) => Ok(error.token.offset < text.len()),
        Err(Fault::Memory) => Err(AllocError),
        Ok(()) | Err(Fault::Numbers) => Ok(false),
    }
}

/// Returns the rejection of a text for which numbers don't suffice.
fn out_of_numbers(alloc: Global) -> Result<Rejection, AllocError>
    ensures { IfOk result (λ rejection. IsOfNumbers rejection.problem) }
{
    Ok(Rejection {
        problem: PartProblem {
            span: Span { start: 0, end: 0 },
            message: "out of numbers".to_string(alloc)?,
            names_lines: false,
        },
        cause: Cause::Error,
    })
}

/// Returns the message of a problem that names lines, for what was read from an offset up to an end: with
/// the lines of the whole text, of which so many are before it.
pub(crate) fn message_after(
    alloc: Global,
    text: &str,
    base: usize,
    end: usize,
    lines: usize,
    problem: &PartProblem,
) -> Result<String, AllocError> {
    let Some(read) = text.get(base..end.min(text.len())) else {
        return problem.message.clone();
    };
    match query_root(alloc, "justfile", read, &NoQuery) {
        Err(Fault::Compile(mut error)) => message_in_text(alloc, &mut error, lines),
        Err(Fault::Memory) => Err(AllocError),
        Ok(()) | Err(Fault::Numbers) => problem.message.clone(),
    }
}
