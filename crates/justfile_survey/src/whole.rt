//! The survey of a text as a whole.
ghost use Rattle.std.specs.Prelude.{IfOk, codes, length};
ghost use Rattle.justfile_token.specs.declared.fault.Fault.TheVariants.{Compile, Numbers};
ghost use Rattle.justfile_survey.specs.Surveys.{IsJustfile, IsRejected, IsWhole, Says};

use crate::errors::error_of_text;
use crate::items::push_items;
use crate::part::Part;
use crate::surveys::{SurveyedError, SurveyedItem};
use justfile_ast::Ast;
use justfile_canonical::reading::release;
use justfile_canonical::root::parse_root;
use justfile_chunks::{Span, chunks};
use justfile_lex::Lexer;
use justfile_token::{CompileError, Fault};
use std::alloc::{AllocError, Global};

/// What a text is as a whole.
#[derive(Drop)]
pub(crate) enum Whole {
    /// A justfile with these items.
    Justfile(Vec<SurveyedItem>),
    /// No justfile, for this error.
    Rejected(SurveyedError),
}

/// Surveys a text as a whole.
#[tactic(auto, using(crate::proofs::Found::rejected_if_ok))]
pub(crate) fn survey_whole(alloc: Global, path: &str, text: &str) -> Result<Whole, AllocError>
    ensures { IfOk result (IsWhole path.now text.now) }
{
    match parse_root(alloc, path, text) {
        Ok(mut ast) => {
            let items = whole_items(&mut ast, alloc, path, text);
            release(ast);
            items
        }
        Err(fault) => whole_fault(alloc, fault),
    }
}

/// Returns the items of the file of a text.
#[tactic(auto, using(crate::proofs::Added::alone))]
fn whole_items(
    ast: &mut Ast<'_>,
    alloc: Global,
    path: &str,
    text: &str,
) -> Result<Whole, AllocError>
    ensures { IfOk result (IsJustfile (length text.now) ast.old) }
{
    let extents = extents(alloc, path, text)?;
    let part = Part {
        text,
        base: 0,
        extents: &extents,
    };
    let mut items = Vec::new(alloc);
    push_items(&ast.items, alloc, part, &mut items)?;
    Ok(Whole::Justfile(items))
}

/// Returns the spans of the chunks of a text, or none if it has no tokens.
pub(crate) fn extents(alloc: Global, path: &str, text: &str) -> Result<Vec<Span>, AllocError> {
    match Lexer::lex(alloc, path, text) {
        Ok(tokens) => chunks(alloc, &tokens),
        Err(Fault::Memory) => Err(AllocError),
        Err(_) => Ok(Vec::new(alloc)),
    }
}

/// Returns the error for which a text is rejected.
#[tactic(auto, using(crate::proofs::Found::same_fault))]
fn whole_fault(alloc: Global, fault: Fault<'_>) -> Result<Whole, AllocError>
    ensures { IfOk result (IsRejected fault.entry) }
{
    match fault {
        Fault::Compile(error) => rejected_for(alloc, &error),
        Fault::Memory => Err(AllocError),
        Fault::Numbers => rejected_for_numbers(alloc),
    }
}

/// Returns that a text is rejected for an error.
fn rejected_for(alloc: Global, error: &CompileError<'_>) -> Result<Whole, AllocError>
    ensures { IfOk result (IsRejected (Compile error.now)) }
{
    Ok(Whole::Rejected(error_of_text(alloc, error)?))
}

/// Returns that a text is rejected since numbers run out.
fn rejected_for_numbers(alloc: Global) -> Result<Whole, AllocError>
    ensures { IfOk result (IsRejected Numbers) }
{
    Ok(Whole::Rejected(out_of_numbers(alloc)?))
}

/// Returns the error that numbers run out.
fn out_of_numbers(alloc: Global) -> Result<SurveyedError, AllocError>
    ensures { IfOk result (λ s. Says s 0 0 0 0 (codes "out of numbers")) }
{
    Ok(SurveyedError {
        span: Span { start: 0, end: 0 },
        line: 0,
        column: 0,
        message: "out of numbers".to_string(alloc)?,
    })
}
