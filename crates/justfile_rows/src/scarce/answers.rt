//! The calls, and whether what they return is right.

use crate::scarce::counts::Outcome;
use crate::scarce::scarcity::Scarcity;
use crate::scarce::text::{BINDINGS, PRINTED, RECIPES};
use justfile_syntax::ast::Ast;
use justfile_syntax::expander::Unchanged;
use justfile_syntax::fault::{CompileResult, Fault};
use justfile_syntax::indentation::Indentation;
use justfile_syntax::lexer::Lexer;
use justfile_syntax::numerator::{Number, Numerator};
use justfile_syntax::parser::{Parser, RECURSION_LIMIT, release};
use justfile_syntax::source::Source;
use justfile_syntax::token::Token;
use justfile_syntax::version::Version;
use std::alloc::{AllocError, Global};

/// Parses the justfile.
pub(crate) fn parse<'src>(
    alloc: Global,
    numerator: &mut Numerator,
    text: &'src str,
) -> CompileResult<'src, Ast<'src>> {
    Parser::parse_source(
        alloc,
        numerator,
        "justfile",
        &Source::root(),
        text,
        &Unchanged,
        Version::CURRENT,
        RECURSION_LIMIT,
    )
}

/// Returns how many numbers bindings and recipes were given.
fn numbers(numerator: &mut Numerator) -> Option<(u32, u32)> {
    let Number(bindings) = numerator.next_binding()?;
    let Number(recipes) = numerator.next_recipe()?;
    Some((bindings, recipes))
}

/// Checks what a file prints, and how many numbers were given to its bindings and its recipes.
fn judge_printed(ast: &mut Ast<'_>, alloc: Global, given: (u32, u32)) -> Outcome {
    if given != (BINDINGS, RECIPES) {
        return Outcome::Wrong;
    }
    judge_text(ast.print(alloc, Indentation::default()))
}

/// Checks a result of printing.
fn judge_text(answer: Result<String, AllocError>) -> Outcome {
    match answer {
        Ok(printed) if printed.as_str() == PRINTED => Outcome::Plain,
        Ok(_) => Outcome::Wrong,
        Err(_) => Outcome::Refused,
    }
}

/// Writes a line if there is a runtime, whether that succeeds or not: no call may depend on it.
fn mark(rt: Option<&HostRuntime>, line: &str) {
    if let Some(rt) = rt {
        let _ = println!(rt; "{line}");
    }
}

/// Lexes the text with `size` bytes of memory, between two lines, and compares the result with these
/// tokens.
pub(crate) fn lex_with<'src>(
    rt: Option<&HostRuntime>,
    alloc: Global,
    scarcity: &mut Scarcity,
    size: usize,
    text: &'src str,
    tokens: &[Token<'src>],
) -> Outcome {
    mark(rt, "lexing");
    scarcity.leave(alloc, size);
    let answer = Lexer::lex(alloc, "justfile", text);
    scarcity.end();
    mark(rt, "lexed");
    match answer {
        Ok(found) => judge_tokens(&found, tokens),
        Err(fault) => judge_fault(&fault, true),
    }
}

/// Compares tokens with those that lexing returns with ample memory.
fn judge_tokens<'src>(found: &[Token<'src>], tokens: &[Token<'src>]) -> Outcome {
    if found == tokens {
        Outcome::Plain
    } else {
        Outcome::Wrong
    }
}

/// Checks a fault: memory may run out, if all else is as it should be.
fn judge_fault(fault: &Fault<'_>, is_allowed: bool) -> Outcome {
    match fault {
        Fault::Memory if is_allowed => Outcome::Refused,
        _ => Outcome::Wrong,
    }
}

/// Parses the text with `size` bytes of memory, between two lines, and checks the result. If memory
/// ran out, the numerator may not have given more numbers than the justfile has.
pub(crate) fn parse_with(
    rt: Option<&HostRuntime>,
    alloc: Global,
    scarcity: &mut Scarcity,
    size: usize,
    text: &str,
) -> Outcome {
    let mut numerator = Numerator::new(0);
    mark(rt, "parsing");
    scarcity.leave(alloc, size);
    let answer = parse(alloc, &mut numerator, text);
    scarcity.end();
    mark(rt, "parsed");
    let given = numbers(&mut numerator).unwrap_or((u32::MAX, u32::MAX));
    match answer {
        Ok(mut ast) => {
            let outcome = judge_printed(&mut ast, alloc, given);
            release(ast);
            outcome
        }
        Err(fault) => judge_fault(&fault, given.0 <= BINDINGS && given.1 <= RECIPES),
    }
}

/// Prints the file with `size` bytes of memory, between two lines, and checks the result.
pub(crate) fn print_with(
    ast: &Ast<'_>,
    rt: Option<&HostRuntime>,
    alloc: Global,
    scarcity: &mut Scarcity,
    size: usize,
) -> Outcome {
    mark(rt, "printing");
    scarcity.leave(alloc, size);
    let answer = ast.print(alloc, Indentation::default());
    scarcity.end();
    mark(rt, "printed");
    judge_text(answer)
}
