//! What lexing, parsing and printing return if memory runs out.
//!
//! A row takes all memory that the system gives, in blocks that it doesn't write to, except one
//! block. It makes a call with that block. The call has to return that memory ran out, or what it
//! returns with ample memory; and the same call has to succeed directly afterwards, with ample
//! memory. This is repeated for each size of the block, in steps of the smallest unit of the
//! system's heap, until the block is more than large enough.

mod answers;
mod counts;
mod scarcity;
mod text;

use crate::scarce::answers::{lex_with, parse, parse_with, print_with};
use crate::scarce::counts::Counts;
use crate::scarce::scarcity::{AMPLE, Scarcity};
use crate::scarce::text::TEXT;
use justfile_syntax::ast::Ast;
use justfile_syntax::numerator::Numerator;
use justfile_syntax::parser::release;
use justfile_syntax::token::Token;
use row_notation::{Answer, tokens_of};
use std::alloc::Global;
use std::io;

/// The step between two sizes of the block, in bytes.
const STEP: usize = 16;

/// The outcomes of the three calls.
#[derive(Drop)]
struct Outcomes {
    lexing: Counts,
    parsing: Counts,
    printing: Counts,
    /// Whether the calls were made.
    are_made: bool,
}

impl Outcomes {
    /// Returns the outcomes of no calls.
    fn new() -> Self {
        Outcomes {
            lexing: Counts::new(),
            parsing: Counts::new(),
            printing: Counts::new(),
            are_made: false,
        }
    }
}

/// Makes each call with `size` bytes of memory, between lines if there is a runtime, and then with
/// an ample size.
fn count_calls<'src>(
    ast: &mut Ast<'src>,
    rt: Option<&HostRuntime>,
    scarcity: &mut Scarcity,
    (alloc, size): (Global, usize),
    text: &'src str,
    tokens: &[Token<'src>],
    outcomes: &mut Outcomes,
) {
    let lexed = lex_with(rt, alloc, scarcity, size, text, tokens);
    let again = lex_with(None, alloc, scarcity, AMPLE, text, tokens);
    outcomes.lexing.count(lexed, again);
    let parsed = parse_with(rt, alloc, scarcity, size, text);
    let again = parse_with(None, alloc, scarcity, AMPLE, text);
    outcomes.parsing.count(parsed, again);
    let printed = print_with(ast, rt, alloc, scarcity, size);
    let again = print_with(ast, None, alloc, scarcity, AMPLE);
    outcomes.printing.count(printed, again);
}

/// Makes each call with each size of the block; or once with an ample size, if there is a runtime.
fn sweep<'src>(
    ast: &mut Ast<'src>,
    rt: Option<&HostRuntime>,
    alloc: Global,
    text: &'src str,
    tokens: &[Token<'src>],
    outcomes: &mut Outcomes,
) {
    if rt.is_some() {
        let mut none = Scarcity::none(alloc);
        count_calls(ast, rt, &mut none, (alloc, AMPLE), text, tokens, outcomes);
        outcomes.are_made = true;
    } else if let Ok(mut scarcity) = Scarcity::new(alloc) {
        for size in (0usize..AMPLE).step_by(STEP) {
            count_calls(
                ast,
                rt,
                &mut scarcity,
                (alloc, size),
                text,
                tokens,
                outcomes,
            );
        }
        outcomes.are_made = true;
    }
}

/// Makes the calls for a justfile, and counts their outcomes.
fn run(rt: Option<&HostRuntime>, alloc: Global, text: &str, outcomes: &mut Outcomes) {
    let tokens = tokens_of(alloc, text);
    if !tokens.is_empty() {
        run_with(rt, alloc, text, &tokens, outcomes);
    }
}

/// Makes the calls for a justfile with these tokens.
fn run_with<'src>(
    rt: Option<&HostRuntime>,
    alloc: Global,
    text: &'src str,
    tokens: &[Token<'src>],
    outcomes: &mut Outcomes,
) {
    if let Ok(mut ast) = parse(alloc, &mut Numerator::new(0), text) {
        sweep(&mut ast, rt, alloc, text, tokens, outcomes);
        release(ast);
    }
}

/// Makes the calls with scarce memory, and writes what is to be said about the outcomes of lexing,
/// of parsing and of printing. Writes `changed` if the text isn't as it was.
pub(crate) fn scarcely(answer: &mut Answer) {
    match TEXT.to_string(answer.alloc()) {
        Ok(text) => push_outcomes(answer, text.as_str()),
        Err(_) => answer.fail(),
    }
}

fn push_outcomes(answer: &mut Answer, text: &str) {
    let mut outcomes = Outcomes::new();
    run(None, answer.alloc(), text, &mut outcomes);
    if outcomes.are_made {
        answer.push(outcomes.lexing.verdict());
        answer.push(outcomes.parsing.verdict());
        answer.push(outcomes.printing.verdict());
    } else {
        answer.push("no answer with ample memory");
    }
    answer.push_if("changed", text != TEXT);
}

/// Takes no memory, and makes each call once, between lines that it writes: a library that is loaded
/// before the program can refuse one of the call's requests. Writes the outcome of each call, and
/// that of the same call after it.
pub(crate) fn run_calls(rt: &HostRuntime) -> io::Result<()> {
    let text = TEXT.to_string(rt.alloc())?;
    let mut outcomes = Outcomes::new();
    run(Some(rt), rt.alloc(), text.as_str(), &mut outcomes);
    report(rt, "lexing", &outcomes.lexing)?;
    report(rt, "parsing", &outcomes.parsing)?;
    report(rt, "printing", &outcomes.printing)?;
    println!(rt; "the text is unchanged: {}", text.as_str() == TEXT)
}

/// Writes the last outcome of a call, and that of the same call after it.
fn report(rt: &HostRuntime, call: &str, counts: &Counts) -> io::Result<()> {
    println!(rt;
        "{call}: {}, then {}",
        counts.last.name(),
        counts.again.name()
    )
}
