//! Checks that printed texts of files settle: print to themselves. Functions take the file as their
//! first parameter, because its lifetimes after those of others make the check exceed its limit.

use crate::expansion::Expansion;
use crate::question::parse;
use justfile_syntax::ast::Ast;
use justfile_syntax::indentation::Indentation;
use justfile_syntax::numerator::Numerator;
use justfile_syntax::parser::release;
use row_items::printing::{prints_once, push_printed_text};
use row_notation::{Answer, push_fault};

/// Writes a file's printed text at an indentation, and what it writes to writers if that is
/// another. If it says that it isn't printable, writes `unprintable` after it; otherwise, if the
/// printed text doesn't settle under a limit of depth, writes what it is printed to instead.
pub(crate) fn prints(ast: &Ast<'_>, answer: &mut Answer, indentation: Indentation, limit: usize) {
    if let Some(printed) = push_printed_text(ast, answer, indentation) {
        settles(answer, indentation, limit, printed.as_str());
    }
}

/// Writes what a printed text is parsed and printed to under a limit of depth, unless that is the
/// same text.
pub(crate) fn settles(answer: &mut Answer, indentation: Indentation, limit: usize, printed: &str) {
    let mut again = Answer::new(answer.alloc());
    let mut numerator = Numerator::new(0);
    let unchanged = Expansion::Unchanged;
    match parse(answer.alloc(), &mut numerator, &unchanged, limit, printed) {
        Ok(mut ast) => {
            prints_once(&mut ast, &mut again, indentation);
            release(ast);
        }
        Err(fault) => push_fault(&mut again, printed, &fault),
    }
    let mut expected = Answer::new(answer.alloc());
    expected.push(printed);
    answer.push_unless("unsettled", &again, &expected);
}
