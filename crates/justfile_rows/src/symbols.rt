//! Symbols of root files, as rows show them.

use crate::question::{Question, push_parsed};
use justfile_syntax::ast::Ast;
use justfile_syntax::outline::symbols;
use justfile_syntax::parser::{Inspector, inspect_root, parse_root};
use row_items::symbols::{push_outline, push_symbols};
use row_notation::{Answer, push_fault};

/// Writes the symbols of a text. Writes `parsed` and what is found if the outline of the parsed
/// file has others, and `read` if the file that is lent to an inspector does.
pub(crate) fn push_symbols_of(answer: &mut Answer, text: &str) {
    let mut found = Answer::new(answer.alloc());
    push_found(&mut found, text);
    answer.push_all(&found);
    let mut parsed = Answer::new(answer.alloc());
    push_outline_of(&mut parsed, text);
    answer.push_unless("parsed", &parsed, &found);
    let mut read = Answer::new(answer.alloc());
    push_inspected(&mut read, text);
    answer.push_unless("read", &read, &found);
}

/// Writes the symbols that a call returns for a text.
fn push_found(answer: &mut Answer, text: &str) {
    match symbols(answer.alloc(), "justfile", text) {
        Ok(symbols) => push_symbols(answer, &symbols),
        Err(fault) => push_fault(answer, text, &fault),
    }
}

/// Writes the outline of the file that a text is parsed to.
fn push_outline_of(answer: &mut Answer, text: &str) {
    let parsed = parse_root(answer.alloc(), "justfile", text);
    push_parsed(parsed, answer, text, Question::Outline, &[]);
}

/// An inspector that writes the outline of a file.
#[derive(Drop)]
struct Outliner {
    answer: Answer,
}

impl Inspector for Outliner {
    ghost inspects = { λ _ _ _. Unit {0} };

    fn inspect(ast: &Ast<'_>, inspector: &mut Self) {
        push_outline(&ast.items, &mut inspector.answer);
    }
}

/// Writes the outline of a text's file, which is lent to an inspector.
fn push_inspected(answer: &mut Answer, text: &str) {
    let mut outliner = Outliner {
        answer: Answer::new(answer.alloc()),
    };
    match inspect_root(answer.alloc(), "justfile", text, &mut outliner) {
        Ok(()) => answer.push_all(&outliner.answer),
        Err(fault) => push_fault(answer, text, &fault),
    }
}
