//! Checks that each beginning of a text is parsed or rejected, and that what it is printed to
//! settles: prints to itself.

use crate::expansion::Expansion;
use crate::printing::settles;
use crate::question::{Question, ask};
use justfile_syntax::ast::Ast;
use justfile_syntax::compile_error_kind::CompileErrorKind;
use justfile_syntax::fault::Fault;
use justfile_syntax::indentation::Indentation;
use justfile_syntax::numerator::Numerator;
use justfile_syntax::parser::RECURSION_LIMIT;
use row_notation::{Answer, Text, indentation_of};

/// The indentations at which the printed text has to settle.
const INDENTATIONS: [&str; 3] = ["    ", "  ", "\t"];

/// Writes where the printed text of a file doesn't settle, if the file can be printed.
pub(crate) fn settles_everywhere(ast: &mut Ast<'_>, answer: &mut Answer) {
    if ast.printable() {
        for blanks in INDENTATIONS {
            settles_at(ast, answer, indentation_of(blanks));
        }
    }
}

/// Writes how the printed text of a file doesn't settle at an indentation, if it doesn't.
fn settles_at(ast: &Ast<'_>, answer: &mut Answer, indentation: Indentation) {
    match ast.print(answer.alloc(), indentation) {
        Ok(printed) => settles(answer, indentation, RECURSION_LIMIT, printed.as_str()),
        Err(_) => answer.fail(),
    }
}

/// Whether a fault is one of the text, and not of the program or the machine.
pub(crate) fn is_of_text(fault: &Fault<'_>) -> bool {
    match fault {
        Fault::Compile(error) => !matches!(error.kind, CompileErrorKind::Internal { .. }),
        _ => false,
    }
}

/// Writes what is wrong with the result for a text, and returns whether it is a file.
fn is_file(answer: &mut Answer, text: &str) -> bool {
    let how = (Expansion::Unchanged, RECURSION_LIMIT);
    let mut numerator = Numerator::new(0);
    ask(answer, &mut numerator, how, text, Question::Beginning, &[])
}

/// Writes what is wrong with the results for a text's beginnings, and then whether the text is a
/// file or rejected.
pub(crate) fn beginnings(answer: &mut Answer, text: &str) {
    let mut beginning = Text::new(answer.alloc());
    let mut is_whole = is_file(answer, "");
    for character in text.chars() {
        beginning.put_character(character);
        is_whole = is_file(answer, beginning.as_str());
    }
    if beginning.finish().is_err() {
        answer.fail();
    }
    answer.push(if is_whole { "file" } else { "rejected" });
}
