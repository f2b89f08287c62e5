//! Other calls of the parser: of files of modules, and of root files with numbers from a numerator.

use crate::files::push_next;
use crate::question::{Question, push_parsed};
use justfile_syntax::expander::Unchanged;
use justfile_syntax::lexer::Lexer;
use justfile_syntax::namepath::Namepath;
use justfile_syntax::numerator::Numerator;
use justfile_syntax::parser::{Parser, RECURSION_LIMIT, parse_root_with};
use justfile_syntax::version::Version;
use row_notation::{Answer, field_at, number_at, path_of};

/// Parses the tokens of a text as the file of the module with a path. Writes the file's module, its
/// working directory and its items.
pub(crate) fn in_module(answer: &mut Answer, fields: &[String]) {
    match path_of(answer.alloc(), field_at(fields, 0)) {
        Ok(path) => push_of_path(answer, &path, field_at(fields, 1)),
        Err(_) => answer.fail(),
    }
}

/// Parses the tokens of a text as the file of the module with a path.
fn push_of_path(answer: &mut Answer, path: &Namepath<'_>, text: &str) {
    let Ok(tokens) = Lexer::lex(answer.alloc(), "justfile", text) else {
        return answer.push("none");
    };
    let parsed = Parser::parse(
        answer.alloc(),
        3,
        &[],
        Some(path),
        &mut Numerator::new(5),
        tokens.as_slice(),
        "/home/m",
        &Unchanged,
        Version::CURRENT,
        RECURSION_LIMIT,
    );
    push_parsed(parsed, answer, text, Question::InModule, &[]);
}

/// Parses a root file after as many constants as the first field says. Writes the numbers that the
/// next binding and the next recipe would get, and then the file's items.
pub(crate) fn roots(answer: &mut Answer, fields: &[String]) {
    let mut numerator = Numerator::new(number_at(fields, 0));
    let text = field_at(fields, 1);
    let mut found = Answer::new(answer.alloc());
    let parsed = parse_root_with(answer.alloc(), &mut numerator, "justfile", text);
    push_parsed(parsed, &mut found, text, Question::Root, fields);
    push_next(answer, &mut numerator);
    answer.push_all(&found);
}
