//! What is wrong with the names of texts, as rows show it.

use justfile_lint::lint_with_circles;
use justfile_problems::{Circle, Problem};
use justfile_syntax::ast::Ast;
use justfile_syntax::parser::{Query, query_root};
use justfile_token::CompileError;
use row_notation::{Answer, field_at, push_fault};
use std::alloc::{AllocError, Global};

/// Asks for what is wrong with the names of a file.
#[derive(Drop)]
struct Problems {
    /// Whether another file may import the file.
    imported: bool,
}

impl Query for Problems {
    ghost use Rattle.std.specs.Prelude.{⊤};

    type Answer = Answer;

    ghost answers = { λ _ _ _. ⊤ };

    fn answer(ast: &mut Ast<'_>, alloc: Global, query: &Self) -> Result<Answer, AllocError> {
        let mut answer = Answer::new(alloc);
        match lint_with_circles(ast, query.imported, alloc) {
            Ok(found) => {
                push_problems(&found.problems, &mut answer);
                push_circles(&found.circles, &mut answer);
            }
            Err(_) => answer.fail(),
        }
        Ok(answer)
    }
}

fn push_problems(problems: &[Problem<'_>], answer: &mut Answer) {
    for problem in problems {
        push_error(problem.error(answer.alloc()), answer);
    }
}

fn push_circles(circles: &[Circle<'_>], answer: &mut Answer) {
    for circle in circles {
        push_error(circle.error(answer.alloc()), answer);
    }
}

/// Writes the offset and the message of an error, if it was made.
fn push_error(made: Result<CompileError<'_>, AllocError>, answer: &mut Answer) {
    match made {
        Ok(error) => {
            answer.push_number(error.token.offset);
            answer.push_display(&error);
        }
        Err(_) => answer.fail(),
    }
}

/// Writes of each problem of a text, and then of each circle, the offset and the message of its error.
/// The first field tells whether another file may import the text.
pub(crate) fn lints(answer: &mut Answer, fields: &[String]) {
    let query = Problems {
        imported: field_at(fields, 0) == "imported",
    };
    let source = field_at(fields, 1);
    match query_root(answer.alloc(), "justfile", source, &query) {
        Ok(found) => answer.push_all(&found),
        Err(fault) => push_fault(answer, source, &fault),
    }
}
