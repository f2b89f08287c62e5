//! Callers of the library, a query, and the lines of faults.

use formatted::formatted;
use justfile_canonical::parts::format_parts;
use justfile_syntax::ast::Ast;
use justfile_syntax::format::FormatFault;
use justfile_syntax::parser::{Query, query_root};
use row_notation::{Answer, field_at, indentation_at, number_at, push_fault};
use std::alloc::{AllocError, AllocFailed, Global};
use variables::variables_of;

/// Writes what `formatted` returns for a text at an indentation.
pub(crate) fn formats_at(answer: &mut Answer, fields: &[String]) {
    let source = field_at(fields, 1);
    match formatted(answer.alloc(), source, indentation_at(fields, 0)) {
        Ok(text) => answer.push(text.as_str()),
        Err(fault) => push_fault(answer, source, &fault),
    }
}

/// Writes the canonical text of a text that is read in parts of at least a number of bytes, if it can
/// be.
pub(crate) fn in_parts(answer: &mut Answer, fields: &[String]) {
    let least = number_at(fields, 0) as usize;
    if let Some(text) = format_parts(answer.alloc(), field_at(fields, 1), least) {
        answer.push(text.as_str());
    }
}

/// Writes the names that `variables_of` returns for a text.
pub(crate) fn variables(answer: &mut Answer, text: &str) {
    match variables_of(answer.alloc(), text) {
        Ok(names) => push_names(answer, &names),
        Err(fault) => push_fault(answer, text, &fault),
    }
}

fn push_names(answer: &mut Answer, names: &[&str]) {
    for name in names {
        answer.push(name);
    }
}

/// Asks how many items a file has.
struct Count;

impl Query for Count {
    ghost use Rattle.std.specs.Prelude.{◌≡◌, length};

    type Answer = usize;

    ghost answers = { λ _ ast count. count ≡ length ast.items.items };

    fn answer(ast: &mut Ast<'_>, _alloc: Global, _query: &Self) -> Result<usize, AllocError> {
        Ok(ast.items.len())
    }
}

/// Writes how many items a text has, as a query answers.
pub(crate) fn item_count(answer: &mut Answer, text: &str) {
    match query_root(answer.alloc(), "justfile", text, &Count) {
        Ok(count) => answer.push_number(count),
        Err(fault) => push_fault(answer, text, &fault),
    }
}

/// Writes the lines of the fault that a failed allocation or a failed list becomes, or those of the
/// fault that numbers ran out.
pub(crate) fn fault_lines(answer: &mut Answer, which: &str) {
    let fault = match which {
        "memory" => FormatFault::from(AllocError),
        "list" => FormatFault::from(AllocFailed { value: 1u8 }),
        _ => FormatFault::Numbers,
    };
    answer.push(fault.lines());
}
