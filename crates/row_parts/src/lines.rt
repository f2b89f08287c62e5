//! Lines of bodies, as rows show them.

use crate::copies::copies_line;
use crate::shown::{put_expression, put_marked};
use justfile_line::{Fragment, Line};
use row_notation::{Answer, Text, push_each_debug};

/// Writes a fragment of a line: a text in ‹›, an expression in ().
fn put_fragment(fragment: &Fragment<'_>, shown: &mut Text) {
    match fragment {
        Fragment::Text { token } => put_marked(shown, " ", token.lexeme()),
        Fragment::Interpolation { expression } => {
            shown.put(" (");
            put_expression(expression, shown);
            shown.put(")");
        }
    }
}

/// Writes a line of a body: a bar, the number of the line, and its fragments.
pub fn put_line(line: &Line<'_>, shown: &mut Text) {
    shown.put(" | ");
    shown.put_number(line.number);
    for fragment in &line.fragments {
        put_fragment(fragment, shown);
    }
}

/// Writes the sigils of a line, with or without guards.
pub fn push_sigils(line: &Line<'_>, answer: &mut Answer, guards: bool) {
    match line.sigils(answer.alloc(), guards) {
        Ok(sigils) => push_each_debug(sigils.iter(), answer),
        Err(_) => answer.fail(),
    }
}

/// Writes the number of a line of a body, its properties, and `uncopied` if its copy isn't
/// equal.
pub fn push_line(line: &Line<'_>, answer: &mut Answer) {
    answer.push_number(line.number);
    answer.push_if("comment", line.is_comment());
    answer.push_if("shebang", line.is_shebang());
    answer.push_if("continuation", line.is_continuation());
    answer.push_if("empty", line.is_empty());
    copies_line(line, answer);
}
