//! The kinds of literals, as rows show them.

use crate::answer::Answer;
use justfile_token::StringKind;

/// Writes the delimiter of a literal, and whether it is tripled.
pub fn push_string_kind(answer: &mut Answer, kind: StringKind) {
    answer.push_debug(&kind.delimiter);
    answer.push(if kind.indented { "tripled" } else { "single" });
}
